//! Trees are added to the rows of their types, children first.
ghost use Rattle.std.specs.Prelude.{◌≡◌, ◌<◌, ℕ, List, length, map, Err, IfOk, Some, IsSome};
ghost use Rattle.schema_model.specs.Parts.{index_of_type};
ghost use Rattle.row_model.specs.PlainTree.{trees_of_list, pairs_of_list};
ghost use Rattle.record_trees.specs.Tree.{plain, plain_pair};
ghost use Rattle.row_model.specs.declared.row.Value.{Value as RowValue};
ghost use Rattle.row_model.specs.Table.{Table};
ghost use Rattle.write_engine.specs.Agreement.{TablesAgree};
ghost use Rattle.write_engine.specs.Cycle.{PutsRow, Adds, AddsFields, AddsAll, AddsPairs};
ghost use Rattle.write_engine.specs.RowPuts.{TellsRowPut};
ghost use Rattle.record_trees.specs.FitsTree.{FitsTree, FitFields, FitAll, FitPairs};
ghost use Rattle.record_trees.specs.Types.{referred};
ghost use Rattle.write_engine.specs.Production.{previous_of, current_of};

use crate::gather::{map_of, set_of};
use crate::leaf::leaf_value;
use hol_varint::Ordinals;
use ordinal_map::{OrdinalMap, PutRowFault};
use record_trees::Tree;
use row_model::{Pairs, Row, Value, Values};
use schema_model::{Field, FieldKind, Model, Name, Shape};
use std::alloc::Global;

/// Adds a tree to a type: the rows that it refers to, and then its own, whose ordinal it gives.
#[cycle(adding)]
pub(crate) fn add_tree(
    alloc: Global,
    model: &Model,
    maps: &mut [OrdinalMap],
    type_index: u32,
    tree: &Tree,
) -> Result<u32, PutRowFault>
    requires types { length maps.old ≡ length model.now }
    requires agree { TablesAgree (previous_of maps.old) (current_of maps.old) }
    requires fits { FitsTree model.now type_index (plain tree.now) }
    ensures added { IfOk result (λ ordinal. Adds model.now (previous_of maps.old) type_index (plain tree.now) (current_of maps.old) ordinal (current_of maps.new)) }
    ensures too_many { result ≡ Err PutRowFault.TooMany → (ordinal : ℕ) (after : Table) → ¬ Adds model.now (previous_of maps.old) type_index (plain tree.now) (current_of maps.old) ordinal after }
    ensures previous { previous_of maps.new ≡ previous_of maps.old }
{
    match (&model.schema(type_index).shape, tree) {
        (Shape::Object(_, fields), Tree::Object(parts)) => {
            let values = add_fields(alloc, model, maps, fields.as_slice(), parts.as_slice())?;
            put_row(maps, type_index, Row::Object(values))
        }
        (Shape::List(element), Tree::List(parts)) => {
            let element = index_of(model, element);
            let ordinals = add_all(alloc, model, maps, element, parts.as_slice())?;
            put_row(maps, type_index, Row::List(ordinals))
        }
        (Shape::Set(element), Tree::Set(parts)) => {
            let element = index_of(model, element);
            let ordinals = add_all(alloc, model, maps, element, parts.as_slice())?;
            let members = set_of(alloc, ordinals.as_slice())?;
            put_row(maps, type_index, Row::Set(members))
        }
        (Shape::Map(key, value), Tree::Map(parts)) => {
            let (key, value) = (index_of(model, key), index_of(model, value));
            let pairs = add_pairs(alloc, model, maps, key, value, parts.as_slice())?;
            let members = map_of(alloc, pairs.as_slice())?;
            put_row(maps, type_index, Row::Map(members))
        }
        _ => unreachable!(),
    }
}

/// Puts a row of a type.
pub(crate) fn put_row(
    maps: &mut [OrdinalMap],
    type_index: u32,
    row: Row,
) -> Result<u32, PutRowFault>
    requires known { type_index < length maps.old }
    requires agree { TablesAgree (previous_of maps.old) (current_of maps.old) }
    ensures tells { TellsRowPut (previous_of maps.old) type_index row (current_of maps.old) result (current_of maps.new) }
    ensures put { IfOk result (λ ordinal. PutsRow (previous_of maps.old) type_index row (current_of maps.old) ordinal (current_of maps.new)) }
    ensures too_many { result ≡ Err PutRowFault.TooMany → (ordinal : ℕ) (after : Table) → ¬ PutsRow (previous_of maps.old) type_index row (current_of maps.old) ordinal after }
    ensures previous { previous_of maps.new ≡ previous_of maps.old }
{
    maps[type_index as usize].put(row)
}

// The values of a record, and the rows that its REFERENCEs refer to.
#[cycle(adding)]
fn add_fields(
    alloc: Global,
    model: &Model,
    maps: &mut [OrdinalMap],
    fields: &[Field],
    parts: &[Tree],
) -> Result<Values, PutRowFault>
    requires types { length maps.old ≡ length model.now }
    requires agree { TablesAgree (previous_of maps.old) (current_of maps.old) }
    requires fits { FitFields model.now fields.now (trees_of_list (map plain parts.now)) }
    ensures added { IfOk result (λ values. AddsFields model.now (previous_of maps.old) fields.now (trees_of_list (map plain parts.now)) (current_of maps.old) values (current_of maps.new)) }
    ensures too_many { result ≡ Err PutRowFault.TooMany → (values : List RowValue) (after : Table) → ¬ AddsFields model.now (previous_of maps.old) fields.now (trees_of_list (map plain parts.now)) (current_of maps.old) values after }
    ensures previous { previous_of maps.new ≡ previous_of maps.old }
{
    let mut values = Values::with_capacity(alloc, parts.len())?;
    for (place, part) in parts.iter().enumerate() {
        let value = match leaf_value(alloc, part)? {
            Some(value) => value,
            None => {
                let type_index = type_of(model, &fields[place].kind);
                Value::Ref(add_tree(alloc, model, maps, type_index, part)?)
            }
        };
        values.push(value)?;
    }
    Ok(values)
}

// The elements of a list or a set.
#[cycle(adding)]
fn add_all(
    alloc: Global,
    model: &Model,
    maps: &mut [OrdinalMap],
    type_index: u32,
    parts: &[Tree],
) -> Result<Ordinals, PutRowFault>
    requires types { length maps.old ≡ length model.now }
    requires agree { TablesAgree (previous_of maps.old) (current_of maps.old) }
    requires fits { FitAll model.now type_index (trees_of_list (map plain parts.now)) }
    ensures added { IfOk result (λ ordinals. AddsAll model.now (previous_of maps.old) type_index (trees_of_list (map plain parts.now)) (current_of maps.old) ordinals (current_of maps.new)) }
    ensures too_many { result ≡ Err PutRowFault.TooMany → (ordinals : List ℕ) (after : Table) → ¬ AddsAll model.now (previous_of maps.old) type_index (trees_of_list (map plain parts.now)) (current_of maps.old) ordinals after }
    ensures previous { previous_of maps.new ≡ previous_of maps.old }
{
    let mut ordinals = Ordinals::with_capacity(alloc, parts.len())?;
    for part in parts {
        ordinals.push(add_tree(alloc, model, maps, type_index, part)?)?;
    }
    Ok(ordinals)
}

// The keys and values of a map.
#[cycle(adding)]
fn add_pairs(
    alloc: Global,
    model: &Model,
    maps: &mut [OrdinalMap],
    key_type: u32,
    value_type: u32,
    parts: &[(Tree, Tree)],
) -> Result<Pairs, PutRowFault>
    requires types { length maps.old ≡ length model.now }
    requires agree { TablesAgree (previous_of maps.old) (current_of maps.old) }
    requires fits { FitPairs model.now (key_type, value_type) (pairs_of_list (map plain_pair parts.now)) }
    ensures added { IfOk result (λ pairs. AddsPairs model.now (previous_of maps.old) (key_type, value_type) (pairs_of_list (map plain_pair parts.now)) (current_of maps.old) pairs (current_of maps.new)) }
    ensures too_many { result ≡ Err PutRowFault.TooMany → (pairs : List (ℕ × ℕ)) (after : Table) → ¬ AddsPairs model.now (previous_of maps.old) (key_type, value_type) (pairs_of_list (map plain_pair parts.now)) (current_of maps.old) pairs after }
    ensures previous { previous_of maps.new ≡ previous_of maps.old }
{
    let mut pairs = Pairs::with_capacity(alloc, parts.len())?;
    for part in parts {
        let key = add_tree(alloc, model, maps, key_type, &part.0)?;
        let value = add_tree(alloc, model, maps, value_type, &part.1)?;
        pairs.push((key, value))?;
    }
    Ok(pairs)
}

// The index of the type of this name.
fn index_of(model: &Model, name: &Name) -> u32
    requires { IsSome (index_of_type model.now name.now) }
    ensures { index_of_type model.now name.now ≡ Some result }
{
    match model.index_of(name.text()) {
        Some(type_index) => type_index,
        None => unreachable!(),
    }
}

// The type that a REFERENCE refers to.
fn type_of(model: &Model, kind: &FieldKind) -> u32
    requires { IsSome (referred model.now kind.now) }
    ensures { referred model.now kind.now ≡ Some result }
{
    match kind {
        FieldKind::Reference(name) => index_of(model, name),
        _ => unreachable!(),
    }
}
