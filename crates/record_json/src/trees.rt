//! Records with all that they refer to, from their JSON.
ghost use Rattle.std.specs.Prelude.{◌≡◌, ◌<◌, Some, None, Ok, length, option_map};
ghost use Rattle.serde_json.specs.View.{view, items_view, members_view};
ghost use Rattle.row_model.specs.PlainTree.{leaf};
ghost use Rattle.record_trees.specs.Tree.{plain, plain_pair, plain_pairs, plain_trees};
ghost use Rattle.record_json.specs.ReadTree.{TellsAs, read_field, read_fields, read_named, read_both, read_pair, read_tree, read_within};
ghost use Rattle.json_values.specs.ReadValue.{read_each, read_kind};

use crate::tree_parts::{list_of, map_of, object_of, pair_of, set_of};
use crate::tree_values::{are_all_fields, value_tree};
use json_values::ValueFault;
use record_trees::{Tree, TreePairs, Trees};
use schema_model::{Field, FieldKind, MAX_DEPTH, Model, Name, Reason, Shape};
use serde_json::Value;
use std::alloc::Global;

/// The record of a type with all that it refers to. `Field` where the JSON value gives none, with the first reason:
/// `OtherKind` where a part is of another kind of JSON than its type asks for, or a pair of a map has not two items;
/// `UnknownField` where an object has a member that is no field, which is tried before its fields; `NullRecord` where the
/// record itself, an element, a key or a value of a map is null; `SameKeys` where two keys of a map are the same record,
/// which is tried once all its pairs are read; and those of `value_from` for a field that is a value. Fields are read in
/// the order of the schema, a missing one as null, elements and pairs in their order, a key before its value.
pub fn tree_from(
    alloc: Global,
    model: &Model,
    type_index: u32,
    value: &Value,
) -> Result<Tree, ValueFault>
    requires { type_index < length model.now }
    ensures { TellsAs plain (read_tree model.now type_index (view value.now)) result }
{
    tree_within(alloc, model, MAX_DEPTH, type_index, value)
}

// The record of a type that is no deeper than so many types.
#[cycle(reading)]
fn tree_within(
    alloc: Global,
    model: &Model,
    depth: u32,
    type_index: u32,
    value: &Value,
) -> Result<Tree, ValueFault>
    requires { type_index < length model.now }
    ensures { TellsAs plain (read_within model.now depth type_index (view value.now)) result }
{
    if depth == 0 {
        return Err(ValueFault::Field(Reason::OtherKind));
    }
    let below = depth - 1;
    match (&model.schema(type_index).shape, value) {
        (_, Value::Null) => Err(ValueFault::Field(Reason::NullRecord)),
        (Shape::Object(_, fields), Value::Object(members)) => {
            if !are_all_fields(fields.as_slice(), members) {
                return Err(ValueFault::Field(Reason::UnknownField));
            }
            object_of(fields_from(alloc, model, below, fields.as_slice(), value))
        }
        (Shape::List(element), Value::Array(items)) => list_of(elements_from(
            alloc,
            model,
            below,
            element,
            items.as_slice(),
        )),
        (Shape::Set(element), Value::Array(items)) => set_of(elements_from(
            alloc,
            model,
            below,
            element,
            items.as_slice(),
        )),
        (Shape::Map(key, part), Value::Array(items)) => map_of(pairs_from(
            alloc,
            model,
            below,
            key,
            part,
            items.as_slice(),
        )),
        _ => Err(ValueFault::Field(Reason::OtherKind)),
    }
}

// The record of the type of this name.
#[cycle(reading)]
fn named_from(
    alloc: Global,
    model: &Model,
    depth: u32,
    name: &Name,
    value: &Value,
) -> Result<Tree, ValueFault>
    ensures { TellsAs plain (read_named model.now depth name.now (view value.now)) result }
{
    match model.index_of(name.text()) {
        Some(type_index) => tree_within(alloc, model, depth, type_index, value),
        None => Err(ValueFault::Field(Reason::OtherKind)),
    }
}

// The trees in the fields of a record, in the order of the schema.
#[cycle(reading)]
fn fields_from(
    alloc: Global,
    model: &Model,
    depth: u32,
    fields: &[Field],
    value: &Value,
) -> Result<Trees, ValueFault>
    ensures { TellsAs plain_trees (read_fields (read_named model.now depth) fields.now (view value.now)) result }
{
    let mut trees = Trees::new(alloc);
    for field in fields {
        let part = value.get(field.name.text());
        trees.push(field_from(alloc, model, depth, &field.kind, part)?)?;
    }
    Ok(trees)
}

// The tree in a field. A member that is missing is null.
#[cycle(reading)]
fn field_from(
    alloc: Global,
    model: &Model,
    depth: u32,
    kind: &FieldKind,
    value: Option<&Value>,
) -> Result<Tree, ValueFault>
    ensures { TellsAs plain (read_field (read_named model.now depth) kind.now (option_map (λ v. view v.now) value.entry)) result }
{
    match (kind, value) {
        (_, None) => Ok(Tree::Null),
        (FieldKind::Reference(_), Some(Value::Null)) => Ok(Tree::Null),
        (FieldKind::Reference(name), Some(value)) => named_from(alloc, model, depth, name, value),
        (kind, Some(value)) => value_tree(alloc, kind, value),
    }
}

// The elements of a list or a set.
#[cycle(reading)]
fn elements_from(
    alloc: Global,
    model: &Model,
    depth: u32,
    element: &Name,
    items: &[Value],
) -> Result<Trees, ValueFault>
    ensures { TellsAs plain_trees (read_each (read_named model.now depth element.now) (items_view items.now)) result }
{
    let mut trees = Trees::new(alloc);
    for item in items {
        trees.push(named_from(alloc, model, depth, element, item)?)?;
    }
    Ok(trees)
}

// The pairs of a map.
#[cycle(reading)]
fn pairs_from(
    alloc: Global,
    model: &Model,
    depth: u32,
    key: &Name,
    part: &Name,
    items: &[Value],
) -> Result<TreePairs, ValueFault>
    ensures { TellsAs plain_pairs (read_each (read_pair (read_named model.now depth key.now) (read_named model.now depth part.now)) (items_view items.now)) result }
{
    let mut pairs = TreePairs::new(alloc);
    for item in items {
        pairs.push(pair_from(alloc, model, depth, key, part, item)?)?;
    }
    Ok(pairs)
}

// A key of a map and its value.
#[cycle(reading)]
fn pair_from(
    alloc: Global,
    model: &Model,
    depth: u32,
    key: &Name,
    part: &Name,
    item: &Value,
) -> Result<(Tree, Tree), ValueFault>
    ensures { TellsAs plain_pair (read_pair (read_named model.now depth key.now) (read_named model.now depth part.now) (view item.now)) result }
{
    match item {
        Value::Array(both) => both_from(alloc, model, depth, key, part, both.as_slice()),
        _ => Err(ValueFault::Field(Reason::OtherKind)),
    }
}

// A key of a map and its value, from the items of an array, of which there are to be two.
#[cycle(reading)]
fn both_from(
    alloc: Global,
    model: &Model,
    depth: u32,
    key: &Name,
    part: &Name,
    both: &[Value],
) -> Result<(Tree, Tree), ValueFault>
    ensures { TellsAs plain_pair (read_both (read_named model.now depth key.now) (read_named model.now depth part.now) (items_view both.now)) result }
{
    if both.len() != 2 {
        return Err(ValueFault::Field(Reason::OtherKind));
    }
    match named_from(alloc, model, depth, key, &both[0]) {
        Err(fault) => Err(fault),
        Ok(first) => pair_of(first, named_from(alloc, model, depth, part, &both[1])),
    }
}
