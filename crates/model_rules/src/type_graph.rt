//! The rule of named types: each is there. The graph of the types that each type names, by their indexes.
ghost use Rattle.std.specs.Prelude.{◌≡◌, ◌≤◌, ◌++◌, ◌∷◌, ◌&&◌, [], length, is_some, IfOk, OnOk, IsTrue};
ghost use Rattle.std.specs.BTreeMap.{get_by_text};
ghost use Rattle.std.specs.List.{filter_map};
ghost use Rattle.schema_model.specs.NameIndex.{Indexes};
ghost use Rattle.model_rules.specs.RuleTests.{TellsRule, all_indexes, are_known};
ghost use Rattle.schema_model.specs.Model.{type_graph};
ghost use Rattle.schema_model.specs.Parts.{named_types, referenced_names, type_names};

use hol_varint::{List, Ordinals};
use schema_model::{
    Field, FieldKind, ModelFault, Name, NameIndex, Rule, Schema, Schemas, Shape, find_name,
};
use std::alloc::{AllocError, Global};

/// Adds the index of a named type to the row of a type. Whether there is such a type.
fn add_type(index: &NameIndex, name: &Name, row: &mut Ordinals) -> Result<bool, AllocError>
    ensures known { IfOk result (λ known. known ≡ is_some (get_by_text index.now name.now)) }
    ensures added { OnOk result (row.new ≡ row.old ++ filter_map (get_by_text index.now) (name.now ∷ [])) }
{
    match find_name(index, name.text()) {
        Some(type_index) => {
            row.push(type_index)?;
            Ok(true)
        }
        None => Ok(false),
    }
}

/// Adds the index of the type that a field refers to, if it does. Whether there is such a type.
fn add_field_type(index: &NameIndex, field: &Field, row: &mut Ordinals) -> Result<bool, AllocError>
    ensures known { IfOk result (λ known. known ≡ are_known (get_by_text index.now) (referenced_names (field.now ∷ []))) }
    ensures added { OnOk result (row.new ≡ row.old ++ filter_map (get_by_text index.now) (referenced_names (field.now ∷ []))) }
{
    match &field.kind {
        FieldKind::Reference(name) => add_type(index, name, row),
        _ => Ok(true),
    }
}

/// Adds the indexes of the types that fields refer to. Whether there are all these types.
fn add_field_types(
    index: &NameIndex,
    fields: &[Field],
    row: &mut Ordinals,
) -> Result<bool, AllocError>
    ensures known { IfOk result (λ known. known ≡ are_known (get_by_text index.now) (referenced_names fields.now)) }
    ensures added { IfOk result (λ known. IsTrue known → row.new ≡ row.old ++ filter_map (get_by_text index.now) (referenced_names fields.now)) }
{
    for field in fields {
        if !add_field_type(index, field, row)? {
            return Ok(false);
        }
    }
    Ok(true)
}

/// The indexes of the types that a type names, unless one of them is not there.
fn named_indexes_of(
    alloc: Global,
    index: &NameIndex,
    schema: &Schema,
) -> Result<Option<Ordinals>, AllocError>
    ensures { IfOk result (λ row. row ≡ all_indexes (get_by_text index.now) (named_types schema.now)) }
{
    let mut row = Ordinals::new(alloc);
    let known = match &schema.shape {
        Shape::Object(_, fields) => add_field_types(index, fields.as_slice(), &mut row)?,
        Shape::Set(element) => add_type(index, element, &mut row)?,
        Shape::List(element) => add_type(index, element, &mut row)?,
        Shape::Map(key, value) => {
            let known = add_type(index, key, &mut row)?;
            add_type(index, value, &mut row)? && known
        }
    };
    if known { Ok(Some(row)) } else { Ok(None) }
}

/// Tries that each named type is there, and gives the graph of the types that each type names.
pub(crate) fn check_named_types(
    alloc: Global,
    schemas: &Schemas,
    index: &NameIndex,
) -> Result<List<Ordinals>, ModelFault>
    requires indexed { Indexes (type_names schemas.now) index.now }
    requires short { length schemas.now ≤ 512 }
    ensures tells { TellsRule schemas.now Rule.UnknownType result }
    ensures graph { IfOk result (λ graph. graph ≡ type_graph schemas.now) }
{
    let mut graph = List::with_capacity(alloc, schemas.len())?;
    for type_index in 0..schemas.len() {
        match named_indexes_of(alloc, index, schemas.get(type_index))? {
            Some(row) => graph.push(row)?,
            None => return Err(ModelFault::Broken(Rule::UnknownType, type_index as u32)),
        }
    }
    Ok(graph)
}
