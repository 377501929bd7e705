//! The rules of sizes and of repeated names.
ghost use Rattle.std.specs.Prelude.{◌≡◌, ◌<◌, ◌≤◌, ◌↔◌, ℕ, List, length, Some, IfOk, OnOk, IsTrue, SomeIndex, slice_index_or, []};
ghost use Rattle.schema_model.specs.NameIndex.{Indexes};
ghost use Rattle.model_rules.specs.RuleTests.{TellsRule};
ghost use Rattle.schema_model.specs.Model.{BreaksAt, IsKept, StandsEarlier};
ghost use Rattle.schema_model.specs.Parts.{field_names, type_names};

use crate::name_index::add_name;
use schema_model::{Field, MAX_FIELDS, MAX_TYPES, ModelFault, NameIndex, Rule, Schemas, find_name};
use std::alloc::{AllocError, Global};
use std::collections::BTreeMap;

/// Whether a type is past the greatest number of types, or has too many fields.
fn is_too_many(schemas: &Schemas, type_index: usize) -> bool
    requires { type_index < length schemas.now }
    ensures { IsTrue result ↔ BreaksAt schemas.now Rule.TooMany type_index }
{
    let fields = schemas.get(type_index).shape.fields();
    type_index >= MAX_TYPES as usize || fields.len() > usize::from(MAX_FIELDS)
}

/// Tries the numbers of types and of fields.
pub(crate) fn check_sizes(schemas: &Schemas) -> Result<(), ModelFault>
    ensures tells { TellsRule schemas.now Rule.TooMany result }
    ensures few { OnOk result (length schemas.now ≤ 512) }
{
    for type_index in 0..schemas.len() {
        if is_too_many(schemas, type_index) {
            return Err(ModelFault::Broken(Rule::TooMany, type_index as u32));
        }
    }
    Ok(())
}

/// Whether the name at an index stands earlier in an indexed list.
fn stands_earlier(index: &NameIndex, name: &str, type_index: usize) -> bool
    ensures { (names : List (List ℕ)) → Indexes names index.now → type_index < length names → slice_index_or names type_index [] ≡ name.now → (IsTrue result ↔ StandsEarlier names type_index) }
{
    match find_name(index, name) {
        Some(first) => (first as usize) < type_index,
        None => false,
    }
}

/// Whether the name of a field stands twice.
fn has_repeated_field(alloc: Global, fields: &[Field]) -> Result<bool, AllocError>
    requires { length fields.now ≤ 1024 }
    ensures { IfOk result (λ repeated. IsTrue repeated ↔ SomeIndex (field_names fields.now) (StandsEarlier (field_names fields.now))) }
{
    let mut index = BTreeMap::new(alloc);
    for (place, field) in fields.iter().enumerate() {
        if !add_name(alloc, &mut index, field.name.text(), place as u32)? {
            return Ok(true);
        }
    }
    Ok(false)
}

/// Whether the name of a type stands earlier, or the name of a field within it.
fn has_repeated_name(
    alloc: Global,
    schemas: &Schemas,
    index: &NameIndex,
    type_index: usize,
) -> Result<bool, AllocError>
    requires inside { type_index < length schemas.now }
    requires indexed { Indexes (type_names schemas.now) index.now }
    requires few { IsKept schemas.now Rule.TooMany }
    ensures { IfOk result (λ repeated. IsTrue repeated ↔ BreaksAt schemas.now Rule.DuplicateName type_index) }
{
    let schema = schemas.get(type_index);
    if stands_earlier(index, schema.name.text(), type_index) {
        return Ok(true);
    }
    has_repeated_field(alloc, schema.shape.fields())
}

/// Tries the names of types and of fields, which stand once.
pub(crate) fn check_names(
    alloc: Global,
    schemas: &Schemas,
    index: &NameIndex,
) -> Result<(), ModelFault>
    requires indexed { Indexes (type_names schemas.now) index.now }
    requires few { IsKept schemas.now Rule.TooMany }
    requires short { length schemas.now ≤ 512 }
    ensures { TellsRule schemas.now Rule.DuplicateName result }
{
    for type_index in 0..schemas.len() {
        if has_repeated_name(alloc, schemas, index, type_index)? {
            return Err(ModelFault::Broken(Rule::DuplicateName, type_index as u32));
        }
    }
    Ok(())
}
