//! That no name of a delta's types, and none of a field within a type, stands twice.
ghost use Rattle.std.specs.Prelude.{◌≡◌, ◌↔◌, ◌<◌, All, Contains, IfErr, IfOk, IfSome, IsTrue, OnOk, Some, slice_get};
ghost use Rattle.schema_model.specs.Faults.{TellsFault};
ghost use Rattle.schema_model.specs.Model.{rule_place};
ghost use Rattle.blob_cursor.specs.Scene.{IsFree};
ghost use Rattle.blob_faults.specs.Judge.{Blames};
ghost use Rattle.delta_blob.specs.OfModel.{AreSpelled, HasFewFields, IsTypesFault, names_in};
ghost use Rattle.delta_blob.specs.Patch.{NamesOnce, schemas_in};

use crate::part::DeltaPart;
use blob_frame::BlobFault;
use hol_varint::{Duplicate, Ordinals};
use model_rules::model_of;
use schema_growth::same_schema;
use schema_model::{Model, ModelFault, Reason, Rule, Schema, Schemas};
use std::alloc::{AllocError, Global};

/// Tries the names of the types and of their fields, where there are few enough types and fields and no name is too long, as in a blob.
///
/// `Bad` with `BadSchema` names the first type whose name stands earlier or that has a field twice. Where each type is one of the model, with its schema,
/// only that there are no two of one is tried.
pub(crate) fn check_names(
    alloc: Global,
    parts: &[DeltaPart],
    model: &Model,
) -> Result<(), BlobFault>
    ensures once { OnOk result (NamesOnce parts.now) }
    ensures few { OnOk result (All HasFewFields parts.now) }
    ensures blames { AreSpelled parts.now → IfErr result (Blames (names_in parts.now) IsFree) }
    ensures kind { IfErr result IsTypesFault }
{
    if are_own(alloc, parts, model)? {
        return Ok(());
    }
    check_all(alloc, parts)
}

// Whether each type is one of the model, with its schema, and there are no two of one: then no name stands twice.
fn are_own(alloc: Global, parts: &[DeltaPart], model: &Model) -> Result<bool, AllocError>
    ensures once { IfOk result (λ own. IsTrue own → NamesOnce parts.now) }
    ensures few { IfOk result (λ own. IsTrue own → All HasFewFields parts.now) }
{
    let mut taken = Ordinals::with_capacity(alloc, model.len() as usize)?;
    for part in parts {
        let Some(type_index) = own_index(model, &part.schema, taken.as_slice()) else {
            return Ok(false);
        };
        taken.push(type_index)?;
    }
    Ok(true)
}

// The index of the type of a model that has this schema, unless it was taken.
fn own_index(model: &Model, schema: &Schema, taken: &[u32]) -> Option<u32>
    ensures { IfSome result (λ index. (slice_get model.now index ≡ Some schema.now) × (Contains taken.now index → ⊥)) }
{
    let type_index = model.index_of(schema.name.text())?;
    if same_schema(model.schema(type_index), schema) && !has_number(taken, type_index) {
        Some(type_index)
    } else {
        None
    }
}

// Whether a number is among others.
fn has_number(numbers: &[u32], number: u32) -> bool
    ensures { IsTrue result ↔ Contains numbers.now number }
{
    numbers.contains(&number)
}

// Tries the names by the rules of models. Where an earlier rule is broken, as in no blob, the names are not known to stand once.
fn check_all(alloc: Global, parts: &[DeltaPart]) -> Result<(), BlobFault>
    ensures once { OnOk result (NamesOnce parts.now) }
    ensures few { OnOk result (All HasFewFields parts.now) }
    ensures blames { AreSpelled parts.now → IfErr result (Blames (names_in parts.now) IsFree) }
    ensures kind { IfErr result IsTypesFault }
{
    let mut schemas = Schemas::new(alloc);
    for part in parts {
        schemas.push(part.schema.copy(alloc)?)?;
    }
    match model_of(alloc, schemas) {
        Ok(_) => Ok(()),
        Err(fault) => names_fault(parts, fault),
    }
}

// What a fault of the model of all schemas says of their names. The rules behind that of names are not those of a delta.
fn names_fault(parts: &[DeltaPart], fault: ModelFault) -> Result<(), BlobFault>
    requires { TellsFault (schemas_in parts.now) fault }
    ensures once { OnOk result (NamesOnce parts.now) }
    ensures few { OnOk result (All HasFewFields parts.now) }
    ensures blames { AreSpelled parts.now → IfErr result (Blames (names_in parts.now) IsFree) }
    ensures kind { IfErr result IsTypesFault }
{
    match fault {
        ModelFault::Broken(rule, type_index) => {
            if is_behind_names(rule) {
                return Ok(());
            }
            let at = parts[type_index as usize].at;
            Err(BlobFault::Bad(at, Reason::BadSchema))
        }
        ModelFault::Memory => Err(BlobFault::Memory),
    }
}

// Whether a rule is tried behind that of names.
fn is_behind_names(rule: Rule) -> bool
    ensures { IsTrue result ↔ (rule_place Rule.DuplicateName < rule_place rule) }
{
    match rule {
        Rule::TooMany => false,
        Rule::LongName => false,
        Rule::DuplicateName => false,
        _ => true,
    }
}
