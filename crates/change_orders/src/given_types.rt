//! The types that a change names: each is one of the model, and has a primary key.
ghost use Rattle.std.specs.Prelude.{◌<◌, ◌↔◌, Contains, IfOk, IsTrue, length};
ghost use Rattle.serde_json.specs.View.{view};
ghost use Rattle.hol_incremental.specs.Roots.{IsKeyed};
ghost use Rattle.hol_orders.specs.Parts.{added, asked_change};
ghost use Rattle.hol_orders.specs.Shapes.{AreRecords};
ghost use Rattle.hollow_machine.specs.ChangeOrder.{IsGivenType};
ghost use Rattle.hollow_machine.specs.Records.{names_of};
ghost use Rattle.producer_orders.specs.Parts.{TellsUnknown};
ghost use Rattle.change_orders.specs.Given.{IsAnObject, RefusesUnkeyed, TellsGiven, TellsUnkeyed};

use hol_answers::Refusal;
use hol_orders::{Added, StateChange};
use hol_varint::Duplicate;
use producer_orders::{unknown_among, unknown_type};
use schema_model::{Model, Name, Shape};
use serde_json::Value;
use std::alloc::{AllocError, Global};

/// Why what a change names are no types with primary keys: the first name of records that is that of no type, then the first name of keys; and then, of the
/// types that either names, the first one in model order that is of another kind than records, or has no primary key. `None` exactly where all are.
pub(crate) fn why_not_types(
    alloc: Global,
    model: &Model,
    next: &StateChange,
) -> Result<Option<Refusal>, AllocError>
    requires put { AreRecords (added next.now.put) }
    requires remove { IsAnObject (view next.now.remove) }
    ensures { IfOk result (TellsGiven model.now (asked_change next.now)) }
{
    if let Some(name) = unknown_type(alloc, model, &next.put)? {
        return Ok(Some(Refusal::NoType(name)));
    }
    if let Some(name) = unknown_name(alloc, model, &next.remove)? {
        return Ok(Some(Refusal::NoType(name)));
    }
    match first_unkeyed(model, next) {
        Some(type_index) => Ok(Some(unkeyed_refusal(alloc, model, type_index)?)),
        None => Ok(None),
    }
}

// The first name of keys that is that of no type.
fn unknown_name(alloc: Global, model: &Model, given: &Value) -> Result<Option<Name>, AllocError>
    requires { IsAnObject (view given.now) }
    ensures { IfOk result (TellsUnknown model.now (view given.now)) }
{
    match given {
        Value::Object(members) => unknown_among(alloc, model, members),
        _ => unreachable!(),
    }
}

// The first type in model order that is named and has no primary key.
fn first_unkeyed(model: &Model, next: &StateChange) -> Option<u32>
    ensures { TellsUnkeyed model.now (asked_change next.now) result }
{
    for type_index in 0..model.len() {
        if is_given(model, next, type_index) && !is_keyed(model, type_index) {
            return Some(type_index);
        }
    }
    None
}

// Whether records or keys stand under the name of a type.
fn is_given(model: &Model, next: &StateChange, type_index: u32) -> bool
    requires { type_index < length model.now }
    ensures { IsTrue result ↔ IsGivenType model.now (asked_change next.now) type_index }
{
    let name = model.schema(type_index).name.text();
    has_name(&next.put, name) || next.remove.get(name).is_some()
}

// Whether records stand under a name.
fn has_name(given: &Added, name: &str) -> bool
    ensures { IsTrue result ↔ Contains (names_of (added given.now)) name.now }
{
    match given {
        Added::Json(json) => json.get(name).is_some(),
        Added::Line(line) => line.names().get(name).is_some(),
    }
}

// Whether a type has a primary key.
fn is_keyed(model: &Model, type_index: u32) -> bool
    requires { type_index < length model.now }
    ensures { IsTrue result ↔ IsKeyed model.now type_index }
{
    match &model.schema(type_index).shape {
        Shape::Object(key, _) => key.is_some(),
        _ => false,
    }
}

// Why the first type that has no primary key is refused.
fn unkeyed_refusal(alloc: Global, model: &Model, type_index: u32) -> Result<Refusal, AllocError>
    requires { type_index < length model.now }
    ensures { IfOk result (RefusesUnkeyed model.now type_index) }
{
    let schema = model.schema(type_index);
    match &schema.shape {
        Shape::Object(_, _) => Ok(Refusal::BadPath(Name::from_text(alloc, "")?)),
        _ => Ok(Refusal::WrongKind(schema.name.copy(alloc)?)),
    }
}
