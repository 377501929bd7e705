//! The fields of FLOAT and DOUBLE in a list of schemas in JSON.
ghost use Rattle.std.specs.Prelude.{◌≡◌, ◌↔◌, ℕ, IsTrue, IsSomeAnd};
ghost use Rattle.serde_json.specs.Data.{array};
ghost use Rattle.serde_json.specs.Find.{at};
ghost use Rattle.serde_json.specs.View.{view, items_view};
ghost use Rattle.json_values.specs.SchemasFrom.{HasFloat, HasFloatAt, HasFloatField, IsFloatField, TellsFloat};

use crate::schema_shape::{is_float_name, text_member};
use serde_json::Value;

/// The first type with a field of FLOAT or DOUBLE, by its index.
pub(crate) fn first_float(schemas: &[Value]) -> Option<usize>
    ensures { TellsFloat (array (items_view schemas.now)) result }
{
    for (type_index, schema) in schemas.iter().enumerate() {
        if has_float(schema) {
            return Some(type_index);
        }
    }
    None
}

fn has_float(schema: &Value) -> bool
    ensures { IsTrue result ↔ HasFloat (view schema.now) }
{
    match text_member(schema, "kind") {
        Some(kind) => kind == "OBJECT" && has_float_field(schema),
        None => false,
    }
}

fn has_float_field(schema: &Value) -> bool
    ensures { IsTrue result ↔ HasFloatField (view schema.now) }
{
    match schema.get("fields") {
        Some(fields) => is_float_among(fields),
        None => false,
    }
}

fn is_float_among(fields: &Value) -> bool
    ensures { IsTrue result ↔ ((place : ℕ) × IsSomeAnd (at place (view fields.now)) IsFloatField) }
{
    match fields {
        Value::Array(fields) => some_is_float(fields.as_slice()),
        _ => false,
    }
}

fn some_is_float(fields: &[Value]) -> bool
    ensures { IsTrue result ↔ ((place : ℕ) × IsSomeAnd (at place (array (items_view fields.now))) IsFloatField) }
{
    for field in fields {
        if is_float(field) {
            return true;
        }
    }
    false
}

fn is_float(field: &Value) -> bool
    ensures { IsTrue result ↔ IsFloatField (view field.now) }
{
    match text_member(field, "type") {
        Some(name) => is_float_name(name),
        None => false,
    }
}
