//! Which JSON values are lists of schemas.
ghost use Rattle.std.specs.Prelude.{◌≡◌, ◌↔◌, ℕ, List, Option, IsTrue, option_map, codes};
ghost use Rattle.serde_json.specs.View.{view};
ghost use Rattle.closed_rows.specs.Dangling.{IsPlain};
ghost use Rattle.schema_model.specs.declared.schema.name.Name.{Name};
ghost use Rattle.schema_model.specs.declared.schema.Field.{Field};
ghost use Rattle.schema_model.specs.declared.schema.FieldKind.{FieldKind};
ghost use Rattle.schema_model.specs.declared.schema.Schema.{Schema};
ghost use Rattle.schema_model.specs.declared.schema.Shape.{Shape};
ghost use Rattle.json_values.specs.SchemaJson.{AreSchemas, HasKey, HasParts, HasTarget, HasText, IsArrayOf, IsField, IsFloatName, IsKindOrFloat, IsSchema, IsText, TellsKind, TellsText, member_count as count_of, shape_name};

use crate::json_form::{JsonForm, each_is_form};
use crate::schema_from::{field_from, schema_from};
use schema_model::{Field, FieldKind, Name, Schema};
use serde_json::Value;
use std::alloc::{AllocError, Global};

/// Whether a value is a list of schemas in JSON: an array of objects, each with just the members that its kind asks for.
/// The types of fields are REFERENCE, INT, LONG, BOOLEAN, STRING, BYTES, and FLOAT and DOUBLE too, which no model has.
pub fn are_schemas(value: &Value) -> bool
    ensures { IsTrue result ↔ AreSchemas (view value.now) }
{
    match value {
        Value::Array(schemas) => each_is_form::<Schema>(schemas.as_slice()),
        _ => false,
    }
}

impl JsonForm for Schema {
    ghost use Rattle.json_values.specs.SchemaJson.{IsSchema, IsKindOrFloat};

    ghost stands = { IsSchema IsKindOrFloat };

    fn is_form(value: &Value) -> bool {
        is_schema(value)
    }

    fn from_form(alloc: Global, value: &Value) -> Result<Schema, AllocError> {
        schema_from(alloc, value)
    }
}

impl JsonForm for Field {
    ghost use Rattle.json_values.specs.SchemaJson.{IsField, IsKindOrFloat};

    ghost stands = { IsField IsKindOrFloat };

    fn is_form(value: &Value) -> bool {
        is_field(value)
    }

    fn from_form(alloc: Global, value: &Value) -> Result<Field, AllocError> {
        field_from(alloc, value)
    }
}

fn is_schema(value: &Value) -> bool
    ensures { IsTrue result ↔ ((schema : Schema) × IsSchema IsKindOrFloat (view value.now) schema) }
{
    match (text_member(value, "name"), text_member(value, "kind")) {
        (Some(_), Some(kind)) => has_parts(value, kind),
        _ => false,
    }
}

// Whether a value has what a kind of schema asks for.
fn has_parts(value: &Value, kind: &str) -> bool
    ensures { IsTrue result ↔ ((shape : Shape) × (kind.now ≡ shape_name shape) × HasParts IsKindOrFloat (view value.now) shape) }
{
    if kind == "OBJECT" {
        has_fields(value)
    } else if kind == "SET" || kind == "LIST" {
        has_element(value)
    } else if kind == "MAP" {
        has_key_and_value(value)
    } else {
        false
    }
}

fn has_element(value: &Value) -> bool
    ensures { IsTrue result ↔ ((element : Name) × HasText (view value.now) (codes "element") element × (count_of (view value.now) ≡ 3)) }
{
    text_member(value, "element").is_some() && member_count(value) == 3
}

fn has_key_and_value(value: &Value) -> bool
    ensures { IsTrue result ↔ ((key : Name) × (element : Name) × HasParts IsKindOrFloat (view value.now) (Shape.Map key element)) }
{
    text_member(value, "key").is_some()
        && text_member(value, "value").is_some()
        && member_count(value) == 4
}

// Whether a value has the fields of an OBJECT, with or without a primary key.
fn has_fields(value: &Value) -> bool
    ensures { IsTrue result ↔ ((key : Option (List Name)) × (fields : List Field) × HasParts IsKindOrFloat (view value.now) (Shape.Object key fields)) }
{
    match value.get("fields") {
        Some(Value::Array(fields)) => each_is_form::<Field>(fields.as_slice()) && has_key(value),
        _ => false,
    }
}

fn has_key(value: &Value) -> bool
    ensures { IsTrue result ↔ ((key : Option (List Name)) × HasKey (view value.now) key) }
{
    match value.get("key") {
        None => member_count(value) == 3,
        Some(paths) => are_paths(value, paths),
    }
}

// Whether these are the paths of a primary key, and an object has just one member for them.
fn are_paths(value: &Value, paths: &Value) -> bool
    ensures { IsTrue result ↔ ((texts : List Name) × IsArrayOf IsText (view paths.now) texts × (count_of (view value.now) ≡ 4)) }
{
    match paths {
        Value::Array(paths) => {
            each_is_form::<Name>(paths.as_slice()) && member_count(value) == 4
        }
        _ => false,
    }
}

fn is_field(value: &Value) -> bool
    ensures { IsTrue result ↔ ((field : Field) × IsField IsKindOrFloat (view value.now) field) }
{
    match (text_member(value, "name"), text_member(value, "type")) {
        (Some(_), Some(kind)) => has_target(value, kind),
        _ => false,
    }
}

// Whether a text names a field's kind, and the value has the type that a REFERENCE refers to, and no other field does.
fn has_target(value: &Value, kind: &str) -> bool
    ensures { IsTrue result ↔ ((named : FieldKind) × IsKindOrFloat named kind.now × HasTarget (view value.now) named) }
{
    if kind == "REFERENCE" {
        refers(value)
    } else {
        is_plain(value, kind)
    }
}

fn is_plain(value: &Value, kind: &str) -> bool
    ensures { IsTrue result ↔ ((named : FieldKind) × IsPlain named × IsKindOrFloat named kind.now × (count_of (view value.now) ≡ 2)) }
{
    plain_kind(kind).is_some() && member_count(value) == 2
}

fn refers(value: &Value) -> bool
    ensures { IsTrue result ↔ ((to : Name) × HasTarget (view value.now) (FieldKind.Reference to)) }
{
    text_member(value, "to").is_some() && member_count(value) == 3
}

/// The kind of fields without a reference that a text names; FLOAT and DOUBLE are taken as BOOLEAN.
pub(crate) fn plain_kind(name: &str) -> Option<FieldKind>
    ensures { TellsKind name.now result }
{
    if name == "INT" {
        Some(FieldKind::Int)
    } else if name == "LONG" {
        Some(FieldKind::Long)
    } else if name == "STRING" {
        Some(FieldKind::Text)
    } else if name == "BYTES" {
        Some(FieldKind::Bytes)
    } else if name == "BOOLEAN" || is_float_name(name) {
        Some(FieldKind::Boolean)
    } else {
        None
    }
}

/// Whether a text names a type of fields that no model has.
pub(crate) fn is_float_name(name: &str) -> bool
    ensures { IsTrue result ↔ IsFloatName name.now }
{
    name == "FLOAT" || name == "DOUBLE"
}

/// The text that is the member of this name.
pub(crate) fn text_member<'a>(value: &'a Value, name: &str) -> Option<&'a str>
    ensures { TellsText (view value.now) name.now (option_map (λ text. text.now) result) }
{
    match value.get(name) {
        Some(Value::String(text)) => Some(text.as_str()),
        _ => None,
    }
}

// How many members an object has; the other values have none.
fn member_count(value: &Value) -> usize
    ensures { result ≡ count_of (view value.now) }
{
    match value.as_object() {
        Some(members) => members.len(),
        None => 0,
    }
}
