//! When two schemas are the same.
ghost use Rattle.std.specs.Prelude.{◌≡◌, ◌↔◌, IsTrue};

use schema_model::{Field, FieldKind, Name, Names, Schema, Shape};

/// Whether two schemas are the same.
pub fn same_schema(schema: &Schema, other: &Schema) -> bool
    ensures { IsTrue result ↔ (schema.now ≡ other.now) }
{
    same_name(&schema.name, &other.name) && same_shape(&schema.shape, &other.shape)
}

/// Whether two names are the same.
pub(crate) fn same_name(name: &Name, other: &Name) -> bool
    ensures { IsTrue result ↔ (name.now ≡ other.now) }
{
    name.text() == other.text()
}

/// Whether two shapes are the same.
pub(crate) fn same_shape(shape: &Shape, other: &Shape) -> bool
    ensures { IsTrue result ↔ (shape.now ≡ other.now) }
{
    match (shape, other) {
        (Shape::Object(key, fields), Shape::Object(other_key, others)) => {
            same_key(key, other_key) && same_fields(fields.as_slice(), others.as_slice())
        }
        (Shape::Set(element), Shape::Set(another)) => same_name(element, another),
        (Shape::List(element), Shape::List(another)) => same_name(element, another),
        (Shape::Map(key, value), Shape::Map(other_key, other_value)) => {
            same_name(key, other_key) && same_name(value, other_value)
        }
        _ => false,
    }
}

/// Whether two primary keys are the same.
pub(crate) fn same_key(key: &Option<Names>, other: &Option<Names>) -> bool
    ensures { IsTrue result ↔ (key.now ≡ other.now) }
{
    match (key, other) {
        (Some(paths), Some(others)) => same_names(paths.as_slice(), others.as_slice()),
        (None, None) => true,
        _ => false,
    }
}

// Whether they are as many names, and the same one by one.
fn same_names(names: &[Name], others: &[Name]) -> bool
    ensures { IsTrue result ↔ (names.now ≡ others.now) }
{
    if names.len() != others.len() {
        return false;
    }
    for (place, name) in names.iter().enumerate() {
        if !same_name(name, &others[place]) {
            return false;
        }
    }
    true
}

/// Whether they are as many fields, and the same one by one.
pub(crate) fn same_fields(fields: &[Field], others: &[Field]) -> bool
    ensures { IsTrue result ↔ (fields.now ≡ others.now) }
{
    if fields.len() != others.len() {
        return false;
    }
    for (place, field) in fields.iter().enumerate() {
        if !same_field(field, &others[place]) {
            return false;
        }
    }
    true
}

// Whether two fields are the same.
fn same_field(field: &Field, other: &Field) -> bool
    ensures { IsTrue result ↔ (field.now ≡ other.now) }
{
    same_name(&field.name, &other.name) && same_kind(&field.kind, &other.kind)
}

/// Whether two fields hold the same.
pub(crate) fn same_kind(kind: &FieldKind, other: &FieldKind) -> bool
    ensures { IsTrue result ↔ (kind.now ≡ other.now) }
{
    match (kind, other) {
        (FieldKind::Reference(name), FieldKind::Reference(another)) => same_name(name, another),
        (FieldKind::Int, FieldKind::Int) => true,
        (FieldKind::Long, FieldKind::Long) => true,
        (FieldKind::Boolean, FieldKind::Boolean) => true,
        (FieldKind::Text, FieldKind::Text) => true,
        (FieldKind::Bytes, FieldKind::Bytes) => true,
        _ => false,
    }
}
