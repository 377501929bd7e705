//! When two schemas of one name agree.
ghost use Rattle.std.specs.Prelude.{◌↔◌, All, IsTrue};
ghost use Rattle.schema_model.specs.Growth.{Agree, IsOneKind, KindsAgree};
ghost use Rattle.schema_model.specs.Parts.{AreApart, fields_of};

use crate::same::{same_key, same_kind, same_name, same_shape};
use schema_model::{Field, Schema, Shape};

/// Whether two schemas of one name agree: they have the same kind and name the same types, and records have the same primary key, or both none, and one kind
/// for each field name that both have. Each field is compared with all those of the other schema.
pub fn agree(schema: &Schema, other: &Schema) -> bool
    ensures { IsTrue result ↔ Agree schema.now other.now }
{
    match (&schema.shape, &other.shape) {
        (Shape::Object(key, fields), Shape::Object(other_key, others)) => {
            let others = others.as_slice();
            same_key(key, other_key)
                && fields
                    .as_slice()
                    .iter()
                    .all(|field| is_of_kind(field, others))
        }
        (shape, other) => same_shape(shape, other),
    }
}

/// Whether two schemas of one name agree, where no two fields of the other one have one name. A field is sought at its own place first, so that the time grows
/// with the number of fields where those that both have stand at the same places.
pub fn agree_by_place(schema: &Schema, other: &Schema) -> bool
    requires { AreApart (fields_of other.now) }
    ensures { IsTrue result ↔ Agree schema.now other.now }
{
    match (&schema.shape, &other.shape) {
        (Shape::Object(key, fields), Shape::Object(other_key, others)) => {
            same_key(key, other_key) && kinds_agree(fields.as_slice(), others.as_slice())
        }
        (shape, other) => same_shape(shape, other),
    }
}

// Whether fields of one name are of one kind.
fn kinds_agree(fields: &[Field], others: &[Field]) -> bool
    requires { AreApart others.now }
    ensures { IsTrue result ↔ KindsAgree fields.now others.now }
{
    for (place, field) in fields.iter().enumerate() {
        if !kind_agrees(field, others, place) {
            return false;
        }
    }
    true
}

// Whether each field of this one's name is of its kind. One may stand at this place, and no other one has its name.
fn kind_agrees(field: &Field, others: &[Field], place: usize) -> bool
    requires { AreApart others.now }
    ensures { IsTrue result ↔ All (IsOneKind field.now) others.now }
{
    if place < others.len() && same_name(&field.name, &others[place].name) {
        return same_kind(&field.kind, &others[place].kind);
    }
    is_of_kind(field, others)
}

// Whether each field of this one's name is of its kind.
fn is_of_kind(field: &Field, others: &[Field]) -> bool
    ensures { IsTrue result ↔ All (IsOneKind field.now) others.now }
{
    others.iter().all(|other| is_one_kind(field, other))
}

// Whether the fields are of one kind, if they have one name.
fn is_one_kind(field: &Field, other: &Field) -> bool
    ensures { IsTrue result ↔ IsOneKind field.now other.now }
{
    !same_name(&field.name, &other.name) || same_kind(&field.kind, &other.kind)
}
