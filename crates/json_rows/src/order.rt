//! The fields of a type in byte order of their names.
ghost use Rattle.std.specs.Prelude.{IfOk};
ghost use Rattle.json_rows.specs.FieldOrder.{IsByteOrder};
ghost use Rattle.schema_model.specs.Parts.{fields_of};

use schema_model::{Field, Schema, Shape};
use std::alloc::{AllocError, Global};
use std::collections::BTreeMap;

/// The fields of a type in byte order of their names: each name, with the place of the field. Types of other kinds than
/// OBJECT have none. It fails only where memory is refused.
pub(crate) fn field_order(
    alloc: Global,
    schema: &Schema,
) -> Result<Vec<(String, usize)>, AllocError>
    ensures { IfOk result (λ order. IsByteOrder (fields_of schema.now) order.items) }
{
    match &schema.shape {
        Shape::Object(_, fields) => order_of(alloc, fields.as_slice()),
        Shape::List(_) | Shape::Set(_) | Shape::Map(_, _) => Ok(Vec::new(alloc)),
    }
}

// The fields in byte order of their names.
fn order_of(alloc: Global, fields: &[Field]) -> Result<Vec<(String, usize)>, AllocError>
    ensures { IfOk result (λ order. IsByteOrder fields.now order.items) }
{
    let mut by_name = BTreeMap::new(alloc);
    for (place, field) in fields.iter().enumerate() {
        by_name.insert(String::from_str(alloc, field.name.text())?, place)?;
    }
    by_name.into_iter().collect(alloc)
}
