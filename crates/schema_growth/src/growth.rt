//! When a model grows another one.
ghost use Rattle.std.specs.Prelude.{◌↔◌, IsSomeAnd, IsTrue, MatchOption, slice_get};
ghost use Rattle.schema_model.specs.Growth.{AreInFront, Grows, GrowsShape, GrowsType, IsNotGrown};

use crate::same::{same_fields, same_key, same_name, same_shape};
use schema_model::{Field, Model, Schema, Shape};

/// The first type of a model that another one does not have at the same index, as it was or grown. None where the other model grows this one: it has all of
/// its types, and perhaps more behind them, and an OBJECT type perhaps more fields behind those that it had.
pub fn grows(model: &Model, grown: &Model) -> Option<u32>
    ensures { MatchOption result (Grows model.now grown.now) (IsNotGrown model.now grown.now) }
{
    for type_index in 0..model.len() {
        if !has_grown(model.schema(type_index), grown, type_index) {
            return Some(type_index);
        }
    }
    None
}

// Whether a model has this type at an index, as it was or grown.
fn has_grown(schema: &Schema, grown: &Model, type_index: u32) -> bool
    ensures { IsTrue result ↔ IsSomeAnd (slice_get grown.now type_index) (GrowsType schema.now) }
{
    type_index < grown.len() && grows_type(schema, grown.schema(type_index))
}

// Whether a type is another one, as it was or grown.
fn grows_type(schema: &Schema, grown: &Schema) -> bool
    ensures { IsTrue result ↔ GrowsType schema.now grown.now }
{
    same_name(&grown.name, &schema.name) && grows_shape(&schema.shape, &grown.shape)
}

// Whether a shape is another one, as it was or with more fields.
fn grows_shape(shape: &Shape, grown: &Shape) -> bool
    ensures { IsTrue result ↔ GrowsShape shape.now grown.now }
{
    match (shape, grown) {
        (Shape::Object(key, fields), Shape::Object(grown_key, more)) => {
            same_key(grown_key, key) && are_in_front(fields.as_slice(), more.as_slice())
        }
        (shape, grown) => same_shape(grown, shape),
    }
}

// Whether these fields stand in front of the others.
fn are_in_front(fields: &[Field], grown: &[Field]) -> bool
    ensures { IsTrue result ↔ AreInFront fields.now grown.now }
{
    fields.len() <= grown.len() && same_fields(fields, &grown[..fields.len()])
}
