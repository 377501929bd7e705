//! Closedness: each ordinal that a row names is live.
ghost use Rattle.std.specs.Prelude.{◌≡◌, ◌<◌, ◌↔◌, ◌&&◌, IfOk, IsSomeAnd, IsTrue, length, slice_get, zip};
ghost use Rattle.std.specs.List.{list_all};
ghost use Rattle.row_model.specs.Row.{references_of_row, references_of_value};
ghost use Rattle.closed_rows.specs.Dangling.{IsClosedAt, IsPlain, IsPlainType, TellsType, are_live, is_live_reference};

use row_model::{Row, Rows, Value};
use schema_model::{Field, FieldKind, Name, Shape};
use std::alloc::{AllocError, Global};

/// A row that names an ordinal that is not live.
#[derive(Clone, Copy, Debug, PartialEq, Eq)]
pub struct Dangling {
    /// The type of the row.
    pub type_index: u32,
    /// The ordinal of the row.
    pub ordinal: u32,
}

/// The least ordinal of a type whose row names one that is not live; `None` exactly where all rows of the type name live
/// ordinals alone. The rows of a type that names no other are passed over.
pub fn dangling_in<R: Rows>(
    alloc: Global,
    rows: &R,
    type_index: u32,
) -> Result<Option<u32>, AllocError>
    requires { type_index < length (R.schemas rows.now) }
    ensures { IfOk result (TellsType (R.schemas rows.now) (R.table rows.now) type_index) }
{
    let schema = rows.model().schema(type_index);
    if is_plain_type(&schema.shape) {
        return Ok(None);
    }
    for ordinal in 0..rows.bound(type_index) {
        if !is_closed_at(alloc, rows, &schema.shape, type_index, ordinal)? {
            return Ok(Some(ordinal));
        }
    }
    Ok(None)
}

// Whether a value of this kind names no row.
fn is_plain(kind: &FieldKind) -> bool
    ensures { IsTrue result ↔ IsPlain kind.now }
{
    !matches!(kind, FieldKind::Reference(_))
}

/// Whether the rows of a type of this shape name no others: they are records without a REFERENCE.
pub fn is_plain_type(shape: &Shape) -> bool
    ensures { IsTrue result ↔ IsPlainType shape.now }
{
    match shape {
        Shape::Object(_, fields) => fields.as_slice().iter().all(|field| is_plain(&field.kind)),
        _ => false,
    }
}

/// Whether the row under an ordinal of a type of this shape names live ordinals alone, if there is such a row.
#[tactic(auto, using(crate::proofs::Danglings::told_live))]
pub fn is_closed_at<R: Rows>(
    alloc: Global,
    rows: &R,
    shape: &Shape,
    type_index: u32,
    ordinal: u32,
) -> Result<bool, AllocError>
    requires { IsSomeAnd (slice_get (R.schemas rows.now) type_index) (λ schema. schema.shape ≡ shape.now) }
    ensures { IfOk result (λ closed. IsTrue closed ↔ IsClosedAt (R.schemas rows.now) (R.table rows.now) type_index ordinal) }
{
    if !rows.is_live(type_index, ordinal) {
        return Ok(true);
    }
    let lent = rows.lend(alloc, type_index, ordinal)?;
    Ok(names_live(rows, shape, lent.row()))
}

// Whether each ordinal that a row of a type of this shape names is live.
fn names_live<R: Rows>(rows: &R, shape: &Shape, row: &Row) -> bool
    ensures { result ≡ are_live (R.schemas rows.now) (R.table rows.now) (references_of_row shape.now row.now) }
{
    match (shape, row) {
        (Shape::Object(_, fields), Row::Object(values)) => {
            values_live(rows, fields.as_slice(), values.as_slice())
        }
        (Shape::List(element), Row::List(ordinals)) => {
            ordinals_live(rows, element, ordinals.as_slice())
        }
        (Shape::Set(element), Row::Set(ordinals)) => {
            ordinals_live(rows, element, ordinals.as_slice())
        }
        (Shape::Map(key, value), Row::Map(pairs)) => {
            pairs_live(rows, key, value, pairs.as_slice())
        }
        _ => true,
    }
}

// Whether the type of this name has a row under the ordinal.
fn is_named_live<R: Rows>(rows: &R, name: &Name, ordinal: u32) -> bool
    ensures { result ≡ is_live_reference (R.schemas rows.now) (R.table rows.now) (name.now, ordinal) }
{
    match rows.model().index_of(name.text()) {
        Some(type_index) => rows.is_live(type_index, ordinal),
        None => false,
    }
}

// Whether the row that a value of a field names is live, if it names one.
fn value_live<R: Rows>(rows: &R, kind: &FieldKind, value: &Value) -> bool
    ensures { result ≡ are_live (R.schemas rows.now) (R.table rows.now) (references_of_value kind.now value.now) }
{
    match (kind, value) {
        (FieldKind::Reference(name), Value::Ref(ordinal)) => is_named_live(rows, name, *ordinal),
        _ => true,
    }
}

// Whether the rows that the values of some fields name are live. Fields without a value, and values that name no row, are passed over.
fn values_live<R: Rows>(rows: &R, fields: &[Field], values: &[Value]) -> bool
    ensures { result ≡ list_all (λ part. are_live (R.schemas rows.now) (R.table rows.now) (references_of_value part.0.kind part.1)) (zip fields.now values.now) }
{
    fields
        .iter()
        .zip(values)
        .all(|(field, value)| value_live(rows, &field.kind, value))
}

// Whether the type of this name has a row under each ordinal.
fn ordinals_live<R: Rows>(rows: &R, name: &Name, ordinals: &[u32]) -> bool
    ensures { result ≡ list_all (λ ordinal. is_live_reference (R.schemas rows.now) (R.table rows.now) (name.now, ordinal)) ordinals.now }
{
    ordinals
        .iter()
        .all(|ordinal| is_named_live(rows, name, *ordinal))
}

// Whether the types of these names have a row under each key and under each value.
fn pairs_live<R: Rows>(rows: &R, key: &Name, value: &Name, pairs: &[(u32, u32)]) -> bool
    ensures { result ≡ list_all (λ pair. is_live_reference (R.schemas rows.now) (R.table rows.now) (key.now, pair.0) && is_live_reference (R.schemas rows.now) (R.table rows.now) (value.now, pair.1)) pairs.now }
{
    pairs.iter().all(|pair| is_named_live(rows, key, pair.0) && is_named_live(rows, value, pair.1))
}
