//! The rows of a half, looked at where they stand: a field of its records, its lists, its sets or maps.
ghost use Rattle.std.specs.Prelude.{◌≡◌, IfSome, IsTrue};
ghost use Rattle.packed_half.specs.Half.{section_in};
ghost use Rattle.packed_half.specs.Laying.{HasRuns};
ghost use Rattle.column_rows.specs.OneType.{AreListsIn, AreRunsIn, IsColumnIn};
ghost use Rattle.type_state.specs.Kept.{IsHalf, half_rows};

use crate::field_bytes::bytes_of_field;
use column_rows::{PackedItems, column_of};
use object_codec::Column;
use packed_half::HalfRows;
use schema_model::Shape;

/// A field of the records of a half; none where the type has no such field, and where there is no place.
pub(crate) fn column_in<'a>(rows: HalfRows<'a>, field: u32) -> Option<Column<'a>>
    requires { IsHalf rows.shape.now rows.half.now rows.words.now }
    ensures { IfSome result (IsColumnIn (half_rows rows.entry.shape.now rows.entry.half.now rows.entry.words.now) field) }
{
    let Shape::Object(_, fields) = rows.shape else {
        return None;
    };
    if rows.half.max.is_none() {
        return None;
    }
    let fields = fields.as_slice();
    let index = field as usize;
    if index >= fields.len() {
        return None;
    }
    let area = bytes_of_field(rows.bytes(), rows.half.lengths.as_slice(), index);
    Some(column_of(
        fields,
        rows.half.widths.as_slice(),
        rows.places(),
        area,
        index,
    ))
}

/// The lists of a half; none where the type is of another kind, and where there is no place.
pub(crate) fn lists_in<'a>(rows: HalfRows<'a>) -> Option<PackedItems<'a>>
    requires { IsHalf rows.shape.now rows.half.now rows.words.now }
    ensures { IfSome result (AreListsIn (half_rows rows.entry.shape.now rows.entry.half.now rows.entry.words.now)) }
{
    let Shape::List(_) = rows.shape else {
        return None;
    };
    if rows.half.max.is_none() {
        return None;
    }
    Some(items_of(rows))
}

/// The sets or maps of a half; none where the type is of another kind, and where there is no place.
pub(crate) fn runs_in<'a>(rows: HalfRows<'a>) -> Option<PackedItems<'a>>
    requires { IsHalf rows.shape.now rows.half.now rows.words.now }
    ensures { IfSome result (AreRunsIn (half_rows rows.entry.shape.now rows.entry.half.now rows.entry.words.now)) }
{
    if !has_runs(rows.shape) {
        return None;
    }
    if rows.half.max.is_none() {
        return None;
    }
    Some(items_of(rows))
}

/// Whether a type of this shape has sets or maps.
fn has_runs(shape: &Shape) -> bool
    ensures { IsTrue result → HasRuns shape.now }
{
    matches!(shape, Shape::Set(_) | Shape::Map(_, _))
}

/// The places and the items of a half.
fn items_of<'a>(rows: HalfRows<'a>) -> PackedItems<'a>
    ensures widths { result.widths.now ≡ rows.entry.half.now.widths }
    ensures total { result.total ≡ rows.entry.half.now.total }
    ensures first { result.first.now ≡ (section_in rows.entry.shape.now rows.entry.half.now rows.entry.words.now).first }
    ensures second { result.second.now ≡ (section_in rows.entry.shape.now rows.entry.half.now rows.entry.words.now).second }
{
    PackedItems {
        widths: rows.half.widths.as_slice(),
        total: rows.half.total,
        first: rows.places(),
        second: rows.items(),
    }
}
