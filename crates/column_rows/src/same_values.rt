//! Whether the records of a type have the same values in two states, field by field.
ghost use Rattle.std.specs.Prelude.{ℕ, ◌≡◌, ◌<◌, IsTrue};
ghost use Rattle.row_model.specs.declared.row.Value.{Value};
ghost use Rattle.object_codec.specs.Bytes.{bytes_of};
ghost use Rattle.object_codec.specs.Columns.{Shows};
ghost use Rattle.column_rows.specs.Columns.{IsColumnOf};
ghost use Rattle.column_rows.specs.Same.{HaveSameLive, HaveSameValue, IsSoOfBoth};

use crate::ColumnRows;
use object_codec::{Column, PackedBytes, ValueRef};

/// Whether the bytes that stand in two places are the same.
fn are_bytes_same(bytes: PackedBytes<'_>, others: PackedBytes<'_>) -> bool
    ensures { IsTrue result → bytes_of bytes.entry ≡ bytes_of others.entry }
{
    if bytes.len != others.len {
        return false;
    }
    for at in 0..bytes.len {
        if bytes.byte(at) != others.byte(at) {
            return false;
        }
    }
    true
}

/// Whether two values that stand somewhere are the same.
#[inline(always)]
fn is_shown_same(shown: ValueRef<'_>, beside: ValueRef<'_>) -> bool
    ensures { IsTrue result → (value other : Value) → Shows shown.entry value → Shows beside.entry other → value ≡ other }
{
    match (shown, beside) {
        (ValueRef::Null, ValueRef::Null) => true,
        (ValueRef::Int(number), ValueRef::Int(other)) => number == other,
        (ValueRef::Long(number), ValueRef::Long(other)) => number == other,
        (ValueRef::Bool(flag), ValueRef::Bool(other)) => flag == other,
        (ValueRef::Text(bytes), ValueRef::Text(others)) => are_bytes_same(bytes, others),
        (ValueRef::Bytes(bytes), ValueRef::Bytes(others)) => are_bytes_same(bytes, others),
        (ValueRef::Ref(ordinal), ValueRef::Ref(other)) => ordinal == other,
        _ => false,
    }
}

/// Whether a field of the records under an ordinal, if there are such, has the same value in both.
#[inline(always)]
fn is_value_same<A: ColumnRows, B: ColumnRows>(
    rows: &A,
    others: &B,
    column: &Column<'_>,
    beside: &Column<'_>,
    type_index: u32,
    field: u32,
    ordinal: u32,
) -> bool
    requires live { HaveSameLive (A.table rows.now) (B.table others.now) type_index }
    requires column_of { IsColumnOf (A.table rows.now) type_index field column.now }
    requires beside_of { IsColumnOf (B.table others.now) type_index field beside.now }
    ensures { IsTrue result → IsSoOfBoth (HaveSameValue field) (A.table rows.now) (B.table others.now) type_index ordinal }
{
    if !rows.is_live(type_index, ordinal) {
        return true;
    }
    let place = u64::from(ordinal);
    is_shown_same(column.value(place), beside.value(place))
}

/// Whether a field of the records of a type has the same value in both states; false also where the records do not stand packed.
fn is_field_same<A: ColumnRows, B: ColumnRows>(
    rows: &A,
    others: &B,
    type_index: u32,
    field: u32,
) -> bool
    requires { HaveSameLive (A.table rows.now) (B.table others.now) type_index }
    ensures { IsTrue result → (ordinal : ℕ) → IsSoOfBoth (HaveSameValue field) (A.table rows.now) (B.table others.now) type_index ordinal }
{
    let Some(column) = rows.column(type_index, field) else {
        return false;
    };
    let Some(beside) = others.column(type_index, field) else {
        return false;
    };
    for ordinal in 0..rows.bound(type_index) {
        if !is_value_same(rows, others, &column, &beside, type_index, field, ordinal) {
            return false;
        }
    }
    true
}

/// The same of each of the first `count` fields.
pub(crate) fn are_fields_same<A: ColumnRows, B: ColumnRows>(
    rows: &A,
    others: &B,
    type_index: u32,
    count: usize,
) -> bool
    requires { HaveSameLive (A.table rows.now) (B.table others.now) type_index }
    ensures { IsTrue result → (ordinal field : ℕ) → field < count → IsSoOfBoth (HaveSameValue field) (A.table rows.now) (B.table others.now) type_index ordinal }
{
    let Ok(count) = u32::try_from(count) else {
        return false;
    };
    for field in 0..count {
        if !is_field_same(rows, others, type_index, field) {
            return false;
        }
    }
    true
}
