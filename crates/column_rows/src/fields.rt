//! Whether the records of a type name live rows alone, field by field.
ghost use Rattle.std.specs.Prelude.{ℕ, ◌≡◌, IsTrue, slice_get, Some};
ghost use Rattle.schema_model.specs.declared.schema.Field.{Field as FieldOf};
ghost use Rattle.row_model.specs.Table.{IsLive};
ghost use Rattle.object_codec.specs.Columns.{IsReadAt, part_of};
ghost use Rattle.column_rows.specs.Columns.{IsColumnOf};
ghost use Rattle.column_rows.specs.Closed.{FieldNamesLive, NamesLiveThere};
ghost use Rattle.column_rows.specs.Looked.{IsLooked};

use crate::ColumnRows;
use crate::looked::Looked;
use bit_array::{all_ones, element};
use object_codec::Column;
use row_model::Rows;
use schema_model::{Field, FieldKind};

/// The element of a field at a place where it can be read.
#[inline(always)]
fn element_in(column: &Column, place: u64) -> u64
    requires { IsReadAt column.now place }
    ensures { result ≡ (part_of column.now place).element }
{
    element(
        column.first,
        place * column.size + column.before,
        column.width,
    )
}

/// Whether a number is a live ordinal of a type; its ordinals are below the bound.
#[inline(always)]
fn is_live_below<R: Rows>(rows: &R, target: u32, bound: u32, number: u64) -> bool
    ensures { IsTrue result → IsLive (R.table rows.now) target number }
{
    number < u64::from(bound) && rows.is_live(target, number as u32)
}

/// Whether a REFERENCE of the record under an ordinal, if there is one, names a live row of another type, if it names one. What stands at the place is
/// tried first, and only where it names no live row, whether there is a record.
#[inline(always)]
fn is_field_live<R: ColumnRows>(
    rows: &R,
    column: &Column,
    type_index: u32,
    field: u32,
    target: u32,
    bound: u32,
    ordinal: u32,
) -> bool
    requires column_of { IsColumnOf (R.table rows.now) type_index field column.now }
    requires read { IsReadAt column.now ordinal }
    ensures { IsTrue result → NamesLiveThere (R.table rows.now) type_index field target ordinal }
{
    let number = element_in(column, u64::from(ordinal));
    if is_live_below(rows, target, bound, number) {
        return true;
    }
    if number == all_ones(column.width) {
        return true;
    }
    !rows.is_live(type_index, ordinal)
}

/// Whether a field of the records that are looked at in a type names live rows of another type alone.
fn field_live<R: ColumnRows>(
    rows: &R,
    column: &Column,
    type_index: u32,
    field: u32,
    target: u32,
    looked: Looked<'_>,
) -> bool
    requires { IsColumnOf (R.table rows.now) type_index field column.now }
    ensures { IsTrue result → (ordinal : ℕ) → IsLooked looked.entry ordinal → NamesLiveThere (R.table rows.now) type_index field target ordinal }
{
    let end = rows.bound(type_index);
    let bound = rows.bound(target);
    let count = looked.count(end);
    for index in 0..count {
        let ordinal = looked.ordinal(index);
        if ordinal < end
            && !is_field_live(rows, column, type_index, field, target, bound, ordinal)
        {
            return false;
        }
    }
    true
}

/// Whether a field of this kind names live rows alone in each record that is looked at; false also where the records do not stand packed.
fn is_field_closed<R: ColumnRows>(
    rows: &R,
    type_index: u32,
    kind: &FieldKind,
    field: u32,
    looked: Looked<'_>,
) -> bool
    ensures { IsTrue result → (ordinal : ℕ) → IsLooked looked.entry ordinal → FieldNamesLive (R.schemas rows.now) (R.table rows.now) type_index kind.now field ordinal }
{
    let FieldKind::Reference(name) = kind else {
        return true;
    };
    let Some(target) = rows.model().index_of(name.text()) else {
        return false;
    };
    let Some(column) = rows.column(type_index, field) else {
        return false;
    };
    field_live(rows, &column, type_index, field, target, looked)
}

/// The same of each of these fields, each by its index.
pub(crate) fn fields_closed<R: ColumnRows>(
    rows: &R,
    type_index: u32,
    fields: &[Field],
    looked: Looked<'_>,
) -> bool
    ensures { IsTrue result → (index : ℕ) (field : FieldOf) → slice_get fields.now index ≡ Some field → (ordinal : ℕ) → IsLooked looked.entry ordinal → FieldNamesLive (R.schemas rows.now) (R.table rows.now) type_index field.kind index ordinal }
{
    let Ok(count) = u32::try_from(fields.len()) else {
        return false;
    };
    for index in 0..count {
        let kind = &fields[index as usize].kind;
        if !is_field_closed(rows, type_index, kind, index, looked) {
            return false;
        }
    }
    true
}
