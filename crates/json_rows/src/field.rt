//! The value of a field of a record, put behind what stands already from where it stands packed.
ghost use Rattle.std.specs.Prelude.{◌≡◌, ◌<◌, ◌^◌, length, take, Some, OnOk, IsSome};
ghost use Rattle.row_model.specs.declared.row.Value.{Value as ValueOf};
ghost use Rattle.row_model.specs.Key.{value_in as field_of};
ghost use Rattle.row_model.specs.Table.{IsLive, row_at};
ghost use Rattle.column_rows.specs.Columns.{IsColumnOf};
ghost use Rattle.json_rows.specs.RowLine.{PutsAll};
ghost use Rattle.json_rows.specs.StoredRow.{IsValueData};

use crate::plain::{is_plain_text, put_plain_text};
use crate::value::{put_signed, put_unsigned, put_value};
use column_rows::{ColumnRows, field_value};
use object_codec::{Column, ValueRef};
use std::alloc::{AllocError, Global};

// The value of a field of the record under a live ordinal, which stands in this column.
#[inline(always)]
pub(crate) fn put_field<R: ColumnRows>(
    alloc: Global,
    rows: &R,
    column: &Column<'_>,
    type_index: u32,
    field: usize,
    ordinal: u32,
    out: &mut Vec<u8>,
) -> Result<(), AllocError>
    requires column { IsColumnOf (R.table rows.now) type_index field column.now }
    requires few { field < 2 ^ 32 }
    requires live { IsLive (R.table rows.now) type_index ordinal }
    ensures put { OnOk result ((value : ValueOf) → field_of (row_at (R.table rows.now) type_index ordinal) field ≡ Some value
        → PutsAll (IsValueData value) out.old.items out.new.items) }
    ensures front { take (length out.old.items) out.new.items ≡ out.old.items }
{
    match column.value(u64::from(ordinal)) {
        ValueRef::Null => out.extend_from_slice(b"null"),
        ValueRef::Int(number) => put_signed(i64::from(number), out),
        ValueRef::Long(number) => put_signed(number, out),
        ValueRef::Bool(true) => out.extend_from_slice(b"true"),
        ValueRef::Bool(false) => out.extend_from_slice(b"false"),
        ValueRef::Text(bytes) if is_plain_text(bytes) => put_plain_text(bytes, out),
        ValueRef::Text(_) | ValueRef::Bytes(_) => {
            put_copy(alloc, rows, type_index, field as u32, ordinal, out)
        }
        ValueRef::Ref(named) => put_unsigned(u64::from(named), out),
    }
}

/// Puts the value of a field of the record under a live ordinal behind what stands in `out`, as `leaf_value` prints it. It fails only where memory is refused, and
/// then a front of the value may stand there. Where the records stand packed a copy is made of BYTES alone, and of a STRING that is not printable ASCII.
pub fn put_field_of<R: ColumnRows>(
    alloc: Global,
    rows: &R,
    type_index: u32,
    field: u32,
    ordinal: u32,
    out: &mut Vec<u8>,
) -> Result<(), AllocError>
    requires live { IsLive (R.table rows.now) type_index ordinal }
    requires there { IsSome (field_of (row_at (R.table rows.now) type_index ordinal) field) }
    ensures put { OnOk result ((value : ValueOf) → field_of (row_at (R.table rows.now) type_index ordinal) field ≡ Some value
        → PutsAll (IsValueData value) out.old.items out.new.items) }
    ensures front { take (length out.old.items) out.new.items ≡ out.old.items }
{
    match rows.column(type_index, field) {
        Some(column) => put_field(
            alloc,
            rows,
            &column,
            type_index,
            field as usize,
            ordinal,
            out,
        ),
        None => put_copy(alloc, rows, type_index, field, ordinal, out),
    }
}

// Puts the value of a field of the record under a live ordinal, of which a copy is made.
fn put_copy<R: ColumnRows>(
    alloc: Global,
    rows: &R,
    type_index: u32,
    field: u32,
    ordinal: u32,
    out: &mut Vec<u8>,
) -> Result<(), AllocError>
    requires live { IsLive (R.table rows.now) type_index ordinal }
    requires there { IsSome (field_of (row_at (R.table rows.now) type_index ordinal) field) }
    ensures put { OnOk result ((value : ValueOf) → field_of (row_at (R.table rows.now) type_index ordinal) field ≡ Some value
        → PutsAll (IsValueData value) out.old.items out.new.items) }
    ensures front { take (length out.old.items) out.new.items ≡ out.old.items }
{
    match field_value(alloc, rows, type_index, ordinal, field)? {
        Some(value) => put_value(alloc, &value, out),
        None => unreachable!(),
    }
}
