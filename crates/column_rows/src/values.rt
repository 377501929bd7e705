//! The value of one field of a record, of its own.
ghost use Rattle.std.specs.Prelude.{◌≡◌, List, ℕ, IfOk, Some};
ghost use Rattle.std.specs.Option.{option_copied};
ghost use Rattle.hol_varint.specs.TextUnits.{AreUnitsIn};
ghost use Rattle.row_model.specs.declared.row.Value.{Value as ValueOf};
ghost use Rattle.row_model.specs.Key.{value_in as field_of};
ghost use Rattle.row_model.specs.Table.{IsLive, row_at};
ghost use Rattle.object_codec.specs.Bytes.{bytes_of};
ghost use Rattle.object_codec.specs.Columns.{Shows};

use crate::ColumnRows;
use hol_varint::{Duplicate, Octets, Units, UnitsFault, get_units};
use object_codec::{PackedBytes, ValueRef};
use row_model::{Row, Value};
use std::alloc::{AllocError, Global};

/// The value of a field of the row under a live ordinal; none where the row has no such field. Where the records stand packed it takes memory for
/// this value alone.
pub fn field_value<R: ColumnRows>(
    alloc: Global,
    rows: &R,
    type_index: u32,
    ordinal: u32,
    field: u32,
) -> Result<Option<Value>, AllocError>
    requires { IsLive (R.table rows.now) type_index ordinal }
    ensures { IfOk result (λ value. value ≡ field_of (row_at (R.table rows.now) type_index ordinal) field) }
{
    match rows.column(type_index, field) {
        Some(column) => Ok(Some(shown_value(alloc, column.value(u64::from(ordinal)))?)),
        None => lent_value(alloc, rows, type_index, ordinal, field),
    }
}

/// The value of a field of the row under a live ordinal, copied out of the row, which is lent; none where the row has no such field.
fn lent_value<R: ColumnRows>(
    alloc: Global,
    rows: &R,
    type_index: u32,
    ordinal: u32,
    field: u32,
) -> Result<Option<Value>, AllocError>
    requires { IsLive (R.table rows.now) type_index ordinal }
    ensures { IfOk result (λ value. value ≡ field_of (row_at (R.table rows.now) type_index ordinal) field) }
{
    let lent = rows.lend(alloc, type_index, ordinal)?;
    match value_in(lent.row(), field) {
        Some(value) => Ok(Some(value.copy(alloc)?)),
        None => Ok(None),
    }
}

/// The value of a field of a record.
#[inline(always)]
pub fn value_in(row: &Row, field: u32) -> Option<&Value>
    ensures { option_copied result ≡ field_of (Some row.now) field }
{
    match row {
        Row::Object(values) => values.as_slice().get(field as usize),
        _ => None,
    }
}

/// The value that is shown. Of what shows none nothing is said.
fn shown_value(alloc: Global, shown: ValueRef<'_>) -> Result<Value, AllocError>
    ensures { (value : ValueOf) → Shows shown.entry value → IfOk result (λ copy. copy ≡ value) }
{
    match shown {
        ValueRef::Null => Ok(Value::Null),
        ValueRef::Int(number) => Ok(Value::Int(number)),
        ValueRef::Long(number) => Ok(Value::Long(number)),
        ValueRef::Bool(flag) => Ok(Value::Bool(flag)),
        ValueRef::Text(bytes) => Ok(Value::Text(units_in(alloc, bytes)?)),
        ValueRef::Bytes(bytes) => Ok(Value::Bytes(octets_in(alloc, bytes)?)),
        ValueRef::Ref(ordinal) => Ok(Value::Ref(ordinal)),
    }
}

/// A copy of bytes.
fn octets_in(alloc: Global, bytes: PackedBytes<'_>) -> Result<Octets, AllocError>
    ensures { IfOk result (λ octets. octets ≡ bytes_of bytes.entry) }
{
    let mut copy = Vec::with_capacity(alloc, bytes.len as usize)?;
    bytes.put(&mut copy)?;
    Ok(Octets::from_vec(copy))
}

/// The units of the bytes of a STRING. Of other bytes nothing is said.
fn units_in(alloc: Global, bytes: PackedBytes<'_>) -> Result<Units, AllocError>
    ensures { (units : List ℕ) → AreUnitsIn (bytes_of bytes.entry) units → IfOk result (λ copy. copy ≡ units) }
{
    let spelled = octets_in(alloc, bytes)?;
    match get_units(alloc, spelled.as_slice()) {
        Ok(units) => Ok(units),
        Err(UnitsFault::Memory) => Err(AllocError),
        Err(UnitsFault::BadText) => Ok(Units::new(alloc)),
    }
}
