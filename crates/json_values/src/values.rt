//! The values of fields from their JSON.
ghost use Rattle.std.specs.Prelude.{◌≡◌};
ghost use Rattle.serde_json.specs.View.{view, items_view};
ghost use Rattle.closed_rows.specs.Dangling.{IsPlain};
ghost use Rattle.json_values.specs.ReadValue.{Tells, read_bytes, read_flag, read_kind, read_number, read_text, read_each, read_unit, read_value};

use crate::ValueFault;
use hex::FromHexError;
use hol_varint::{Octets, Units, units_of};
use row_model::Value as FieldValue;
use schema_model::{FieldKind, Reason};
use serde_json::Value;
use std::alloc::Global;

/// The value of a field of a kind without a reference. `Field` where the JSON value gives none: `OtherKind` where it is
/// of another kind of JSON, `NumberOutOfRange` where it is no whole number in the range of an INT or a LONG,
/// `UnitOutOfRange` where a number among the units of a STRING is none of 16 bits, and `NotHexadecimal` where a BYTES is
/// no text of two digits a byte. A null is the null of every kind.
pub fn value_from(alloc: Global, kind: &FieldKind, value: &Value) -> Result<FieldValue, ValueFault>
    requires plain { IsPlain kind.now }
    ensures { Tells (read_value kind.now (view value.now)) result }
{
    match value {
        Value::Null => Ok(FieldValue::Null),
        _ => kind_value(alloc, kind, value),
    }
}

// The value of a field of a kind without a reference, from a JSON value that is not null. `Field` where it gives none.
fn kind_value(alloc: Global, kind: &FieldKind, value: &Value) -> Result<FieldValue, ValueFault>
    requires plain { IsPlain kind.now }
    ensures { Tells (read_kind kind.now (view value.now)) result }
{
    match kind {
        FieldKind::Int => Ok(FieldValue::Int(int_of(value)?)),
        FieldKind::Long => Ok(FieldValue::Long(long_of(value)?)),
        FieldKind::Boolean => Ok(FieldValue::Bool(flag_of(value)?)),
        FieldKind::Text => Ok(FieldValue::Text(text_units_of(alloc, value)?)),
        FieldKind::Bytes => Ok(FieldValue::Bytes(bytes_of(alloc, value)?)),
        FieldKind::Reference(_) => unreachable!(),
    }
}

fn int_of(value: &Value) -> Result<i32, ValueFault>
    ensures { Tells (read_number 32 (view value.now)) result }
{
    let number = long_of(value)?;
    match i32::try_from(number) {
        Ok(number) => Ok(number),
        Err(_) => Err(ValueFault::Field(Reason::NumberOutOfRange)),
    }
}

fn long_of(value: &Value) -> Result<i64, ValueFault>
    ensures { Tells (read_number 64 (view value.now)) result }
{
    match value {
        Value::Number(number) => match number.as_i64() {
            Some(number) => Ok(number),
            None => Err(ValueFault::Field(Reason::NumberOutOfRange)),
        },
        _ => Err(ValueFault::Field(Reason::OtherKind)),
    }
}

fn flag_of(value: &Value) -> Result<bool, ValueFault>
    ensures { Tells (read_flag (view value.now)) result }
{
    match value {
        Value::Bool(flag) => Ok(*flag),
        _ => Err(ValueFault::Field(Reason::OtherKind)),
    }
}

// The units of a STRING.
fn text_units_of(alloc: Global, value: &Value) -> Result<Units, ValueFault>
    ensures { Tells (read_text (view value.now)) result }
{
    match value {
        Value::String(text) => Ok(units_of(alloc, text.as_str())?),
        Value::Array(numbers) => numbers_of(alloc, numbers.as_slice()),
        _ => Err(ValueFault::Field(Reason::OtherKind)),
    }
}

// The units of a STRING that is given by the array of them.
fn numbers_of(alloc: Global, numbers: &[Value]) -> Result<Units, ValueFault>
    ensures { Tells (read_each read_unit (items_view numbers.now)) result }
{
    let mut units = Units::with_capacity(alloc, numbers.len())?;
    for number in numbers {
        units.push(unit_of(number)?)?;
    }
    Ok(units)
}

fn unit_of(value: &Value) -> Result<u16, ValueFault>
    ensures { Tells (read_unit (view value.now)) result }
{
    match value {
        Value::Number(number) => match number.as_u64() {
            Some(unit) if unit < 0x1_0000 => Ok(unit as u16),
            _ => Err(ValueFault::Field(Reason::UnitOutOfRange)),
        },
        _ => Err(ValueFault::Field(Reason::OtherKind)),
    }
}

// The bytes of a text of hexadecimal digits.
fn bytes_of(alloc: Global, value: &Value) -> Result<Octets, ValueFault>
    ensures { Tells (read_bytes (view value.now)) result }
{
    match value {
        Value::String(text) => match hex::decode(alloc, text.as_str()) {
            Ok(bytes) => Ok(Octets::from_vec(bytes)),
            Err(FromHexError::OutOfMemory) => Err(ValueFault::Memory),
            Err(_) => Err(ValueFault::Field(Reason::NotHexadecimal)),
        },
        _ => Err(ValueFault::Field(Reason::OtherKind)),
    }
}
