//! The values of a record as they are written.
ghost use Rattle.std.specs.Prelude.{◌≡◌, ◌↔◌, ◌≤◌, ◌-◌, ◌^◌, length, min, IfSome, IsTrue};
ghost use Rattle.object_codec.specs.Packing.{HasBytes};
ghost use Rattle.object_codec.specs.Stored.{values_of_row, stored_number as number_of_stored, greatest_number, value_bytes as bytes_of_value};

use hol_varint::{units_len, zigzag32, zigzag64};
use row_model::{Row, Value};
use schema_model::FieldKind;

/// The values of a record, none of a row of another kind.
pub fn values_of(row: &Row) -> &[Value]
    ensures { result.now ≡ values_of_row row.now }
{
    match row {
        Row::Object(values) => values.as_slice(),
        _ => &[],
    }
}

/// The number that an element holds for a value; none for null, which the least INT and the least LONG are too, and for a value with bytes.
pub fn stored_number(value: &Value) -> Option<u64>
    ensures is { result ≡ number_of_stored value.now }
    ensures below { IfSome result (λ number. number ≤ greatest_number value.now) }
{
    match value {
        Value::Int(i32::MIN) | Value::Long(i64::MIN) => None,
        Value::Int(number) => Some(u64::from(zigzag32(*number))),
        Value::Long(number) => Some(zigzag64(*number)),
        Value::Bool(flag) => Some(u64::from(*flag)),
        Value::Ref(ordinal) => Some(u64::from(*ordinal)),
        _ => None,
    }
}

/// Whether the values of a field of this kind have variable bytes.
#[inline(always)]
pub fn has_bytes(kind: &FieldKind) -> bool
    ensures { IsTrue result ↔ HasBytes kind.now }
{
    matches!(kind, FieldKind::Text | FieldKind::Bytes)
}

/// How many variable bytes a value has, up to the greatest number.
pub fn value_bytes(value: &Value) -> u64
    ensures { result ≡ min (length (bytes_of_value value.now)) (2 ^ 64 - 1) }
{
    match value {
        Value::Text(units) => units_len(units.as_slice()),
        Value::Bytes(bytes) => bytes.len() as u64,
        _ => 0,
    }
}
