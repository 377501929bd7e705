//! The element and the bytes of one value, as they are written.
ghost use Rattle.std.specs.Prelude.{ℕ, List, ◌≡◌, ◌+◌, ◌-◌, ◌^◌, ◌<◌, ◌≤◌, ◌++◌, length, slice_get, unwrap_or, IfOk, IfSome, OnOk};
ghost use Rattle.hol_varint.specs.TextUnits.{AreUnits};
ghost use Rattle.row_model.specs.Row.{FitsKind};
ghost use Rattle.row_model.specs.declared.row.Value.{Value as StoredValue};
ghost use Rattle.object_codec.specs.ObjectPlace.{IsKindWidth};
ghost use Rattle.object_codec.specs.Stored.{stored_number as number_of_stored, greatest_number, value_at, value_bytes, values_bytes};
ghost use Rattle.object_codec.specs.Packing.{HasBytes, HoldsValue};
ghost use Rattle.object_codec.specs.Encoded.{end_element as end_of_value, IsTaken, gap_element as element_of_gap};

use crate::end_offset::EndOffset;
use crate::stored::{has_bytes, stored_number};
use bit_array::all_ones;
use hol_varint::{Octets, put_units};
use row_model::Value;
use schema_model::FieldKind;
use std::alloc::{AllocError, Global};
use std::mem;

/// Adds the bytes of the value at an index to those of its field, and answers the value's element; where there is no value, that of a place
/// without a row.
pub(crate) fn take_value(
    alloc: Global,
    kind: &FieldKind,
    width: u32,
    area: &mut Octets,
    values: &[Value],
    index: usize,
) -> Result<u64, AllocError>
    requires narrow { width ≤ 64 }
    requires wide { IsKindWidth kind.now width }
    requires fits { IfSome (slice_get values.now index) (FitsKind kind.now) }
    requires number { IfSome (slice_get values.now index) (HoldsValue width) }
    requires end { HasBytes kind.now → length area.old + length (values_bytes (value_at index values.now)) < 2 ^ (width - 1) }
    ensures { IfOk result (λ element. IsTaken kind.now width element area.old area.new (slice_get values.now index)) }
{
    let Some(value) = values.get(index) else {
        return Ok(gap_element(kind, area.len() as u64));
    };
    if !has_bytes(kind) {
        return Ok(number_element(width, value));
    }
    push_bytes(alloc, area, value)?;
    Ok(end_element(width, area.len() as u64, value))
}

/// The element of a field where there is no row, its bytes ending at `end`.
fn gap_element(kind: &FieldKind, end: u64) -> u64
    ensures { result ≡ element_of_gap kind.now end }
{
    match kind {
        FieldKind::Text | FieldKind::Bytes => end,
        _ => 0,
    }
}

/// The element of a value that has no bytes: its number, and ones alone for null.
#[inline(always)]
fn number_element(width: u32, value: &Value) -> u64
    requires { width ≤ 64 }
    ensures is { result ≡ unwrap_or (number_of_stored value.now) (2 ^ width - 1) }
    ensures below { IfSome (number_of_stored value.now) (λ number. number ≤ greatest_number value.now) }
{
    stored_number(value).unwrap_or(all_ones(width))
}

/// The element of a STRING or BYTES: where its bytes end, with the null bit for null.
fn end_element(width: u32, end: u64, value: &Value) -> u64
    requires some { 1 ≤ width }
    requires narrow { width ≤ 64 }
    requires end { end < 2 ^ (width - 1) }
    ensures { result ≡ end_of_value width end value.now }
{
    let is_null = matches!(value, Value::Null);
    EndOffset { end, is_null }.element(width)
}

/// Adds the bytes of a value to those of its field.
fn push_bytes(alloc: Global, area: &mut Octets, value: &Value) -> Result<(), AllocError>
    ensures ok { OnOk result (area.new ≡ area.old ++ value_bytes value.now) }
    ensures are { (units : List ℕ) → value.now ≡ StoredValue.Text units → AreUnits units }
{
    let mut bytes = mem::replace(area, Octets::new(alloc)).into_vec();
    let added = add_bytes(&mut bytes, value);
    *area = Octets::from_vec(bytes);
    added
}

/// Adds the bytes of a value at the end of a vector: those of a STRING or BYTES, and none of any other value.
fn add_bytes(bytes: &mut Vec<u8>, value: &Value) -> Result<(), AllocError>
    ensures ok { OnOk result (bytes.new.items ≡ bytes.old.items ++ value_bytes value.now) }
    ensures are { (units : List ℕ) → value.now ≡ StoredValue.Text units → AreUnits units }
{
    match value {
        Value::Text(units) => put_units(bytes, units),
        Value::Bytes(octets) => bytes.extend_from_slice(octets.as_slice()),
        _ => Ok(()),
    }
}
