//! What a row adds to the sums.
ghost use Rattle.std.specs.Prelude.{◌≡◌, ◌≤◌, ◌^◌, IfOk, length};
ghost use Rattle.object_codec.specs.Stored.{value_at, value_bytes};
ghost use Rattle.object_codec.specs.Widths.{byte_count, most_bits};
ghost use Rattle.kept_sums.specs.Sums.{bits_at, bucket_bits, bytes_at, bytes_in, items_in};

use bit_array::digits;
use bucket_codec::{buckets_for_any, size_of};
use list_codec::elements_of;
use object_codec::{value_bytes, values_of};
use row_model::{Row, Value};
use row_widths::buckets::{greatest_key, greatest_value};
use row_widths::lists::greatest;
use row_widths::records::value_bits;
use schema_model::Shape;
use std::alloc::AllocError;

/// How many bits a part of a row takes.
pub(crate) fn bits_at(shape: &Shape, part: usize, row: &Row) -> u32
    ensures is { result ≡ bits_at shape.now part row.now }
    ensures few { result ≤ 64 }
{
    match shape {
        Shape::Object(_, _) => value_bits_at(values_of(row), part),
        Shape::List(_) => digits(u64::from(greatest(elements_of(row)))),
        Shape::Set(_) | Shape::Map(_, _) => bucket_bits(part, row),
    }
}

// How many bits the value of a field takes, 0 where there is none.
#[tactic(auto, using(crate::proofs::RowParts::most_there, crate::proofs::RowParts::most_none))]
fn value_bits_at(values: &[Value], part: usize) -> u32
    ensures is { result ≡ most_bits (value_at part values.now) }
    ensures few { result ≤ 64 }
{
    match values.get(part) {
        Some(value) => value_bits(value),
        None => 0,
    }
}

// How many bits a part of a set or a map takes: its size, the number after its greatest element or key, or its greatest value.
#[tactic(auto, using(crate::proofs::RowParts::values_part))]
fn bucket_bits(part: usize, row: &Row) -> u32
    ensures is { result ≡ bucket_bits part row.now }
    ensures few { result ≤ 64 }
{
    match part {
        0 => digits(size_of(row) as u64),
        1 => digits(u64::from(greatest_key(row)) + 1),
        _ => digits(u64::from(greatest_value(row))),
    }
}

/// The variable bytes of a part of a row. More than memory holds are refused as memory is.
#[tactic(auto, using(crate::proofs::RowParts::bytes_there, crate::proofs::RowParts::bytes_none))]
pub(crate) fn bytes_at(part: usize, row: &Row) -> Result<u64, AllocError>
    ensures { IfOk result (λ bytes. bytes ≡ bytes_at part row.now) }
{
    match values_of(row).get(part) {
        Some(value) => bytes_of(value),
        None => Ok(0),
    }
}

// Those of a value.
fn bytes_of(value: &Value) -> Result<u64, AllocError>
    ensures { IfOk result (λ bytes. bytes ≡ length (value_bytes value.now)) }
{
    let bytes = value_bytes(value);
    if bytes == u64::MAX {
        return Err(AllocError);
    }
    Ok(bytes)
}

/// The variable bytes of a row.
pub(crate) fn bytes_in(row: &Row) -> Result<u128, AllocError>
    ensures { IfOk result (λ bytes. bytes ≡ bytes_in row.now) }
{
    bytes_of_all(values_of(row))
}

// Those of some values.
fn bytes_of_all(values: &[Value]) -> Result<u128, AllocError>
    ensures { IfOk result (λ bytes. bytes ≡ byte_count values.now) }
{
    let mut bytes: u128 = 0;
    for value in values {
        let more = u128::from(bytes_of(value)?);
        bytes = bytes.checked_add(more).ok_or(AllocError)?;
    }
    Ok(bytes)
}

/// The elements or buckets of a row.
pub(crate) fn items_in(shape: &Shape, row: &Row) -> u128
    ensures { result ≡ items_in shape.now row.now }
{
    match shape {
        Shape::Object(_, _) => 0,
        Shape::List(_) => elements_of(row).len() as u128,
        Shape::Set(_) | Shape::Map(_, _) => buckets_for_any(size_of(row) as u64),
    }
}
