//! The hash of a row, and that of values: the numbers are mixed one by one.
ghost use Rattle.std.specs.Prelude.{◌≡◌};
ghost use Rattle.std.specs.List.{fold};
ghost use Rattle.row_hash.specs.Hash.{mixed, mixed_pair, mixed_row, mixed_value, row_hash as hash_of, values_hash as hash_of_values};

use hol_varint::{zigzag32, zigzag64};
use row_model::{Row, Value};

// Odd, with ones and zeros all over.
const FACTOR: u64 = 0x9E37_79B9_7F4A_7C15;

// What stands for a field without a value.
const NO_VALUE: u64 = 0x8000_0000_0000_0000;

/// The hash of a row: one number for equal rows. It takes no memory.
///
/// Its low bits tell rows apart as well as the others do, so that they may choose a bucket.
#[tactic(auto, unfolding(crate::specs::Hash::row_hash))]
pub fn row_hash(row: &Row) -> u32
    ensures { result ≡ hash_of row.now }
{
    (mix(mix_row(row), 0) / 0x1_0000_0000) as u32
}

/// The hash of values: one number for equal lists of values, that of the record that has them. It takes no memory.
#[tactic(auto, unfolding(crate::specs::Hash::values_hash))]
pub fn values_hash(values: &[Value]) -> u32
    ensures { result ≡ hash_of_values values.now }
{
    (mix(mix_values(values), 0) / 0x1_0000_0000) as u32
}

// The mix of all numbers of a row.
fn mix_row(row: &Row) -> u64
    ensures { result ≡ mixed_row row.now }
{
    match row {
        Row::Object(values) => mix_values(values.as_slice()),
        Row::List(ordinals) | Row::Set(ordinals) => mix_ordinals(ordinals.as_slice()),
        Row::Map(pairs) => mix_pairs(pairs.as_slice()),
    }
}

// Mixes one number more.
#[tactic(auto, unfolding(crate::specs::Hash::mixed))]
#[inline(always)]
fn mix(hash: u64, number: u64) -> u64
    ensures { result ≡ mixed hash number }
{
    (hash.rotate_left(5) ^ number).wrapping_mul(FACTOR)
}

// The mix of the values of a record.
fn mix_values(values: &[Value]) -> u64
    ensures { result ≡ fold mixed_value 0 values.now }
{
    let mut hash = 0;
    for value in values {
        hash = mix_value(hash, value);
    }
    hash
}

// Mixes one value more.
#[inline(always)]
fn mix_value(hash: u64, value: &Value) -> u64
    ensures { result ≡ mixed_value hash value.now }
{
    match value {
        Value::Null => mix(hash, NO_VALUE),
        Value::Int(number) => mix(hash, zigzag32(*number) as u64),
        Value::Long(number) => mix(hash, zigzag64(*number)),
        Value::Bool(flag) => mix(hash, if *flag { 1 } else { 0 }),
        Value::Text(units) => mix_units(mix(hash, units.len() as u64), units.as_slice()),
        Value::Bytes(bytes) => mix_bytes(mix(hash, bytes.len() as u64), bytes.as_slice()),
        Value::Ref(ordinal) => mix(hash, *ordinal as u64),
    }
}

// Mixes the units of a text, whose length is mixed already.
fn mix_units(hash: u64, units: &[u16]) -> u64
    ensures { result ≡ fold mixed hash units.now }
{
    let mut mixed = hash;
    for unit in units {
        mixed = mix(mixed, *unit as u64);
    }
    mixed
}

// Mixes bytes, whose number is mixed already.
fn mix_bytes(hash: u64, bytes: &[u8]) -> u64
    ensures { result ≡ fold mixed hash bytes.now }
{
    let mut mixed = hash;
    for byte in bytes {
        mixed = mix(mixed, *byte as u64);
    }
    mixed
}

// The mix of the ordinals of a list or a set.
fn mix_ordinals(ordinals: &[u32]) -> u64
    ensures { result ≡ fold mixed 0 ordinals.now }
{
    let mut hash = 0;
    for ordinal in ordinals {
        hash = mix(hash, *ordinal as u64);
    }
    hash
}

// The mix of the pairs of a map.
fn mix_pairs(pairs: &[(u32, u32)]) -> u64
    ensures { result ≡ fold mixed_pair 0 pairs.now }
{
    let mut hash = 0;
    for pair in pairs {
        hash = mix(mix(hash, pair.0 as u64), pair.1 as u64);
    }
    hash
}
