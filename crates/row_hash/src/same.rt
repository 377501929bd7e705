//! When two rows, or two lists of values, are the same.
ghost use Rattle.std.specs.Prelude.{◌≡◌, ◌↔◌, IsTrue};

use row_model::{Row, Value};

/// Whether two rows are the same.
pub fn same_row(row: &Row, other: &Row) -> bool
    ensures { IsTrue result ↔ (row.now ≡ other.now) }
{
    match (row, other) {
        (Row::Object(values), Row::Object(others)) => {
            same_values(values.as_slice(), others.as_slice())
        }
        (Row::List(ordinals), Row::List(others)) => ordinals == others,
        (Row::Set(ordinals), Row::Set(others)) => ordinals == others,
        (Row::Map(pairs), Row::Map(others)) => same_pairs(pairs.as_slice(), others.as_slice()),
        _ => false,
    }
}

/// Whether they are as many values, and the same one by one.
pub fn same_values(values: &[Value], others: &[Value]) -> bool
    ensures { IsTrue result ↔ (values.now ≡ others.now) }
{
    if values.len() != others.len() {
        return false;
    }
    for (place, value) in values.iter().enumerate() {
        if !same_value(value, &others[place]) {
            return false;
        }
    }
    true
}

// Whether two values are the same.
fn same_value(value: &Value, other: &Value) -> bool
    ensures { IsTrue result ↔ (value.now ≡ other.now) }
{
    match (value, other) {
        (Value::Null, Value::Null) => true,
        (Value::Int(number), Value::Int(another)) => number == another,
        (Value::Long(number), Value::Long(another)) => number == another,
        (Value::Bool(flag), Value::Bool(another)) => flag == another,
        (Value::Text(units), Value::Text(others)) => units == others,
        (Value::Bytes(bytes), Value::Bytes(others)) => bytes == others,
        (Value::Ref(ordinal), Value::Ref(another)) => ordinal == another,
        _ => false,
    }
}

// Whether they are as many pairs, and the same one by one.
fn same_pairs(pairs: &[(u32, u32)], others: &[(u32, u32)]) -> bool
    ensures { IsTrue result ↔ (pairs.now ≡ others.now) }
{
    if pairs.len() != others.len() {
        return false;
    }
    for (place, pair) in pairs.iter().enumerate() {
        if !same_pair(pair, &others[place]) {
            return false;
        }
    }
    true
}

// Whether two pairs are the same.
fn same_pair(pair: &(u32, u32), other: &(u32, u32)) -> bool
    ensures { IsTrue result ↔ (pair.now ≡ other.now) }
{
    pair.0 == other.0 && pair.1 == other.1
}
