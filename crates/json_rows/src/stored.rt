//! Stored rows as JSON values: each row alone, with ordinals in place of the records that it names.
ghost use Rattle.std.specs.Prelude.{◌≡◌, ◌<◌, length, slice_get, IfOk, IfSome};
ghost use Rattle.serde_json.specs.View.{view};
ghost use Rattle.row_model.specs.Row.{FitsShape};
ghost use Rattle.json_rows.specs.StoredRow.{IsRowData, IsRecordData, IsValueData, IsTextData, numbers_data, pairs_data};

use hol_varint::{Units, text_of};
use row_model::{Row, Value as FieldValue};
use schema_model::{Field, Model, Shape};
use serde_json::{Map, Value, json};
use std::alloc::{AllocError, Global};

/// A stored row of a type of the model as JSON. A record is an object with every field of the type, its members in byte
/// order of their names, each a value as `leaf_value` prints it. A list or a set is the array of its ordinals, and a map the
/// array of its pairs of ordinals. It fails only where memory is refused.
pub fn row_value(
    alloc: Global,
    model: &Model,
    type_index: u32,
    row: &Row,
) -> Result<Value, AllocError>
    requires within { type_index < length model.now }
    requires fits { IfSome (slice_get model.now type_index) (λ schema. FitsShape schema.shape row.now) }
    ensures { IfOk result (λ value. IfSome (slice_get model.now type_index) (λ schema. IsRowData schema.shape row.now (view value))) }
{
    shaped_value(alloc, &model.schema(type_index).shape, row)
}

// A row of a type of this shape.
fn shaped_value(alloc: Global, shape: &Shape, row: &Row) -> Result<Value, AllocError>
    requires { FitsShape shape.now row.now }
    ensures { IfOk result (λ value. IsRowData shape.now row.now (view value)) }
{
    match (shape, row) {
        (Shape::Object(_, fields), Row::Object(values)) => record_value(
            alloc,
            fields.as_slice(),
            values.as_slice(),
        ),
        (Shape::List(_), Row::List(ordinals)) => ordinals_value(alloc, ordinals.as_slice()),
        (Shape::Set(_), Row::Set(ordinals)) => ordinals_value(alloc, ordinals.as_slice()),
        (Shape::Map(_, _), Row::Map(pairs)) => pairs_value(alloc, pairs.as_slice()),
        _ => unreachable!(),
    }
}

// The object of a record, which has a value for each field.
fn record_value(alloc: Global, fields: &[Field], values: &[FieldValue]) -> Result<Value, AllocError>
    requires { length fields.now ≡ length values.now }
    ensures { IfOk result (λ value. IsRecordData fields.now values.now (view value)) }
{
    let mut members = Map::new(alloc);
    for (place, value) in values.iter().enumerate() {
        let printed = leaf_value(alloc, value)?;
        serde_json::put(&mut members, alloc, fields[place].name.text(), printed)?;
    }
    Ok(Value::Object(members))
}

/// The value of a field as JSON: `null`, a number for INT and LONG, `true` or `false`, for a STRING its text, or the array of its
/// units where they are not well-formed UTF-16, for BYTES lower-case hexadecimal digits, and for a REFERENCE its ordinal. It
/// fails only where memory is refused.
pub fn leaf_value(alloc: Global, value: &FieldValue) -> Result<Value, AllocError>
    ensures { IfOk result (λ printed. IsValueData value.now (view printed)) }
{
    match value {
        FieldValue::Null => Ok(Value::Null),
        FieldValue::Int(number) => Ok(Value::from(*number)),
        FieldValue::Long(number) => Ok(Value::from(*number)),
        FieldValue::Bool(flag) => Ok(Value::Bool(*flag)),
        FieldValue::Text(units) => text_value(alloc, units),
        FieldValue::Bytes(bytes) => Ok(Value::String(hex::encode(alloc, bytes.as_slice())?)),
        FieldValue::Ref(ordinal) => Ok(Value::from(*ordinal)),
    }
}

// A STRING: its text, or the array of its units where they are not well-formed UTF-16.
fn text_value(alloc: Global, units: &Units) -> Result<Value, AllocError>
    ensures { IfOk result (λ value. IsTextData units.now (view value)) }
{
    match text_of(alloc, units)? {
        Some(text) => Ok(Value::String(text)),
        None => units_value(alloc, units.as_slice()),
    }
}

fn units_value(alloc: Global, units: &[u16]) -> Result<Value, AllocError>
    ensures { IfOk result (λ value. view value ≡ numbers_data units.now) }
{
    let mut numbers = Vec::with_capacity(alloc, units.len())?;
    for unit in units {
        numbers.push(Value::from(*unit))?;
    }
    Ok(Value::Array(numbers))
}

fn ordinals_value(alloc: Global, ordinals: &[u32]) -> Result<Value, AllocError>
    ensures { IfOk result (λ value. view value ≡ numbers_data ordinals.now) }
{
    let mut numbers = Vec::with_capacity(alloc, ordinals.len())?;
    for ordinal in ordinals {
        numbers.push(Value::from(*ordinal))?;
    }
    Ok(Value::Array(numbers))
}

fn pairs_value(alloc: Global, pairs: &[(u32, u32)]) -> Result<Value, AllocError>
    ensures { IfOk result (λ value. view value ≡ pairs_data pairs.now) }
{
    let mut printed = Vec::with_capacity(alloc, pairs.len())?;
    for pair in pairs {
        printed.push(json!(in alloc; [(pair.0), (pair.1)])?)?;
    }
    Ok(Value::Array(printed))
}
