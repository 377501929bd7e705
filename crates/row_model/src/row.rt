//! The rows of a type, and the values of a record.
ghost use Rattle.std.specs.Prelude.{◌≡◌};
ghost use Rattle.row_model.specs.Row.{stored_value};

use crate::{Pairs, Values};
use hol_varint::{Duplicate, Octets, Ordinals, Units};
use std::alloc::{AllocError, Global};

/// A value of a record's field.
#[derive(Debug, Drop)]
pub enum Value {
    /// Nothing, in a field of any kind.
    Null,
    /// The value of an INT.
    Int(i32),
    /// The value of a LONG.
    Long(i64),
    /// The value of a BOOLEAN.
    Bool(bool),
    /// The UTF-16 units of a STRING.
    Text(Units),
    /// The bytes of a BYTES.
    Bytes(Octets),
    /// The ordinal of a REFERENCE.
    Ref(u32),
}

impl Value {
    /// The value as a blob holds it: the least INT and the least LONG are null.
    pub fn stored(self) -> Value
        ensures { result ≡ stored_value self }
    {
        match self {
            Value::Int(i32::MIN) | Value::Long(i64::MIN) => Value::Null,
            value => value,
        }
    }
}

impl Duplicate for Value {
    fn copy(&self, alloc: Global) -> Result<Value, AllocError> {
        match self {
            Value::Null => Ok(Value::Null),
            Value::Int(number) => Ok(Value::Int(*number)),
            Value::Long(number) => Ok(Value::Long(*number)),
            Value::Bool(flag) => Ok(Value::Bool(*flag)),
            Value::Text(units) => Ok(Value::Text(units.copy(alloc)?)),
            Value::Bytes(bytes) => Ok(Value::Bytes(bytes.copy(alloc)?)),
            Value::Ref(ordinal) => Ok(Value::Ref(*ordinal)),
        }
    }
}

/// What a type holds under an ordinal.
#[derive(Debug, Drop)]
pub enum Row {
    /// A record: one value for each field of the type.
    Object(Values),
    /// The ordinals of a list's elements, in their order.
    List(Ordinals),
    /// The ordinals of a set's elements, rising.
    Set(Ordinals),
    /// The ordinals of a map's keys and values, by rising key.
    Map(Pairs),
}

impl Duplicate for Row {
    fn copy(&self, alloc: Global) -> Result<Row, AllocError> {
        match self {
            Row::Object(values) => Ok(Row::Object(values.copy(alloc)?)),
            Row::List(ordinals) => Ok(Row::List(ordinals.copy(alloc)?)),
            Row::Set(ordinals) => Ok(Row::Set(ordinals.copy(alloc)?)),
            Row::Map(pairs) => Ok(Row::Map(pairs.copy(alloc)?)),
        }
    }
}
