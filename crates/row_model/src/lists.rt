//! The lists of rows and of packed words: aliases of the one list type.
use crate::{Row, Value};
use hol_varint::{List, Octets};

/// The values of a record, in the order of the fields of its type.
pub type Values = List<Value>;

/// Pairs of ordinals: a key of a map and its value.
pub type Pairs = List<(u32, u32)>;

/// Rows by place, of which some may hold none.
pub type Places = List<Option<Row>>;

/// Words of 64 bits, of which an array of bits is made: bit i of it is bit i mod 64 of word i div 64, the least first.
pub type Words = List<u64>;

/// Widths in bits, one for each part of a row.
pub type Widths = List<u32>;

/// The variable bytes of a type, one run for each field.
pub type Areas = List<Octets>;
