//! A value of a record, where it stands.
use crate::bytes::PackedBytes;

/// A value of a record's field, where it stands.
#[derive(Clone, Copy)]
pub enum ValueRef<'a> {
    /// Nothing, in a field of any kind.
    Null,
    /// The value of an INT.
    Int(i32),
    /// The value of a LONG.
    Long(i64),
    /// The value of a BOOLEAN.
    Bool(bool),
    /// The bytes of a STRING, a number of variable length for each of its units.
    Text(PackedBytes<'a>),
    /// The bytes of a BYTES.
    Bytes(PackedBytes<'a>),
    /// The ordinal of a REFERENCE.
    Ref(u32),
}
