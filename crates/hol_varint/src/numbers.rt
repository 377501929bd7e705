//! The lists of numbers that the layers above pass on.
use crate::list::List;

/// The UTF-16 units of a text, which need not be well formed.
pub type Units = List<u16>;

/// Bytes: the value of a BYTES field, or the variable bytes of all records of a field, one after another.
pub type Octets = List<u8>;

/// Ordinals of rows, or indexes of types or fields.
pub type Ordinals = List<u32>;

/// Numbers as an ordinal run of a blob spells them: each one is the one before it plus a gap. They may be past every
/// ordinal.
pub type GapList = List<u64>;
