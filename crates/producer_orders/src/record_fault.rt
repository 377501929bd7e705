//! Why the records of a cycle are not added.
use schema_model::Reason;

/// Why the records of a cycle are not added.
#[derive(Debug, Drop)]
pub enum RecordFault {
    /// A record gives no tree: the first one.
    Bad {
        /// The index of its type.
        type_index: u32,
        /// Its place among the records of the type, from 0.
        place: u64,
        /// Why it gives none.
        reason: Reason,
    },
    /// Each record gives a tree, and a row would get the ordinal 2^22.
    TooMany,
    /// Memory was refused.
    Memory,
}
