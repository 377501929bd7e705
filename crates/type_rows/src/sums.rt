//! What the rows of a type add up to, told where they stand.
use row_model::Words;

/// What the rows of a section add up to.
#[derive(Drop)]
pub struct Sums {
    /// The elements of the lists, or the buckets that the writer makes for the sets or maps; 0 for an OBJECT.
    pub items: u64,
    /// How many variable bytes each field of an OBJECT has in the live rows; nothing for the other kinds.
    pub lengths: Words,
}
