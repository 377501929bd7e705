//! What snapshots and deltas have in common behind their headers: the head of a type and the items of its section.
#![tactic(auto)]

mod envelope;
mod head;
mod ordinals;
mod section;
mod widths;

pub use head::{TypeHead, type_head};
pub use ordinals::population;
pub use section::{PackedRows, max_ordinal, packed_rows, word_array};
pub use widths::{field_widths, part_widths};
