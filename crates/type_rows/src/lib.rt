//! The rows of one type in one state: how blobs lay them out, what they add up to, and the fault that refuses them.
#![tactic(auto)]

mod count;
mod ends;
mod fault;
pub mod fault_laws;
mod fits;
mod items;
pub mod laws;
mod ordinals;
mod outline;
mod patch;
mod place;
mod records;
mod runs;
mod section;
pub mod spelled;
mod sums;
mod test;
mod totals;
mod words;

pub use count::{MOST_ITEMS, row_len};
pub use ends::Ends;
pub use fault::RowFault;
pub use ordinals::first_bad_ordinal;
pub use outline::Outline;
pub use patch::PatchSection;
pub use place::read_place;
pub use section::Section;
pub use sums::Sums;
pub use test::test_section;
pub use totals::Totals;
pub use words::{counted_words, fixed_words, own_bits, place_count, words_needed};
