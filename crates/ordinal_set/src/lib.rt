//! Sets of ordinals, a bit each in 64-bit words, as a blob's populations hold them.
#![tactic(auto)]

mod gaps;
pub mod laws;
mod population;
mod scan;
mod set;
mod two_sets;

pub use gaps::{GapFault, put_gaps, read_gaps};
pub use set::OrdinalSet;
