//! The hash of a row or of a key's values, and whether two of them are the same: what finds one again where it stands.
#![tactic(auto)]

mod hash;
mod same;

pub use hash::{row_hash, values_hash};
pub use same::{same_row, same_values};
