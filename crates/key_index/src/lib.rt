//! Indexes of the rows of a type by keys: the values at the ends of paths.
#![tactic(auto)]

mod index;
mod key_chains;
mod key_rows;
mod key_slots;
pub mod laws;
mod read;
mod reserved;
mod simple_key;
mod slot;

pub use index::KeyIndex;
pub use read::{read_key, type_behind};
