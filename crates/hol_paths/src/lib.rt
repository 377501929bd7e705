//! What rows reach along walk paths, which go through lists, sets and maps too, and indexes of the rows by it.
#![tactic(auto)]

mod distinct;
mod entries;
mod fault;
mod groups;
mod index;
pub mod laws;
mod levels;
mod met;
mod named;
mod packed;
mod read;
mod reserved;

pub use fault::WalkFault;
pub use index::WalkIndex;
pub use levels::type_behind;
pub use read::read_walk;
