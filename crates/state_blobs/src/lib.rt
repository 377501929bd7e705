//! The blobs by which a state is published: they are written of a closed cycle, and put into a store.
#![tactic(auto)]

mod puts;
mod write;

pub use puts::publish;
pub use write::{Blobs, write_blobs, write_blobs_by};
