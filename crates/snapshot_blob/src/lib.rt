//! Snapshots: the blobs that carry a whole state.
#![tactic(auto)]

mod body;
pub mod laws;
mod loaded;
mod part;
mod types;

pub use body::{Body, read_body};
pub use loaded::{Loaded, read_snapshot};
pub use part::{TypePart, TypeParts};
