//! Deltas: the blobs that carry what changes from one state to another.
#![tactic(auto)]

mod added;
pub mod laws;
mod names;
mod of_model;
mod ordinals;
mod part;
mod patch;
mod read;

pub use part::{DeltaPart, DeltaParts};
pub use patch::{Patch, PatchPart, PatchParts};
pub use read::{read_delta, read_patch};
