//! The shortest list of blobs that leads from one version to another.
#![tactic(auto)]

mod shortest;
mod start;
mod steps;
mod ways;

pub use shortest::{BlobNames, plan};
