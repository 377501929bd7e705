//! Rows seen through another model: by the names of types and fields, where the schemas of one name agree.
#![tactic(auto)]

pub mod laws;
mod seen;

pub use seen::{Seen, seen_row};
