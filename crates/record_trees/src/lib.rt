//! Trees: records with all that they refer to, which of them fit a type, and when two are the same record.
#![tactic(auto)]

mod same;
mod tree;
mod values;

pub use same::same_tree;
pub use tree::{Tree, TreePairs, Trees};
