//! What is tried of a blob, one thing after another, and the fault of the first that fails.
#![tactic(auto)]

mod counts;
mod rows;

pub use counts::counts_fault;
pub use rows::blame_rows;
