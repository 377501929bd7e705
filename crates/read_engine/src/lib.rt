//! A consumer: the state that it loads from a snapshot and moves by deltas, and the indexes that it keeps over its rows.
#![tactic(auto)]

mod consumer;
mod fault;
mod indexes;
mod keeping;
pub mod laws;
mod load;
mod step;
mod step_index;
mod walker;
mod walks;

pub use consumer::Consumer;
pub use fault::{IndexFault, WalkIndexFault};
pub use walker::Walker;
