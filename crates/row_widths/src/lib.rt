//! The widths and totals that a writer chooses for a type, over its rows in two states, each kind in a module.
#![tactic(auto)]

pub mod buckets;
pub mod lists;
pub mod records;
mod row_walk;

pub use row_walk::RowWalk;
