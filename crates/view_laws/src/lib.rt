//! Laws of deltas that are read through other models.
#![tactic(auto)]

pub mod laws;
