//! Paths: the fields to which a text leads in a model, and the parts to which a walk path leads.
#![tactic(auto)]

pub mod laws;
mod path_walk;
mod paths;
mod walk_steps;

pub use path_walk::way_of;
pub use paths::{resolve, resolve_walk, resolves_to};
