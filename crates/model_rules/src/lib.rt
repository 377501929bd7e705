//! The rules of a model: schemas are made a model exactly where none is broken.
#![tactic(auto)]

mod chains;
mod keys;
mod lengths;
mod making;
mod name_index;
mod rules;
mod type_graph;

pub use making::{copy_model, first_too_deep, model_of};
