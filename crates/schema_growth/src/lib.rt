//! Schemas compared: when two are the same, when two of one name agree, and when a model grows another one.
#![tactic(auto)]

mod agreement;
mod growth;
pub mod laws;
mod same;

pub use agreement::{agree, agree_by_place};
pub use growth::grows;
pub use same::same_schema;
