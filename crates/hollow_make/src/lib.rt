//! The command `make`: a chain of states of generated records is published, and checked there and back.
#![tactic(auto)]

mod cycles;
mod part;
mod progress;
mod script;
mod summary;
mod walk;

pub use progress::{Progress, Silent};
pub use script::make;
