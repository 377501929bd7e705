//! How the records of a cycle make the next state of a producer: the definitions, their laws, and the producer itself.
#![tactic(auto)]

mod adding;
mod gather;
mod growing;
pub mod laws;
mod leaf;
mod limits;
mod producer;
mod restoring;
mod states;
mod views;

pub use gather::set_of;
pub use producer::{Closed, Producer};
pub use restoring::RestoreFault;
pub use views::{Current, Previous};
