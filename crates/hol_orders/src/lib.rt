//! The shapes of orders: what a line of a script asks for.
#![tactic(auto)]

mod added;
mod change_in_line;
mod cycle_in_line;
mod find_in_line;
mod json_parts;
mod kind;
pub mod laws;
mod order;
mod order_stop;
mod shapes;
mod states;

pub use added::Added;
pub use kind::Kind;
pub use order::{NextState, Order, OrderFault, OrderReader, StateChange, Versions, order_of};
pub use order_stop::OrderStop;
