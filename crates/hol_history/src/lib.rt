//! Old states of a consumer, kept by what each step took away.
#![tactic(auto)]

mod history;
pub mod laws;
mod old_state;
mod part;
mod spots;
mod step;

pub use history::History;
pub use old_state::Then;
pub use part::Part;
