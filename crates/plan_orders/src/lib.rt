//! The orders that lead a consumer to a version along the fewest blobs: `plan` shows them, and `goto` applies them.
#![tactic(auto)]

mod goto_order;
mod plan_order;
mod planned;

pub use goto_order::goto;
pub use plan_order::plan;
