//! The orders that read the blobs of a chain with consumers of their own: `restore` and `check`.
#![tactic(auto)]

mod announced;
mod check_order;
mod restore_order;

pub use check_order::check;
pub use restore_order::restore;
