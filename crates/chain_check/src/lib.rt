//! A check of a chain: a walk along deltas is compared, version by version, with the states of the snapshots.
#![tactic(auto)]

mod checking;
mod comparing;
pub mod laws;
mod models;
mod place;
mod states;
mod walk;

pub use checking::{CheckFault, check};
pub use comparing::compare;
pub use models::first_other_type;
pub use place::{Place, RowPlace};
pub use states::{first_other_row, first_other_seen};
pub use walk::Walk;
