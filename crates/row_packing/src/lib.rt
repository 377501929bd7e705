//! What a writer of blobs chooses and packs for one type of two states.
#![tactic(auto)]

mod chosen;
pub mod laws;
mod limit;
mod live;
mod measured;
mod ordinal_rows;
mod packed;
mod places;

pub use chosen::{Chosen, choose, greatest_ordinal};
pub use limit::limit_of;
pub use live::{live_ordinals, live_set};
pub use measured::{Held, Measured, measure};
pub use ordinal_rows::OrdinalRows;
pub use packed::{delta_rows, snapshot_rows};
