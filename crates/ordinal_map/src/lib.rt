//! Which ordinal a row of a type gets: rows are found again, and each new one gets the least free number.
#![tactic(auto)]

mod changes;
mod fault;
mod kept_rows;
mod map;
mod row_chains;

pub use fault::{PutRowFault, RestoreRowFault};
pub use map::OrdinalMap;
