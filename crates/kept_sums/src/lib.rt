//! What is kept of the rows of a type, so that what a writer chooses for them is read off: no row is looked at that neither comes nor goes.
#![tactic(auto)]

mod measuring;
mod part;
mod row_parts;
mod sums;
mod widths;

pub use measuring::measured;
pub use sums::Sums;
