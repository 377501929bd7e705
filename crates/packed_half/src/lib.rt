//! The rows of a type in the packed words of one half: how many words they take, what stands in them, and how they are laid out there.
#![tactic(auto)]

mod bytes;
mod cut;
mod half;
pub mod laws;
mod laying;
mod lists;
mod lookup;
mod new_rows;
mod records;
mod rows;
mod runs;
mod same;

pub use bytes::put_areas;
pub use half::{HalfShape, bytes_of_half, words_of_half};
pub use laying::lay_out;
pub use lists::{elements_in, put_elements};
pub use new_rows::NewRows;
pub use rows::HalfRows;
pub use runs::put_run;
