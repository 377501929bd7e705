//! The rows of LIST types as packed bits: read, tested, looked at where they stand, written and copied.
#![tactic(auto)]

mod copy;
mod elements;
mod faults;
pub mod laws;
mod list_rows;
mod packing;
mod row;

pub use copy::copy_list;
pub use elements::Elements;
pub use faults::Lists;
pub use list_rows::ListRows;
pub use packing::{elements_of, pack, put_row};
pub use row::read;
