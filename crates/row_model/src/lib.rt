//! Values, rows and the tables that they stand in: what the types of a model hold, and what it means.
#![tactic(auto)]

mod left_rows;
mod lent;
mod lists;
mod packed;
mod parts;
mod placed_rows;
mod row;
mod rows;

pub use left_rows::LeftRows;
pub use lent::{LentRow, row_of_place};
pub use lists::{Areas, Pairs, Places, Values, Widths, Words};
pub use packed::{Packed, PlaceFault};
pub use parts::{Parts, area_byte, area_size};
pub use placed_rows::PlacedRows;
pub use row::{Row, Value};
pub use rows::Rows;
