//! Rows that are looked at where they stand packed, type by type: a field of all records, the lists, the sets and maps; and by
//! them closedness, and whether a type has the same rows in two states. `TypeRows` and `TypeColumns` are the rows of a type as
//! others see them.
#![tactic(auto)]

mod closed;
mod dangling;
mod fields;
mod items;
mod looked;
mod made;
mod rows;
mod runs;
mod same;
mod same_items;
mod same_values;
mod state_rows;
mod type_rows;
mod values;

pub use closed::{are_closed, are_closed_at};
pub use dangling::{dangling_in, first_dangling};
pub use items::PackedItems;
pub use made::column_of;
pub use rows::ColumnRows;
pub use same::are_same;
pub use state_rows::{RowsByType, StateRows};
pub use type_rows::{OneType, TypeColumns, TypeRows};
pub use values::{field_value, value_in};
