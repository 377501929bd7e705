//! The rows of one type, packed in the words of two halves: those of its current state, and beside them those of the state before or of the next one.
#![tactic(auto)]

mod added;
mod change;
mod columns;
mod coming;
mod copied_rows;
mod counting;
mod differences;
mod field_bytes;
mod fixed_moves;
mod held;
mod kept_records;
mod kept_runs;
mod leaving;
mod left_differences;
mod live;
mod loading;
mod moved_rows;
mod moving;
mod old_copies;
mod old_records;
mod old_rows;
mod packed_rows;
mod planning;
mod section_rows;
mod state;
mod states;
mod staying;
mod tight;
mod turning;
mod views;

pub use old_rows::OldRows;
pub use packed_rows::PackedRows;
pub use state::TypeState;
pub use states::{TypeStates, state_at};
pub use views::{NextRows, NextTypes, next_of};
