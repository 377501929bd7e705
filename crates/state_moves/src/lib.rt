//! The types of a state over a step: the parts of a delta move them, and the rows that come, those now and those before are looked at by type
//! and ordinal.
#![tactic(auto)]

mod before;
mod closing;
mod coming;
pub mod laws;
mod left;
mod moved;
mod moving;
mod next_state;
mod now;
mod past;
mod turning;

pub use before::{Before, RowsBefore, TypesBefore, before_of};
pub use coming::{Coming, ComingTypes, coming_of};
pub use left::Left;
pub use moved::{Moved, NamedTypes};
pub use next_state::move_state;
pub use now::{CurrentTypes, Now, has_same_rows_in, now_of};
pub use past::{PastPart, PastParts, no_past, part_at};
pub use turning::{flip_all, flip_named};
