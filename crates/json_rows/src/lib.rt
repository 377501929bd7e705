//! Stored rows in JSON.
#![tactic(auto)]

mod digits;
mod field;
mod form;
pub mod laws;
mod line;
mod order;
mod plain;
mod standing;
mod stored;
mod value;

pub use field::put_field_of;
pub use form::{LineForm, record_leads};
pub use line::{put_ordinals, put_row_line};
pub use standing::{Standing, TypeLines, type_lines};
pub use stored::{leaf_value, row_value};
