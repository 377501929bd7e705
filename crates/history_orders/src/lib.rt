//! The orders that keep older states of a consumer and ask of them: what each answers.
#![tactic(auto)]

mod history_order;
mod key_columns;
mod key_rows;
mod key_seek;
mod keyed;
mod left_rows;
mod number_scan;
mod record;
mod was_get_order;
mod was_order;

pub use history_order::history;
pub use was_get_order::was_get;
pub use was_order::was;
