//! The order `change`: the next state of a producer, by the records that are put and the keys of those that are removed.
#![tactic(auto)]

mod change_order;
mod given_types;
mod keyed_records;
mod line_records;
mod put_records;
mod removed_keys;

pub use change_order::change;
