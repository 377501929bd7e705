//! The orders that look through collections: what each answers, and what it leaves of the consumer.
#![tactic(auto)]

mod end_value;
mod walk_find_order;
mod walk_index_order;
mod walk_way;

pub use walk_find_order::walk_find;
pub use walk_index_order::walk_index;
