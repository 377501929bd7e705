//! The orders that move a producer: what each answers, and what it leaves of the store and of the producer.
#![tactic(auto)]

mod asked;
mod cycle_end;
mod cycle_order;
mod films;
mod follow;
mod grow_order;
mod line_records;
mod make;
mod model_order;
mod record_fault;
mod records;
mod types;

pub use cycle_end::CycleEnd;
pub use cycle_order::{check_follow, cycle, end_cycle, film_cycle};
pub use grow_order::grow;
pub use model_order::model;
pub use types::{unknown_among, unknown_type};
