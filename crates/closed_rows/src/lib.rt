//! Closedness: the first row that names one that is not live.
#![tactic(auto)]

mod dangling;

pub use dangling::{Dangling, dangling_in, is_closed_at, is_plain_type};
