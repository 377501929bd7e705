//! The orders that move a consumer or ask it: what each answers, and what it leaves of the consumer.
#![tactic(auto)]

mod at_order;
mod find_order;
mod get_order;
mod has_order;
mod index_order;
pub mod key_paths;
mod live_order;
mod load_order;
mod look_up;
mod named_index;
mod past_order;
mod row_order;
mod stat_order;
mod step_order;
pub mod type_order;

pub use at_order::at;
pub use find_order::find;
pub use get_order::get;
pub use has_order::has;
pub use index_order::index;
pub use live_order::live;
pub use load_order::load;
pub use past_order::past;
pub use row_order::row;
pub use stat_order::stat;
pub use step_order::{apply, step};
