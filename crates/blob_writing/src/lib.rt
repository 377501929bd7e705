//! Writing blobs: the snapshot of a state, the delta between two, and the bytes of a type in each, behind the header within the limit of a blob.
#![tactic(auto)]

mod changed;
mod delta;
mod fault;
mod head;
mod header;
mod items;
pub mod laws;
mod ordinals;
mod packed;
mod plan;
mod shared;
mod snapshot;
mod types;

pub use delta::write_delta;
pub use fault::WriteFault;
pub use head::put_type_head;
pub use items::put_max;
pub use ordinals::put_ordinals;
pub use packed::put_packed;
pub use plan::{Live, Plan};
pub use snapshot::write_snapshot;
pub use types::{put_delta_type, put_snapshot_type};
