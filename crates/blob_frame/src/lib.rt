//! What stands in a blob, item by item: its items, its schemas and its header; the header written, and the laws of both.
#![tactic(auto)]

mod fault;
mod header;
pub mod laws;
mod writing;

pub use fault::BlobFault;
pub use header::{FORMAT, Header};
pub use writing::put_header;
