//! A cursor over a blob of a store, and what it reads: the items of the blob, its schemas and its header.
#![tactic(auto)]

mod cursor;
mod items;
mod opening;
mod readable;
mod reading;
mod schema;
mod texts;
mod varints;

pub use cursor::Cursor;
pub use opening::opened;
pub use readable::{Readable, counted};
