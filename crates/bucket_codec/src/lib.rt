//! The rows of SET and MAP types as packed bits, hash buckets: read, tested, looked up where they stand, and written.
#![tactic(auto)]

mod bucket_rows;
mod buckets;
mod copied;
mod fill;
mod found;
mod hash;
pub mod laws;
mod lookup;
mod packing;
mod pairs;
mod place;
mod reached;
mod row;
mod run;
mod test;
mod tested;

pub use bucket_rows::BucketRows;
pub use buckets::Buckets;
pub use copied::copy_buckets;
pub use hash::{buckets_for, buckets_for_any, hash_int};
pub use lookup::{at, has};
pub use packing::{pack, put_row, size_of};
pub use row::read;
