//! Answers and refusals: the JSON object of each, and its line.
#![tactic(auto)]

mod faults;
pub mod laws;
mod line;
mod member;
mod ordinals_line;
mod plain;
mod refusal;
mod refusal_json;
mod reply;
mod reply_json;
mod stat;
mod to_json;

pub use faults::blob_refusal;
pub use line::put_line;
pub use plain::PlainValue;
pub use refusal::{
    Difference, EqualKeys, EqualRows, ItemFault, MAX_LINE_BYTES, OriginFault, Refusal,
    RefusedRecord, RowPlace,
};
pub use reply::{Blobs, Change, Made, PastRows, Progress, Reply, put_reply, reply_line};
pub use stat::{TypeCounts, TypesCounts};
