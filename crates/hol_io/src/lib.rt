//! The outside of the program: a source and a sink of bytes and a store of named blobs, as traits
//! whose faults are counted.
#![tactic(auto)]

mod lines;
mod name;
mod sink;
mod source;
mod steps;
mod store;
mod window;

pub use lines::{LineFault, Lines, Turn};
pub use name::{BlobName, name_text, parse_name, parse_version};
pub use sink::{Sink, WriteFailed, write_all};
pub use source::{ReadFailed, Source};
pub use steps::Steps;
pub use store::{BlobStore, PutFault, StoreFailed};
