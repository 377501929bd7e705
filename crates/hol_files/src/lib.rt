//! The outside as the program has it: a folder of files as a store of blobs, standard input as a source and standard output as a sink.
#![tactic(auto)]

mod folder;
mod fronts;
mod streams;

pub use folder::FolderStore;
pub use streams::{StdIn, StdOut};
