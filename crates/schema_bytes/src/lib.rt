//! Schemas as the bytes of a blob.
#![tactic(auto)]

pub mod laws;
mod put;

pub use put::put_schema;
