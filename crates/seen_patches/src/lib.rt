//! The part of a type in a delta, seen by a consumer whose schema of the type has other fields.
#![tactic(auto)]

mod column;
mod columns;
pub mod laws;
mod named_fields;
mod section;
mod words;

pub use section::seen_section;
