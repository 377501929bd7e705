//! The rows of types packed for a snapshot, kept for that of the next state, where only the places of rows that left or came are written.
#![tactic(auto)]

pub mod laws;
mod moved;
mod section;
mod sections;

pub use section::{PackedSection, PackedSections};
pub use sections::{section_of, sections_of};
