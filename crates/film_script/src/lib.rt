//! The script of `make`: a model, and the records that each of its cycles adds.
#![tactic(auto)]

mod films;
pub mod laws;
mod schemas;

pub use films::{cycle_tag, is_shown};
pub use schemas::{FILM_TYPE, TAGS_TYPE, TEXT_TYPE, film_schemas};
