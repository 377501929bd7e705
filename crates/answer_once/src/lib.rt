//! Laws of answers: there is just one. Its functions state laws alone.
#![tactic(auto)]

pub mod laws;
