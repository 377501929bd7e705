//! Laws of what a consumer takes: what is not taken has a fault. Its functions state laws alone.
#![tactic(auto)]

pub mod laws;
