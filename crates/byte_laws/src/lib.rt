//! Laws of bytes: what a producer puts are bytes. Its functions state laws alone.
#![tactic(auto)]

pub mod laws;
