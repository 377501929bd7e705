//! Laws of answers: an order has one. Its functions state laws alone.
#![tactic(auto)]

pub mod laws;
