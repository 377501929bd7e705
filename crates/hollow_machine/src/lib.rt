//! What a script of orders means: the machine that lines move, and what it answers. Its functions state laws alone.
#![tactic(auto)]

pub mod laws;
