//! Laws of chains: the store of a run holds a chain, which each line leaves as it is or makes longer by a state. Its functions state laws
//! alone.
#![tactic(auto)]

pub mod laws;
