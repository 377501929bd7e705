//! Laws of what is written: it is read back as the state, and a delta moves the old state to the new one. Its functions state laws alone.
#![tactic(auto)]

pub mod laws;
