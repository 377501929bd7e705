//! Scripts: the orders of an input are answered one after another.
#![tactic(auto)]

mod asked;
mod keep;
mod order;
mod script;
mod script_stop;
mod waiting;

pub use keep::Keep;
pub use script::run_script;
pub use script_stop::ScriptStop;
