//! The program behind its edge: the words of a command line, the commands, and their answer lines.
#![tactic(auto)]

mod answer;
mod head;
pub mod laws;
mod program;
mod row_lines;
mod show;
mod stop;
mod words;

pub use hollow_make::{Progress, Silent};
pub use hollow_script::Keep;
pub use program::run;
pub use words::{Command, command_of};
