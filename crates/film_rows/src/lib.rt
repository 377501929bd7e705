//! The films of the script of `make` are put into a cycle as rows, each of which is made once.
#![tactic(auto)]

mod adding;
mod rows;

pub use adding::FilmRows;
