//! Records with all that they refer to, straight from the tokens of a line.
#![tactic(auto)]

mod keys;
mod leaf;
mod next;
mod row;
mod tree;
mod unread;

pub use next::{NextTree, NextWhole, Record, next_tree, next_whole};
