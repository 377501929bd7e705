//! Records with all that they refer to, from JSON and to JSON.
#![tactic(auto)]

mod forms;
mod keys;
pub mod laws;
mod leaves;
mod print_fault;
mod printed;
mod texts;
mod tree_parts;
mod tree_values;
mod trees;

pub use forms::{RecordForm, record_forms};
pub use print_fault::PrintFault;
pub use printed::tree_value;
pub use texts::put_tree;
pub use tree_values::value_tree;
pub use trees::tree_from;
