//! Changes of a producer's state: records are put, each in the place of the one that has its primary key, and others are removed by theirs. It costs by what
//! changes: rows that nobody names any longer leave, by counts that are kept of who names a row how often.
#![tactic(auto)]

mod counting;
mod counts;
mod drops;
mod edits;
mod fault;
mod key_indexes;
mod key_paths;
pub mod laws;
mod leaving;
mod lists;
mod measuring;
mod plain_rows;
mod primary;
mod putting;
mod references;
mod row_set;
mod tally;
mod tree_key;

pub use edits::Edits;
pub use fault::ChangeFault;
pub use lists::{Keys, Records};
pub use primary::{primary_key, record_key};
