//! The records of a cycle or a change, one after another, and the parts of a look-up, from the tokens of their line.
#![tactic(auto)]

mod change_line;
mod cycle_line;
mod find_line;
mod held;
mod holder;
mod listing;
mod number;
mod opening;
mod parts;
mod passing;
mod plain_find;
mod plain_line;
mod read_fault;
mod record;
mod record_line;
mod value;

pub use change_line::{ChangeParts, split_change};
pub use cycle_line::{CycleParts, split_cycle};
pub use find_line::{FindParts, split_find};
pub use number::parse_number;
pub use plain_line::{PlainLine, split_plain};
pub use record::{RECORD_DEPTH, next_record, pass_records};
pub use record_line::RecordLine;
