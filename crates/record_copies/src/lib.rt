//! Records of OBJECT types copied from packed words to packed words, with no row between: one by one to other widths, or many at once as they
//! stand; and records without STRING and BYTES, which are written and cleared at their places in any order.
#![tactic(auto)]

mod bytes;
mod cell;
mod column;
mod copy;
mod gap;
mod kinds;
pub mod laws;
mod part;
mod put;
mod record;
mod run;
mod source;

pub use copy::{copy_records, copy_rest, whole_words};
pub use gap::{are_clear, is_gap};
pub use kinds::is_fixed;
pub use put::{clear_record, put_record};
pub use record::{RecordPlace, copy_record};
pub use run::{Run, copy_run};
pub use source::{RecordSource, SectionRecords, WordRecords};
