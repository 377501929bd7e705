//! Numbers and texts as bytes, and the lists of numbers that the layers above pass on.
#![tactic(auto)]

mod fault;
mod java_utf;
pub mod laws;
mod list;
mod numbers;
mod text_units;
mod varint;
mod zigzag;

pub use fault::{UnitsFault, UtfFault, VarFault};
pub use java_utf::{get_utf, put_utf};
pub use list::{Duplicate, List};
pub use numbers::{GapList, Octets, Ordinals, Units};
pub use text_units::{get_units, put_units, text_of, units_len, units_of};
pub use varint::{get_vint, get_vlong, put_vint, put_vlong};
pub use zigzag::{unzigzag32, unzigzag64, zigzag32, zigzag64};
