//! The records of OBJECT types as packed bits and bytes: read, tested, looked at where they stand, value by value, and written.
#![tactic(auto)]

mod bytes;
mod column;
mod encoded;
mod end_offset;
mod fixed;
pub mod laws;
mod packing;
mod part;
mod record;
mod sound;
mod spans;
mod stored;
mod text;
mod value;
mod value_ref;

pub use bytes::PackedBytes;
pub use column::Column;
pub use end_offset::EndOffset;
pub use packing::{no_bytes, pack, put_row};
pub use part::{Part, read_part};
pub use record::read;
pub use sound::{first_fault, is_free};
pub use stored::{has_bytes, stored_number, value_bytes, values_of};
pub use value_ref::ValueRef;
