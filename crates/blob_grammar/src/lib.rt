//! What a part of a blob is: where it stands, where reading it is stuck, and the few words that make one of others.
#![tactic(auto)]

mod kind;

pub use kind::{FieldType, SchemaKind, kind_of, type_of};
