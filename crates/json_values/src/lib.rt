//! Schemas, values of fields and values of keys from JSON.
#![tactic(auto)]

mod fault;
mod floats;
mod json_form;
mod key;
pub mod laws;
mod schema_from;
mod schema_shape;
mod schemas;
mod values;

pub use fault::{KeyFault, SchemasFault, ValueFault};
pub use key::{key_from, part_from};
pub use schema_shape::are_schemas;
pub use schemas::schemas_from;
pub use values::value_from;
