//! Names, schemas and models, paths, the limits and the reasons: the vocabulary of the layers above, and what it means.
#![tactic(auto)]

mod limit;
mod lists;
mod model;
mod reason;
mod schema;

pub use limit::{
    Limit, MAX_BLOB_BYTES, MAX_BYTES, MAX_DEPTH, MAX_ENTRIES, MAX_FIELDS, MAX_INDEXES, MAX_ITEMS,
    MAX_NAME_BYTES, MAX_NODES, MAX_ORDINALS, MAX_TYPES, MAX_WALKS, MAX_WORDS,
};
pub use lists::{Fields, NamePairs, Names, Paths, Schemas, WalkParts};
pub use model::Model;
pub use model::faults::{ModelFault, PathFault};
pub use model::name_index::{NameIndex, find_name};
pub use model::path::Path;
pub use model::rule::Rule;
pub use model::walk_path::{WalkPart, WalkPath};
pub use reason::Reason;
pub use schema::name::Name;
pub use schema::{Field, FieldKind, Schema, Shape};
