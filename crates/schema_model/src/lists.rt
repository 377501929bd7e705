//! The lists of the model's parts: aliases of the one list type.
use crate::{Field, Name, Path, Schema, WalkPart};
use hol_varint::List;

/// Names, or the key paths of a type, in their order.
pub type Names = List<Name>;

/// Pairs of texts: the tags of a header, each a key and its value.
pub type NamePairs = List<(Name, Name)>;

/// The fields of a type, in the order of the schema.
pub type Fields = List<Field>;

/// Schemas, in the order of a model or of a blob.
pub type Schemas = List<Schema>;

/// Resolved paths, in the order in which they were asked for.
pub type Paths = List<Path>;

/// The parts of a walk path, in the order in which it goes through them.
pub type WalkParts = List<WalkPart>;
