//! Where two states differ.
use schema_model::Name;

/// Where two states differ: by their tags, by a type or by a row.
#[derive(Debug, Drop)]
pub struct Place {
    /// The name of the type; none where the tags differ.
    pub type_name: Option<Name>,
    /// The ordinal of the row; none where the tags or the types differ.
    pub ordinal: Option<u32>,
}

/// The place of a row.
#[derive(Clone, Copy, Debug, PartialEq, Eq)]
pub struct RowPlace {
    /// The type of the row.
    pub type_index: u32,
    /// The ordinal of the row.
    pub ordinal: u32,
}
