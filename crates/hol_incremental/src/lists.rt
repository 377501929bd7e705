//! The lists of a change: aliases of the one list type.
use hol_varint::List;
use record_trees::Tree;
use row_model::Values;

/// Records, each with the index of its type.
pub type Records = List<(u32, Tree)>;

/// Primary keys, each with the index of its type.
pub type Keys = List<(u32, Values)>;
