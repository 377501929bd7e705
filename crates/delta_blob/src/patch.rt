//! A delta that was read against a model.
use hol_varint::List;
use type_rows::PatchSection;

/// What a delta changes of one type of a model.
#[derive(Debug, Drop)]
pub struct PatchPart {
    /// The index of the type in the model.
    pub type_index: u32,
    /// The offset of its schema in the blob, in bytes.
    pub at: u64,
    /// What changes of its rows, as the model's schema sees it.
    pub section: PatchSection,
}

/// What a delta changes of each type that it names and a model has, in the order of the blob.
pub type PatchParts = List<PatchPart>;

/// A delta that was read against a model.
#[derive(Debug, Drop)]
pub struct Patch {
    /// The tag of the state that it leads to.
    pub destination: i64,
    /// How many bytes the blob has.
    pub length: u64,
    /// The types that it names and the model has.
    pub parts: PatchParts,
}
