//! The rows of a type packed for a snapshot.
use hol_varint::List;
use row_model::Packed;
use row_packing::Chosen;

/// The rows of a type of a state as a snapshot has them: place `k` has the row under ordinal `k`, for each ordinal up to the max ordinal.
#[derive(Drop)]
pub struct PackedSection {
    /// What was chosen for the rows of the state and of the one before it.
    pub chosen: Chosen,
    /// The packed rows.
    pub packed: Packed,
}

/// A section of each type of a state, in model order.
pub type PackedSections = List<PackedSection>;
