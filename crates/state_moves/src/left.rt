//! What the last step changed of each type, as rows that came and left.
use crate::past::{PastPart, part_at};
use row_model::{LeftRows, Row};
use std::alloc::{AllocError, Global};

/// What the last step changed of each type.
#[derive(Drop)]
pub struct Left<'a> {
    /// What it changed, in model order.
    pub parts: &'a [PastPart],
}

impl LeftRows for Left<'_> {
    ghost past = { λ left. left.parts.now };

    fn came(&self, type_index: u32) -> &[u32] {
        part_at(self.parts, type_index).came().as_slice()
    }

    fn gone(&self, type_index: u32) -> &[u32] {
        part_at(self.parts, type_index).gone().as_slice()
    }

    fn left(&self, alloc: Global, type_index: u32, index: usize) -> Result<Row, AllocError> {
        part_at(self.parts, type_index).rows().row(alloc, index)
    }
}
