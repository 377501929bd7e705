//! Resolved key paths.
use hol_varint::{Duplicate, Ordinals};
use std::alloc::{AllocError, Global};

/// A way from the records of a type along their fields to a value.
#[derive(Debug, Drop)]
pub struct Path {
    /// The index of the type at which it begins.
    pub type_index: u32,
    /// The indexes of the fields that it goes through, each in the type that the one before leads to.
    pub fields: Ordinals,
}

impl Duplicate for Path {
    fn copy(&self, alloc: Global) -> Result<Path, AllocError> {
        Ok(Path {
            type_index: self.type_index,
            fields: self.fields.copy(alloc)?,
        })
    }
}
