//! Resolved walk paths: key paths that go through lists, sets and maps too.
use crate::WalkParts;
use hol_varint::Duplicate;
use std::alloc::{AllocError, Global};

/// A part of a walk path: what it goes through in a row.
#[derive(Clone, Copy, Debug, PartialEq, Eq)]
pub enum WalkPart {
    /// The field of this index, of an OBJECT.
    Field(u32),
    /// Each element of a LIST or a SET.
    Element,
    /// Each key of a MAP.
    MapKey,
    /// Each value of a MAP.
    MapValue,
}

impl Duplicate for WalkPart {
    fn copy(&self, alloc: Global) -> Result<WalkPart, AllocError> {
        Ok(*self)
    }
}

/// A way from the rows of a type, of any kind, to values: a row may reach many.
#[derive(Debug, Drop)]
pub struct WalkPath {
    /// The index of the type at which it begins.
    pub type_index: u32,
    /// The parts that it goes through, each in the type that the one before leads to.
    pub parts: WalkParts,
}

impl Duplicate for WalkPath {
    fn copy(&self, alloc: Global) -> Result<WalkPath, AllocError> {
        Ok(WalkPath {
            type_index: self.type_index,
            parts: self.parts.copy(alloc)?,
        })
    }
}
