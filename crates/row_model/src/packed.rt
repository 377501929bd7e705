//! The packed rows of a type, and why a place holds none.
use crate::{Areas, Words};
use schema_model::Reason;
use std::alloc::{AllocError, AllocFailed};

/// The packed rows of a type: what a section of a blob holds besides its ordinals.
#[derive(Debug, Drop)]
pub struct Packed {
    /// The words of the records of an OBJECT, else those of the pointers.
    pub first: Words,
    /// The words of the elements or buckets; none for an OBJECT.
    pub second: Words,
    /// The variable bytes of each field of an OBJECT; none for the other kinds.
    pub areas: Areas,
}

/// Why the row at a place cannot be read.
#[derive(Debug, Drop)]
pub enum PlaceFault {
    /// The place spells no row.
    Bad(Reason),
    /// Memory was refused.
    Memory,
}

impl From<AllocError> for PlaceFault {
    ghost use Rattle.std.specs.Prelude.{◌≡◌};
    ghost use Rattle.row_model.specs.declared.packed.PlaceFault.TheVariants.{Memory};

    ghost from_gives = { λ error fault. fault ≡ Memory };

    fn from(error: AllocError) -> PlaceFault {
        PlaceFault::Memory
    }
}

impl<T: Drop> From<AllocFailed<T>> for PlaceFault {
    ghost use Rattle.std.specs.Prelude.{◌≡◌};
    ghost use Rattle.row_model.specs.declared.packed.PlaceFault.TheVariants.{Memory};

    ghost from_gives = { λ error fault. fault ≡ Memory };

    fn from(error: AllocFailed<T>) -> PlaceFault {
        PlaceFault::Memory
    }
}
