//! Why a number or a text could not be read.

ghost use Rattle.std.specs.Prelude.{◌≡◌};
ghost use Rattle.hol_varint.specs.declared.fault.UtfFault.TheVariants.{Memory as utf_memory};
ghost use Rattle.hol_varint.specs.declared.fault.UnitsFault.TheVariants.{Memory as units_memory};

use std::alloc::{AllocError, AllocFailed};

/// Why the bytes at a place are no number of variable length.
#[derive(Clone, Copy, Debug, PartialEq, Eq)]
pub enum VarFault {
    /// The bytes end before the number does, however large it is by then.
    Short,
    /// The null, a first byte 80 hexadecimal, stands there.
    Null,
    /// A larger number is spelled there than the kind holds.
    Long,
}

/// Why the bytes at a place were not read as a Java UTF text.
#[derive(Debug, Drop)]
pub enum UtfFault {
    /// The bytes end before the length does, or before the text that it announces.
    Short,
    /// The announced bytes are there, and are the spelling of no units.
    BadName,
    /// Memory was refused.
    Memory,
}

impl From<AllocError> for UtfFault {
    ghost from_gives = { λ _ fault. fault ≡ utf_memory };

    fn from(_error: AllocError) -> UtfFault {
        UtfFault::Memory
    }
}

impl<T: Drop> From<AllocFailed<T>> for UtfFault {
    ghost from_gives = { λ _ fault. fault ≡ utf_memory };

    fn from(_error: AllocFailed<T>) -> UtfFault {
        UtfFault::Memory
    }
}

/// Why bytes were not read as those of a STRING.
#[derive(Debug, Drop)]
pub enum UnitsFault {
    /// The bytes are not one number below 2^16 after another.
    BadText,
    /// Memory was refused.
    Memory,
}

impl From<AllocError> for UnitsFault {
    ghost from_gives = { λ _ fault. fault ≡ units_memory };

    fn from(_error: AllocError) -> UnitsFault {
        UnitsFault::Memory
    }
}

impl<T: Drop> From<AllocFailed<T>> for UnitsFault {
    ghost from_gives = { λ _ fault. fault ≡ units_memory };

    fn from(_error: AllocFailed<T>) -> UnitsFault {
        UnitsFault::Memory
    }
}
