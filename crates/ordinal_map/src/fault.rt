//! Why a row is not put, and why one is not restored.
ghost use Rattle.std.specs.Prelude.{◌≡◌};
ghost use Rattle.ordinal_map.specs.declared.fault.PutRowFault.TheVariants.{Memory as row_memory};
ghost use Rattle.ordinal_map.specs.declared.fault.RestoreRowFault.TheVariants.{Memory as restore_memory};

use std::alloc::AllocError;

/// Why a row is not put.
#[derive(Clone, Copy, Debug, PartialEq, Eq)]
pub enum PutRowFault {
    /// Its ordinal would be 2^22.
    TooMany,
    /// Memory was refused.
    Memory,
}

impl From<AllocError> for PutRowFault {
    ghost from_gives = { λ _ e. e ≡ row_memory };

    fn from(_e: AllocError) -> PutRowFault {
        PutRowFault::Memory
    }
}

/// Why a row is not restored.
#[derive(Clone, Copy, Debug, PartialEq, Eq)]
pub enum RestoreRowFault {
    /// This ordinal has the row.
    Equal(u32),
    /// Memory was refused.
    Memory,
}

impl From<AllocError> for RestoreRowFault {
    ghost from_gives = { λ _ e. e ≡ restore_memory };

    fn from(_e: AllocError) -> RestoreRowFault {
        RestoreRowFault::Memory
    }
}
