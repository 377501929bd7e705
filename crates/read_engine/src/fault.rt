//! Why a consumer keeps no index, or no walk index.
use hol_paths::WalkFault;
use std::alloc::{AllocError, AllocFailed};

/// Why a consumer keeps no index.
#[derive(Debug, Drop)]
pub enum IndexFault {
    /// It is not kept, and there are as many others as may be.
    TooMany,
    /// Memory was refused.
    Memory,
}

impl From<AllocError> for IndexFault {
    ghost use Rattle.std.specs.Prelude.{◌≡◌};
    ghost use Rattle.read_engine.specs.declared.fault.IndexFault.TheVariants.{Memory};

    ghost from_gives = { λ error fault. fault ≡ Memory };

    fn from(_error: AllocError) -> IndexFault {
        IndexFault::Memory
    }
}

/// Why a consumer keeps no walk index.
#[derive(Debug, Drop)]
pub enum WalkIndexFault {
    /// It is not kept, and there are as many others as may be.
    TooMany,
    /// It would have more than 2^22 entries.
    Entries,
    /// Memory was refused.
    Memory,
}

impl<T: Drop> From<AllocFailed<T>> for IndexFault {
    ghost use Rattle.std.specs.Prelude.{◌≡◌};
    ghost use Rattle.read_engine.specs.declared.fault.IndexFault.TheVariants.{Memory};

    ghost from_gives = { λ error fault. fault ≡ Memory };

    fn from(_error: AllocFailed<T>) -> IndexFault {
        IndexFault::Memory
    }
}

impl From<WalkFault> for WalkIndexFault {
    ghost use Rattle.std.specs.Prelude.{◌≡◌};
    ghost use Rattle.read_engine.specs.Walks.{of_walk};

    ghost from_gives = { λ error fault. fault ≡ of_walk error };

    fn from(error: WalkFault) -> WalkIndexFault {
        match error {
            WalkFault::Entries => WalkIndexFault::Entries,
            WalkFault::Memory => WalkIndexFault::Memory,
        }
    }
}

impl From<AllocError> for WalkIndexFault {
    ghost use Rattle.std.specs.Prelude.{◌≡◌};
    ghost use Rattle.read_engine.specs.declared.fault.WalkIndexFault.TheVariants.{Memory};

    ghost from_gives = { λ error fault. fault ≡ Memory };

    fn from(_error: AllocError) -> WalkIndexFault {
        WalkIndexFault::Memory
    }
}
