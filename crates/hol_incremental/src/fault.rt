//! Why a change is not made.
ghost use Rattle.std.specs.Prelude.{◌≡◌};
ghost use Rattle.hol_incremental.specs.Faults.{fault_of_put};
ghost use Rattle.hol_incremental.specs.declared.fault.ChangeFault.TheVariants.{Memory as change_memory};

use ordinal_map::PutRowFault;
use std::alloc::{AllocError, AllocFailed};

/// Why a change is not made.
#[derive(Clone, Copy, Debug, PartialEq, Eq)]
pub enum ChangeFault {
    /// A row of the next state would get the ordinal 2^22.
    TooMany,
    /// Memory was refused.
    Memory,
}

impl From<AllocError> for ChangeFault {
    ghost from_gives = { λ _ e. e ≡ change_memory };

    fn from(_e: AllocError) -> ChangeFault {
        ChangeFault::Memory
    }
}

impl<T: Drop> From<AllocFailed<T>> for ChangeFault {
    ghost from_gives = { λ _ e. e ≡ change_memory };

    fn from(_e: AllocFailed<T>) -> ChangeFault {
        ChangeFault::Memory
    }
}

impl From<PutRowFault> for ChangeFault {
    ghost from_gives = { λ fault e. e ≡ fault_of_put fault };

    fn from(fault: PutRowFault) -> ChangeFault {
        match fault {
            PutRowFault::TooMany => ChangeFault::TooMany,
            PutRowFault::Memory => ChangeFault::Memory,
        }
    }
}
