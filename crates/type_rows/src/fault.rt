//! Why the rows of a type are refused.
ghost use Rattle.std.specs.Prelude.{◌≡◌};
ghost use Rattle.type_rows.specs.declared.fault.RowFault.TheVariants.{Memory as row_memory};

use schema_model::{Limit, Reason};
use std::alloc::{AllocError, AllocFailed};

/// Why the rows of a type are refused.
#[derive(Clone, Copy, Debug, PartialEq, Eq)]
pub enum RowFault {
    /// The ordinal fails for this reason.
    At(Reason, u64),
    /// The rows pass this limit.
    Limit(Limit),
    /// Memory was refused.
    Memory,
}

impl From<AllocError> for RowFault {
    ghost from_gives = { λ _ fault. fault ≡ row_memory };

    fn from(_error: AllocError) -> RowFault {
        RowFault::Memory
    }
}

impl<T: Drop> From<AllocFailed<T>> for RowFault {
    ghost from_gives = { λ _ fault. fault ≡ row_memory };

    fn from(_error: AllocFailed<T>) -> RowFault {
        RowFault::Memory
    }
}
