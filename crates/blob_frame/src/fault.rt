//! Why a blob is refused.
use hol_io::{BlobName, StoreFailed};
use schema_model::{Limit, Name, Reason};
use std::alloc::{AllocError, AllocFailed};

/// Why a blob is refused.
#[derive(Debug, Drop)]
pub enum BlobFault {
    /// The store has no such name.
    NoBlob(BlobName),
    /// A counted number of the blob passes this limit.
    Large(Limit),
    /// The item at this offset cannot be read, or what it says breaks a rule, for this reason.
    Bad(u64, Reason),
    /// A row breaks a rule: the offset of its type's schema, the reason, the type and the ordinal.
    BadRow(u64, Reason, Name, u64),
    /// The blob starts from another state: the origin tag that was found, and the current tag.
    OtherOrigin(i64, i64),
    /// A schema of the blob does not agree with the current one of its name: the name of the type.
    OtherModel(Name),
    /// The store failed. It comes only where the store's count of faults rose in the call.
    Store,
    /// Memory was refused.
    Memory,
}

impl From<StoreFailed> for BlobFault {
    ghost use Rattle.std.specs.Prelude.{◌≡◌};
    ghost use Rattle.blob_frame.specs.declared.fault.BlobFault.TheVariants.{Store};

    ghost from_gives = { λ _ fault. fault ≡ Store };

    fn from(_failed: StoreFailed) -> BlobFault {
        BlobFault::Store
    }
}

impl From<AllocError> for BlobFault {
    ghost use Rattle.std.specs.Prelude.{◌≡◌};
    ghost use Rattle.blob_frame.specs.declared.fault.BlobFault.TheVariants.{Memory};

    ghost from_gives = { λ _ fault. fault ≡ Memory };

    fn from(_error: AllocError) -> BlobFault {
        BlobFault::Memory
    }
}

impl<T: Drop> From<AllocFailed<T>> for BlobFault {
    ghost use Rattle.std.specs.Prelude.{◌≡◌};
    ghost use Rattle.blob_frame.specs.declared.fault.BlobFault.TheVariants.{Memory};

    ghost from_gives = { λ _ fault. fault ≡ Memory };

    fn from(_error: AllocFailed<T>) -> BlobFault {
        BlobFault::Memory
    }
}
