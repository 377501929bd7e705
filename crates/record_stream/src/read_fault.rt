//! Why a value is not read.
use std::alloc::{AllocError, AllocFailed};

/// Why a value is not read.
#[derive(Clone, Copy, PartialEq, Eq)]
pub(crate) enum ReadFault {
    /// The tokens do not begin with a value, or it is nested too deep, or a number in it is out of range.
    Invalid,
    /// Memory was refused.
    Memory,
}

impl From<json::Invalid> for ReadFault {
    ghost use Rattle.record_stream.specs.declared.read_fault.ReadFault.TheVariants.{Invalid};
    ghost use Rattle.std.specs.Prelude.{◌≡◌};

    ghost from_gives = { λ _ fault. fault ≡ Invalid };

    fn from(_invalid: json::Invalid) -> ReadFault {
        ReadFault::Invalid
    }
}

impl From<AllocError> for ReadFault {
    ghost use Rattle.record_stream.specs.declared.read_fault.ReadFault.TheVariants.{Memory};
    ghost use Rattle.std.specs.Prelude.{◌≡◌};

    ghost from_gives = { λ _ fault. fault ≡ Memory };

    fn from(_error: AllocError) -> ReadFault {
        ReadFault::Memory
    }
}

impl<T: Drop> From<AllocFailed<T>> for ReadFault {
    ghost use Rattle.record_stream.specs.declared.read_fault.ReadFault.TheVariants.{Memory};
    ghost use Rattle.std.specs.Prelude.{◌≡◌};

    ghost from_gives = { λ _ fault. fault ≡ Memory };

    fn from(_failed: AllocFailed<T>) -> ReadFault {
        ReadFault::Memory
    }
}
