//! Why a walk index is not made, or not kept.
use std::alloc::AllocError;

/// Why a walk index cannot be made, or not be kept over a step.
#[derive(Debug, Drop)]
pub enum WalkFault {
    /// It would have more than 2^22 entries.
    Entries,
    /// Memory was refused.
    Memory,
}

impl From<AllocError> for WalkFault {
    ghost use Rattle.std.specs.Prelude.{◌≡◌};
    ghost use Rattle.hol_paths.specs.declared.fault.WalkFault.TheVariants.{Memory};

    ghost from_gives = { λ _ fault. fault ≡ Memory };

    fn from(_error: AllocError) -> WalkFault {
        WalkFault::Memory
    }
}
