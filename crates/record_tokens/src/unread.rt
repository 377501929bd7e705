//! Why no record is read.
use std::alloc::AllocError;

/// Why no record is read from its tokens.
#[derive(Clone, Copy, PartialEq, Eq)]
pub(crate) enum Unread {
    /// It is no record of its type, or has a STRING that is an array of units.
    Other,
    /// Memory was refused.
    Memory,
}

impl From<json::Invalid> for Unread {
    ghost use Rattle.record_tokens.specs.declared.unread.Unread.TheVariants.{Other};
    ghost use Rattle.std.specs.Prelude.{◌≡◌};

    ghost from_gives = { λ _ fault. fault ≡ Other };

    fn from(_invalid: json::Invalid) -> Unread {
        Unread::Other
    }
}

impl From<AllocError> for Unread {
    ghost use Rattle.record_tokens.specs.declared.unread.Unread.TheVariants.{Memory};
    ghost use Rattle.std.specs.Prelude.{◌≡◌};

    ghost from_gives = { λ _ fault. fault ≡ Memory };

    fn from(_error: AllocError) -> Unread {
        Unread::Memory
    }
}
