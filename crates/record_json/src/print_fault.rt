//! Why a row is not printed.
use std::alloc::{AllocError, AllocFailed};

/// Why a row with all that it refers to is not printed.
#[derive(Debug, Drop)]
pub enum PrintFault {
    /// It has more nodes than may be spent.
    Nodes,
    /// Memory was refused.
    Memory,
}

impl From<AllocError> for PrintFault {
    ghost use Rattle.std.specs.Prelude.{◌≡◌};
    ghost use Rattle.record_json.specs.declared.print_fault.PrintFault.TheVariants.{Memory};

    ghost from_gives = { λ error fault. fault ≡ Memory };

    fn from(error: AllocError) -> PrintFault {
        PrintFault::Memory
    }
}

impl<T: Drop> From<AllocFailed<T>> for PrintFault {
    ghost use Rattle.std.specs.Prelude.{◌≡◌};
    ghost use Rattle.record_json.specs.declared.print_fault.PrintFault.TheVariants.{Memory};

    ghost from_gives = { λ error fault. fault ≡ Memory };

    fn from(error: AllocFailed<T>) -> PrintFault {
        PrintFault::Memory
    }
}
