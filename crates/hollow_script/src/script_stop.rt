//! Why a script ends before its input does.
use hol_io::{LineFault, WriteFailed};
use hol_orders::OrderStop;
use std::alloc::AllocError;

/// Why a script ends before all lines of its input are answered.
#[derive(Debug, Clone, Copy, PartialEq, Eq)]
pub enum ScriptStop {
    /// Memory was refused.
    Memory,
    /// The source failed. It comes only where the source's count of faults rose.
    Source,
    /// The sink failed. It comes only where the sink's count of faults rose.
    Sink,
    /// The store failed. It comes only where the store's count of faults rose.
    Store,
    /// A byte past the longest input came.
    TooLong,
}

impl From<AllocError> for ScriptStop {
    ghost use Rattle.std.specs.Prelude.{◌≡◌};
    ghost use Rattle.hollow_script.specs.declared.script_stop.ScriptStop.TheVariants.{Memory};

    ghost from_gives = { λ _ stop. stop ≡ Memory };

    fn from(_error: AllocError) -> ScriptStop {
        ScriptStop::Memory
    }
}

impl From<WriteFailed> for ScriptStop {
    ghost use Rattle.std.specs.Prelude.{◌≡◌};
    ghost use Rattle.hollow_script.specs.declared.script_stop.ScriptStop.TheVariants.{Sink};

    ghost from_gives = { λ _ stop. stop ≡ Sink };

    fn from(_failed: WriteFailed) -> ScriptStop {
        ScriptStop::Sink
    }
}

impl From<LineFault> for ScriptStop {
    ghost use Rattle.std.specs.Prelude.{◌≡◌, ◌⊎◌};
    ghost use Rattle.hol_io.specs.declared.lines.LineFault.TheVariants.{Read};
    ghost use Rattle.hollow_script.specs.declared.script_stop.ScriptStop.TheVariants.{Memory, Source};

    ghost from_gives = { λ fault stop. (stop ≡ Source → fault ≡ Read) × ((stop ≡ Source) ⊎ (stop ≡ Memory)) };

    fn from(fault: LineFault) -> ScriptStop {
        match fault {
            LineFault::Read => ScriptStop::Source,
            LineFault::Memory => ScriptStop::Memory,
        }
    }
}

impl From<OrderStop> for ScriptStop {
    ghost use Rattle.std.specs.Prelude.{◌≡◌};
    ghost use Rattle.hollow_script.specs.Scripted.{widened};

    ghost from_gives = { λ stop script_stop. script_stop ≡ widened stop };

    fn from(stop: OrderStop) -> ScriptStop {
        match stop {
            OrderStop::Memory => ScriptStop::Memory,
            OrderStop::Store => ScriptStop::Store,
        }
    }
}
