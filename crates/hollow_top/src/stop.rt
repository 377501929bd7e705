//! Why a command stops before its answer is written.
use hol_io::WriteFailed;
use hol_orders::OrderStop;
use std::alloc::AllocError;

/// Why a command stops before its answer is written whole.
#[derive(Debug, Clone, Copy, PartialEq, Eq)]
pub enum Stop {
    /// Memory was refused.
    Memory,
    /// The sink failed. It comes only where the sink's count of faults rose.
    Sink,
    /// The store failed. It comes only where the store's count of faults rose.
    Store,
}

impl From<AllocError> for Stop {
    ghost use Rattle.std.specs.Prelude.{◌≡◌};
    ghost use Rattle.hollow_top.specs.declared.stop.Stop.TheVariants.{Memory};

    ghost from_gives = { λ _ stop. stop ≡ Memory };

    fn from(_error: AllocError) -> Stop {
        Stop::Memory
    }
}

impl From<WriteFailed> for Stop {
    ghost use Rattle.std.specs.Prelude.{◌≡◌};
    ghost use Rattle.hollow_top.specs.declared.stop.Stop.TheVariants.{Sink};

    ghost from_gives = { λ _ stop. stop ≡ Sink };

    fn from(_failed: WriteFailed) -> Stop {
        Stop::Sink
    }
}

impl From<OrderStop> for Stop {
    ghost use Rattle.std.specs.Prelude.{◌≡◌};
    ghost use Rattle.hollow_top.specs.Stopping.{stop_of};

    ghost from_gives = { λ stopped stop. stop ≡ stop_of stopped };

    fn from(stopped: OrderStop) -> Stop {
        match stopped {
            OrderStop::Memory => Stop::Memory,
            OrderStop::Store => Stop::Store,
        }
    }
}
