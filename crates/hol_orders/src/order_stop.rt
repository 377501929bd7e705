//! Why an order stops before it is answered.
use hol_io::{PutFault, StoreFailed};
use std::alloc::AllocError;

/// Why an order stops before it is answered.
#[derive(Debug, Clone, Copy, PartialEq, Eq)]
pub enum OrderStop {
    /// Memory was refused.
    Memory,
    /// The store failed. It comes only where the store's count of faults rose.
    Store,
}

impl From<AllocError> for OrderStop {
    ghost use Rattle.std.specs.Prelude.{◌≡◌};
    ghost use Rattle.hol_orders.specs.declared.order_stop.OrderStop.TheVariants.{Memory};

    ghost from_gives = { λ _ stop. stop ≡ Memory };

    fn from(_error: AllocError) -> OrderStop {
        OrderStop::Memory
    }
}

impl From<StoreFailed> for OrderStop {
    ghost use Rattle.std.specs.Prelude.{◌≡◌};
    ghost use Rattle.hol_orders.specs.declared.order_stop.OrderStop.TheVariants.{Store};

    ghost from_gives = { λ _ stop. stop ≡ Store };

    fn from(_failed: StoreFailed) -> OrderStop {
        OrderStop::Store
    }
}

impl From<PutFault> for OrderStop {
    ghost use Rattle.std.specs.Prelude.{◌≡◌};
    ghost use Rattle.hol_orders.specs.Stops.{stop_of};

    ghost from_gives = { λ fault stop. stop ≡ stop_of fault };

    fn from(fault: PutFault) -> OrderStop {
        match fault {
            PutFault::Failed => OrderStop::Store,
            PutFault::Memory => OrderStop::Memory,
        }
    }
}
