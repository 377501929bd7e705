//! Why a cycle ends before its state is published.
use blob_writing::WriteFault;
use hol_answers::Refusal;
use hol_io::PutFault;
use hol_orders::OrderStop;
use schema_model::Limit;
use std::alloc::AllocError;

/// Why a cycle ends before its state is published.
#[derive(Drop)]
pub enum CycleEnd {
    /// It is refused, for this reason.
    Refused(Refusal),
    /// It stops before it is answered.
    Stopped(OrderStop),
}

impl From<AllocError> for CycleEnd {
    ghost use Rattle.std.specs.Prelude.{◌≡◌};
    ghost use Rattle.hol_orders.specs.declared.order_stop.OrderStop.TheVariants.{Memory};
    ghost use Rattle.producer_orders.specs.declared.cycle_end.CycleEnd.TheVariants.{Stopped};

    ghost from_gives = { λ _ end. end ≡ Stopped Memory };

    fn from(_error: AllocError) -> CycleEnd {
        CycleEnd::Stopped(OrderStop::Memory)
    }
}

impl From<OrderStop> for CycleEnd {
    ghost use Rattle.std.specs.Prelude.{◌≡◌};
    ghost use Rattle.producer_orders.specs.declared.cycle_end.CycleEnd.TheVariants.{Stopped};

    ghost from_gives = { λ stop end. end ≡ Stopped stop };

    fn from(stop: OrderStop) -> CycleEnd {
        CycleEnd::Stopped(stop)
    }
}

impl From<PutFault> for CycleEnd {
    ghost use Rattle.std.specs.Prelude.{◌≡◌};
    ghost use Rattle.hol_orders.specs.Stops.{stop_of};
    ghost use Rattle.producer_orders.specs.declared.cycle_end.CycleEnd.TheVariants.{Stopped};

    ghost from_gives = { λ fault end. end ≡ Stopped (stop_of fault) };

    fn from(fault: PutFault) -> CycleEnd {
        CycleEnd::Stopped(OrderStop::from(fault))
    }
}

impl From<WriteFault> for CycleEnd {
    ghost use Rattle.std.specs.Prelude.{◌≡◌};
    ghost use Rattle.producer_orders.specs.Ends.{end_of};

    ghost from_gives = { λ fault end. end ≡ end_of fault };

    fn from(fault: WriteFault) -> CycleEnd {
        match fault {
            WriteFault::Large => CycleEnd::Refused(Refusal::TooLarge(Limit::Blob)),
            WriteFault::Memory => CycleEnd::Stopped(OrderStop::Memory),
        }
    }
}
