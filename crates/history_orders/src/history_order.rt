//! The order `history`.
ghost use Rattle.std.specs.Prelude.{ℕ, Ok, Option};
ghost use Rattle.hol_io.specs.Store.{Store};
ghost use Rattle.hol_orders.specs.declared.order_stop.OrderStop.{OrderStop};
ghost use Rattle.read_engine.specs.Position.{Position};
ghost use Rattle.hollow_machine.specs.HistoryOrders.{HistoryStep};
ghost use Rattle.hollow_machine.specs.Kept.{IsReader, MovesReader, reader_of};

use hol_answers::Reply;
use hol_history::History;
use std::alloc::Global;

/// Keeps so many older states at most from now on, and none of those so far; the answer tells how many. It takes no memory. A consumer and its version stay
/// as they are.
pub fn history(alloc: Global, history: &mut History, bound: u32) -> Reply
    ensures step { (held : Option Store) (consumer : Option Position) (version : Option ℕ)
        → MovesReader {E = OrderStop} (λ machine reply next. HistoryStep machine bound reply next) held (reader_of consumer version history.old) (reader_of consumer version history.new) (Ok result) }
    ensures reading { (consumer : Option Position) (version : Option ℕ) → IsReader (reader_of consumer version history.old) → IsReader (reader_of consumer version history.new) }
{
    *history = History::new(alloc, bound);
    Reply::History(bound)
}
