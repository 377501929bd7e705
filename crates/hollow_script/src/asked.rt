//! What the lines of an input ask for.
ghost use Rattle.std.specs.Prelude.{◌≤◌, length, IfOk, IsErrOf};
ghost use Rattle.hollow_machine.specs.Script.{longest_line};
ghost use Rattle.hollow_script.specs.Asked.{Asks, MeetsOrder};

use hol_answers::Refusal;
use hol_orders::{Order, OrderFault, OrderReader, OrderStop};
use std::alloc::Global;

/// What a line asks for: an order that is to be answered, or nothing.
#[derive(Drop)]
pub enum Asked {
    /// The order that the line spells.
    Order(Order),
    /// Nothing: the line spells no order (`BadOrder`), or is longer than a line may be (`LineTooLong`).
    Refused(Refusal),
}

/// What a line asks for, which is told where it is not too long: `BadOrder` exactly where it is no order.
#[tactic(auto, using(crate::proofs::Asking::asks_order, crate::proofs::Asking::asks_none))]
pub fn asked_by(alloc: Global, orders: &mut OrderReader, line: &[u8]) -> Result<Asked, OrderStop>
    ensures asks { length line.now ≤ longest_line → IfOk result (Asks line.now) }
    ensures order { IfOk result MeetsOrder }
    ensures no_store { IsErrOf result OrderStop.Store → ⊥ }
{
    match orders.order(alloc, line) {
        Ok(order) => Ok(Asked::Order(order)),
        Err(OrderFault::BadOrder) => Ok(Asked::Refused(Refusal::BadOrder)),
        Err(OrderFault::Memory) => Err(OrderStop::Memory),
    }
}
