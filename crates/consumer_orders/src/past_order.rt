//! The order `past`.
ghost use Rattle.std.specs.Prelude.{◌≡◌, ◌<◌, All, IfErr, IfOk, length};
ghost use Rattle.row_model.specs.Table.{IsClosed, IsLive};
ghost use Rattle.read_engine.specs.Gone.{AreGone};
ghost use Rattle.read_engine.specs.Position.{Position};
ghost use Rattle.hollow_machine.specs.RowOrders.{PastReply, ShowsPast};

use crate::type_order::{Asked, type_of};
use hol_answers::{PastRows, PlainValue, Refusal, Reply};
use hol_orders::OrderStop;
use read_engine::Consumer;
use record_json::{PrintFault, tree_value};
use row_model::Rows;
use schema_model::{Limit, MAX_NODES, Name};
use std::alloc::Global;

/// Shows the records of the rows of a type that were live before the last step and are not now, by rising ordinal, as they were before it. Refused with
/// `NoState`, `NoType` and `TooLarge`, in this order: the last where the records have more than `MAX_NODES` nodes together.
#[inline(never)]
pub fn past(alloc: Global, consumer: &Consumer, name: &Name) -> Result<Reply, OrderStop>
    ensures reply { IfOk result (λ reply. PastReply consumer.now name.now reply) }
    ensures stop { IfErr result (λ stop. stop ≡ OrderStop.Memory) }
{
    match type_of(alloc, consumer, name)? {
        Asked::At(type_index) => {
            let rows = consumer.before();
            let gone = consumer.gone(type_index);
            show_past(alloc, &rows, type_index, gone.as_slice())
        }
        Asked::Refused(refusal) => Ok(Reply::Refused(refusal)),
    }
}

// Shows the records of these rows of the type at an index, where these are the rows before.
fn show_past<R: Rows>(
    alloc: Global,
    rows: &R,
    type_index: u32,
    gone: &[u32],
) -> Result<Reply, OrderStop>
    requires type_in { type_index < length (R.schemas rows.now) }
    requires closed { IsClosed (R.schemas rows.now) (R.table rows.now) }
    requires live { All (IsLive (R.table rows.now) type_index) gone.now }
    ensures reply { (now : Position) → now.schemas ≡ R.schemas rows.now → now.before ≡ R.table rows.now → AreGone now type_index gone.now
        → IfOk result (ShowsPast now type_index) }
    ensures stop { IfErr result (λ stop. stop ≡ OrderStop.Memory) }
{
    let mut budget = MAX_NODES;
    let mut entries = PastRows::new(alloc);
    for ordinal in gone {
        match tree_value(alloc, rows, type_index, *ordinal, &mut budget) {
            Ok(value) => entries.push((*ordinal, PlainValue::new(value)))?,
            Err(PrintFault::Nodes) => return Ok(Reply::Refused(Refusal::TooLarge(Limit::Nodes))),
            Err(PrintFault::Memory) => return Err(OrderStop::Memory),
        }
    }
    Ok(Reply::Past(entries))
}
