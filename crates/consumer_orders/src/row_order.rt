//! The order `row`.
ghost use Rattle.std.specs.Prelude.{◌≡◌, ◌<◌, IfErr, IfOk, length};
ghost use Rattle.row_model.specs.Table.{IsClosed};
ghost use Rattle.read_engine.specs.Position.{Position, rows_now};
ghost use Rattle.hollow_machine.specs.RowOrders.{RowReply, ShowsRow};

use crate::type_order::{Asked, type_of};
use hol_answers::{PlainValue, Refusal, Reply, RowPlace};
use hol_orders::OrderStop;
use hol_varint::Duplicate;
use read_engine::Consumer;
use record_json::{PrintFault, tree_value};
use row_model::Rows;
use schema_model::{Limit, MAX_NODES, Name};
use std::alloc::Global;

/// Shows the record of a row. Refused with `NoState`, `NoType`, `NoRow` and `TooLarge`, in this order: the last where the record has more than `MAX_NODES`
/// nodes.
pub fn row(
    alloc: Global,
    consumer: &Consumer,
    name: &Name,
    ordinal: u32,
) -> Result<Reply, OrderStop>
    ensures reply { IfOk result (λ reply. RowReply consumer.now name.now ordinal reply) }
    ensures stop { IfErr result (λ stop. stop ≡ OrderStop.Memory) }
{
    match type_of(alloc, consumer, name)? {
        Asked::At(type_index) => show_row(alloc, &consumer.now(), name, type_index, ordinal),
        Asked::Refused(refusal) => Ok(Reply::Refused(refusal)),
    }
}

// Shows the record of a row of the type at an index, which has this name, where these are the rows now.
fn show_row<R: Rows>(
    alloc: Global,
    rows: &R,
    name: &Name,
    type_index: u32,
    ordinal: u32,
) -> Result<Reply, OrderStop>
    requires type_in { type_index < length (R.schemas rows.now) }
    requires closed { IsClosed (R.schemas rows.now) (R.table rows.now) }
    ensures reply { (now : Position) → now.schemas ≡ R.schemas rows.now → rows_now now ≡ R.table rows.now
        → IfOk result (ShowsRow name.now ordinal now type_index) }
    ensures stop { IfErr result (λ stop. stop ≡ OrderStop.Memory) }
{
    if !rows.is_live(type_index, ordinal) {
        return Ok(Reply::Refused(Refusal::NoRow(RowPlace {
            type_name: name.copy(alloc)?,
            ordinal: u64::from(ordinal),
        })));
    }
    let mut budget = MAX_NODES;
    match tree_value(alloc, rows, type_index, ordinal, &mut budget) {
        Ok(value) => Ok(Reply::Row(PlainValue::new(value))),
        Err(PrintFault::Nodes) => Ok(Reply::Refused(Refusal::TooLarge(Limit::Nodes))),
        Err(PrintFault::Memory) => Err(OrderStop::Memory),
    }
}
