//! The order `was`.
ghost use Rattle.std.specs.Prelude.{◌≡◌, ◌<◌, IfErr, IfOk, length};
ghost use Rattle.schema_model.specs.Parts.{index_of_type};
ghost use Rattle.row_model.specs.Table.{IsClosed};
ghost use Rattle.hol_history.specs.History.{StandsOn, table_then, tables_of};
ghost use Rattle.read_engine.specs.Position.{Position};
ghost use Rattle.hollow_machine.specs.HistoryOrders.{AnswersThen, ShowsOld, WasReply};
ghost use Rattle.hollow_machine.specs.Kept.{AreClosed, IsReader, past_of, reader_of};
ghost use Rattle.hollow_machine.specs.RowOrders.{AnswersAt};

use crate::record::record;
use hol_answers::{Refusal, Reply, RowPlace};
use hol_history::History;
use hol_orders::OrderStop;
use hol_varint::Duplicate;
use read_engine::Consumer;
use record_json::PrintFault;
use row_model::Rows;
use schema_model::{Limit, Name};
use std::alloc::Global;

/// Shows the record of a row as a version had it: the consumer's own one, or the newest that the history keeps of it. Refused with `NoState`, `NotKept`,
/// `NoType`, `NoRow` and `TooLarge`, in this order: the last where the record has more than `MAX_NODES` nodes.
pub fn was(
    alloc: Global,
    consumer: &Consumer,
    version: Option<u64>,
    history: &History,
    wanted: u64,
    type_name: &Name,
    ordinal: u32,
) -> Result<Reply, OrderStop>
    requires reading { IsReader (reader_of consumer.now version history.now) }
    ensures reply { IfOk result (WasReply consumer.now version (past_of consumer.now history.now.steps) wanted type_name.now ordinal) }
    ensures stop { IfErr result (λ stop. stop ≡ OrderStop.Memory) }
{
    if consumer.tag().is_none() {
        return Ok(Reply::Refused(Refusal::NoState));
    }
    let now = consumer.now();
    if version == Some(wanted) {
        return was_in(alloc, &now, type_name, ordinal);
    }
    was_old(alloc, &now, history, wanted, type_name, ordinal)
}

// Shows the record of a row as an older version had it, over the rows that the history stands on. Refused first with `NotKept`.
fn was_old<R: Rows>(
    alloc: Global,
    rows: &R,
    history: &History,
    wanted: u64,
    name: &Name,
    ordinal: u32,
) -> Result<Reply, OrderStop>
    requires stands { StandsOn (R.schemas rows.now) (R.table rows.now) history.now.steps }
    requires closed { AreClosed (R.schemas rows.now) (tables_of (R.table rows.now) history.now.steps) }
    ensures reply { (now : Position) → now.schemas ≡ R.schemas rows.now
        → IfOk result (AnswersThen now (table_then (tables_of (R.table rows.now) history.now.steps) wanted) wanted name.now (ShowsOld name.now ordinal)) }
    ensures stop { IfErr result (λ stop. stop ≡ OrderStop.Memory) }
{
    if !history.reaches(wanted) {
        return Ok(Reply::Refused(Refusal::NotKept(wanted)));
    }
    was_in(alloc, &history.then(rows, wanted), name, ordinal)
}

// Shows the record of a row of the type of this name, where these are the rows of the version. Refused with `NoType`, `NoRow` and `TooLarge`, in this order.
fn was_in<R: Rows>(alloc: Global, rows: &R, name: &Name, ordinal: u32) -> Result<Reply, OrderStop>
    requires closed { IsClosed (R.schemas rows.now) (R.table rows.now) }
    ensures reply { (now : Position) → now.schemas ≡ R.schemas rows.now
        → IfOk result (AnswersAt now (index_of_type now.schemas name.now) name.now (ShowsOld name.now ordinal (R.table rows.now))) }
    ensures stop { IfErr result (λ stop. stop ≡ OrderStop.Memory) }
{
    match rows.model().index_of(name.text()) {
        Some(type_index) => was_row(alloc, rows, name, type_index, ordinal),
        None => Ok(Reply::Refused(Refusal::NoType(name.copy(alloc)?))),
    }
}

// Shows the record of a row of the type at an index, which has this name, where these are the rows of the version. Refused with `NoRow` and `TooLarge`, in this
// order.
fn was_row<R: Rows>(
    alloc: Global,
    rows: &R,
    name: &Name,
    type_index: u32,
    ordinal: u32,
) -> Result<Reply, OrderStop>
    requires type_in { type_index < length (R.schemas rows.now) }
    requires closed { IsClosed (R.schemas rows.now) (R.table rows.now) }
    ensures reply { (now : Position) → now.schemas ≡ R.schemas rows.now → IfOk result (ShowsOld name.now ordinal (R.table rows.now) now type_index) }
    ensures stop { IfErr result (λ stop. stop ≡ OrderStop.Memory) }
{
    if !rows.is_live(type_index, ordinal) {
        return Ok(Reply::Refused(Refusal::NoRow(RowPlace {
            type_name: name.copy(alloc)?,
            ordinal: u64::from(ordinal),
        })));
    }
    match record(alloc, rows, type_index, ordinal) {
        Ok(value) => Ok(Reply::Was(value)),
        Err(PrintFault::Nodes) => Ok(Reply::Refused(Refusal::TooLarge(Limit::Nodes))),
        Err(PrintFault::Memory) => Err(OrderStop::Memory),
    }
}
