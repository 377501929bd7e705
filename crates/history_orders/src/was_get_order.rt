//! The order `wasget`.
ghost use Rattle.std.specs.Prelude.{◌≡◌, ◌<◌, All, IfErr, IfOk, IsSome, IsSomeAnd, length};
ghost use Rattle.serde_json.specs.Data.{Data};
ghost use Rattle.serde_json.specs.View.{view};
ghost use Rattle.schema_model.specs.declared.schema.name.Name.{Name as NameText};
ghost use Rattle.schema_model.specs.Parts.{index_of_type};
ghost use Rattle.row_model.specs.Key.{IsResolved};
ghost use Rattle.row_model.specs.Table.{IsClosed, IsLive};
ghost use Rattle.hol_history.specs.History.{StandsOn, table_then, tables_of};
ghost use Rattle.read_engine.specs.Position.{Position, rows_now};
ghost use Rattle.hollow_machine.specs.HistoryOrders.{AnswersThen, HasPrimaryKey, HaveKey, ShowsOldKey, WasGetReply};
ghost use Rattle.hollow_machine.specs.Kept.{AreClosed, IsReader, past_of, reader_of};
ghost use Rattle.hollow_machine.specs.RowOrders.{AnswersAt};
ghost use Rattle.history_orders.specs.Older.{SeeksIn};
ghost use Rattle.history_orders.specs.Told.{AnswersNow};

use crate::key_seek::KeySeek;
use crate::keyed::keyed;
use crate::record::record;
use consumer_orders::get;
use consumer_orders::key_paths::{KeyPaths, key_paths};
use hol_answers::{Refusal, Reply};
use hol_history::History;
use hol_orders::OrderStop;
use hol_varint::Duplicate;
use json_values::KeyFault;
use read_engine::Consumer;
use record_json::PrintFault;
use row_model::Rows;
use schema_model::{Limit, Name, Names, Paths};
use serde_json::Value;
use std::alloc::Global;

/// Shows the one record of a type that has a primary key in a version, the consumer's own one or the newest that the history keeps of it, and tells its
/// ordinal. Refused with `NoState`, `NotKept`, `NoType`, `WrongKind`, `BadPath`, `BadKey`, `NoMatch`, `Ambiguous` and `TooLarge`, in this order: the last where
/// the record has more than `MAX_NODES` nodes. Where an index is kept on the primary key it looks at the rows that this finds and at those that left since the
/// version and may have the key. Else it goes along the column of the key's first field for the former, and looks at all rows of the type where this is reached
/// through a reference or does not stand packed.
pub fn was_get(
    alloc: Global,
    consumer: &Consumer,
    version: Option<u64>,
    history: &History,
    wanted: u64,
    type_name: &Name,
    values: &Value,
) -> Result<Reply, OrderStop>
    requires reading { IsReader (reader_of consumer.now version history.now) }
    ensures reply { IfOk result (WasGetReply consumer.now version (past_of consumer.now history.now.steps) wanted type_name.now (view values.now)) }
    ensures stop { IfErr result (λ stop. stop ≡ OrderStop.Memory) }
{
    if consumer.tag().is_none() {
        return Ok(Reply::Refused(Refusal::NoState));
    }
    if version == Some(wanted) {
        return was_get_own(alloc, consumer, type_name, values);
    }
    was_get_old(
        alloc,
        consumer,
        &consumer.now(),
        history,
        wanted,
        type_name,
        values,
    )
}

// Shows the one record of a type that has a primary key in the consumer's own version, and tells its ordinal: by the index that is kept on the primary key, and
// where there is none by the rows.
fn was_get_own(
    alloc: Global,
    consumer: &Consumer,
    name: &Name,
    values: &Value,
) -> Result<Reply, OrderStop>
    requires { IsSome consumer.now }
    ensures reply { IfOk result (λ reply. IsSomeAnd consumer.now (AnswersNow name.now (view values.now) reply)) }
    ensures stop { IfErr result (λ stop. stop ≡ OrderStop.Memory) }
{
    let refusal = match get(alloc, consumer, name, values)? {
        Reply::Get { ordinal, row } => return Ok(Reply::WasGet { ordinal, row }),
        Reply::Refused(refusal) => refusal,
        _ => unreachable!(),
    };
    match refusal {
        Refusal::NoIndex => {
            let seek = KeySeek::Now(consumer);
            was_get_in(alloc, &seek, &consumer.now(), name, values)
        }
        refusal => Ok(Reply::Refused(refusal)),
    }
}

// Shows the one record of a type that has a primary key in an older version, and tells its ordinal, over the rows that the history stands on. Refused first
// with `NotKept`.
fn was_get_old<R: Rows>(
    alloc: Global,
    consumer: &Consumer,
    rows: &R,
    history: &History,
    wanted: u64,
    name: &Name,
    values: &Value,
) -> Result<Reply, OrderStop>
    requires now { IsSomeAnd consumer.now (λ now. (now.schemas ≡ R.schemas rows.now) × (rows_now now ≡ R.table rows.now)) }
    requires now_closed { IsClosed (R.schemas rows.now) (R.table rows.now) }
    requires stands { StandsOn (R.schemas rows.now) (R.table rows.now) history.now.steps }
    requires closed { AreClosed (R.schemas rows.now) (tables_of (R.table rows.now) history.now.steps) }
    ensures reply { (now : Position) → now.schemas ≡ R.schemas rows.now
        → IfOk result (AnswersThen now (table_then (tables_of (R.table rows.now) history.now.steps) wanted) wanted name.now (ShowsOldKey name.now (view values.now))) }
    ensures stop { IfErr result (λ stop. stop ≡ OrderStop.Memory) }
{
    if !history.reaches(wanted) {
        return Ok(Reply::Refused(Refusal::NotKept(wanted)));
    }
    let seek = KeySeek::Older(consumer, history, wanted);
    was_get_in(alloc, &seek, &history.then(rows, wanted), name, values)
}

// Shows the one record of the type of this name that has these values as its primary key, and tells its ordinal, where these are the rows of the version.
fn was_get_in<R: Rows>(
    alloc: Global,
    seek: &KeySeek<'_>,
    rows: &R,
    name: &Name,
    values: &Value,
) -> Result<Reply, OrderStop>
    requires seek { SeeksIn seek.now (R.schemas rows.now) (R.table rows.now) }
    requires closed { IsClosed (R.schemas rows.now) (R.table rows.now) }
    ensures reply { (now : Position) → now.schemas ≡ R.schemas rows.now
        → IfOk result (AnswersAt now (index_of_type now.schemas name.now) name.now (ShowsOldKey name.now (view values.now) (R.table rows.now))) }
    ensures stop { IfErr result (λ stop. stop ≡ OrderStop.Memory) }
{
    match rows.model().index_of(name.text()) {
        Some(type_index) => was_get_of(alloc, seek, rows, name, type_index, values),
        None => Ok(Reply::Refused(Refusal::NoType(name.copy(alloc)?))),
    }
}

// Shows the one record of the type at an index, which has this name, that has these values as its primary key, and tells its ordinal, where these are the rows
// of the version.
fn was_get_of<R: Rows>(
    alloc: Global,
    seek: &KeySeek<'_>,
    rows: &R,
    name: &Name,
    type_index: u32,
    values: &Value,
) -> Result<Reply, OrderStop>
    requires seek { SeeksIn seek.now (R.schemas rows.now) (R.table rows.now) }
    requires type_in { type_index < length (R.schemas rows.now) }
    requires closed { IsClosed (R.schemas rows.now) (R.table rows.now) }
    ensures reply { (now : Position) → now.schemas ≡ R.schemas rows.now → IfOk result (ShowsOldKey name.now (view values.now) (R.table rows.now) now type_index) }
    ensures stop { IfErr result (λ stop. stop ≡ OrderStop.Memory) }
{
    match key_paths(alloc, rows.model(), name, type_index, &Names::new(alloc))? {
        KeyPaths::Resolved(paths) => {
            was_get_along(alloc, seek, rows, type_index, &paths, values)
        }
        KeyPaths::Refused(refusal) => Ok(Reply::Refused(refusal)),
    }
}

// Shows the one record of the type at an index that has these values along the paths of its primary key, and tells its ordinal, where these are the rows of the
// version.
fn was_get_along<R: Rows>(
    alloc: Global,
    seek: &KeySeek<'_>,
    rows: &R,
    type_index: u32,
    paths: &Paths,
    values: &Value,
) -> Result<Reply, OrderStop>
    requires seek { SeeksIn seek.now (R.schemas rows.now) (R.table rows.now) }
    requires type_in { type_index < length (R.schemas rows.now) }
    requires closed { IsClosed (R.schemas rows.now) (R.table rows.now) }
    requires resolved { All (IsResolved (R.schemas rows.now) type_index) paths.now }
    ensures reply { (now : Position) (name : NameText) → now.schemas ≡ R.schemas rows.now → HasPrimaryKey now type_index paths.now
        → IfOk result (ShowsOldKey name (view values.now) (R.table rows.now) now type_index) }
    ensures stop { IfErr result (λ stop. stop ≡ OrderStop.Memory) }
{
    match keyed(alloc, seek, rows, type_index, paths, values) {
        Ok(ordinals) => was_one(alloc, rows, type_index, ordinals.as_slice()),
        Err(KeyFault::Shape) => Ok(Reply::Refused(Refusal::BadKey)),
        Err(KeyFault::Memory) => Err(OrderStop::Memory),
    }
}

// Shows the record of the one row of the type at an index that has the key, where these are the ordinals of those that have it.
fn was_one<R: Rows>(
    alloc: Global,
    rows: &R,
    type_index: u32,
    ordinals: &[u32],
) -> Result<Reply, OrderStop>
    requires type_in { type_index < length (R.schemas rows.now) }
    requires closed { IsClosed (R.schemas rows.now) (R.table rows.now) }
    requires live { All (IsLive (R.table rows.now) type_index) ordinals.now }
    ensures reply { (now : Position) (name : NameText) (values : Data) → now.schemas ≡ R.schemas rows.now → HaveKey values (R.table rows.now) now type_index ordinals.now
        → IfOk result (ShowsOldKey name values (R.table rows.now) now type_index) }
    ensures stop { IfErr result (λ stop. stop ≡ OrderStop.Memory) }
{
    let ordinal = match ordinals {
        [] => return Ok(Reply::Refused(Refusal::NoMatch)),
        [ordinal] => *ordinal,
        [first, second, ..] => {
            return Ok(Reply::Refused(Refusal::Ambiguous {
                first: *first,
                second: *second,
            }));
        }
    };
    match record(alloc, rows, type_index, ordinal) {
        Ok(row) => Ok(Reply::WasGet { ordinal, row }),
        Err(PrintFault::Nodes) => Ok(Reply::Refused(Refusal::TooLarge(Limit::Nodes))),
        Err(PrintFault::Memory) => Err(OrderStop::Memory),
    }
}
