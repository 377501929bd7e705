//! The order `get`.
ghost use Rattle.std.specs.Prelude.{◌≡◌, ◌<◌, [], ◌∷◌, IfErr, IfOk, IsSomeAnd, length};
ghost use Rattle.schema_model.specs.declared.schema.name.Name.{Name as NameText};
ghost use Rattle.row_model.specs.Table.{IsClosed, IsLive};
ghost use Rattle.serde_json.specs.Data.{Data};
ghost use Rattle.serde_json.specs.View.{view};
ghost use Rattle.hollow_machine.specs.KeyOrders.{FindsUnder, GetReply, ShowsFound};
ghost use Rattle.read_engine.specs.Position.{Position, rows_now};

use crate::look_up::{Found, look_up};
use crate::type_order::{Asked, type_of};
use hol_answers::{PlainValue, Refusal, Reply};
use hol_orders::OrderStop;
use read_engine::Consumer;
use record_json::{PrintFault, tree_value};
use row_model::Rows;
use schema_model::{Limit, MAX_NODES, Name};
use serde_json::Value;
use std::alloc::Global;

/// Shows the one record of a type that has a primary key, and tells its ordinal. Refused with `NoState`, `NoType`, `WrongKind`, `BadPath`, `NoIndex`,
/// `BadKey`, `NoMatch`, `Ambiguous` and `TooLarge`, in this order: the last where the record has more than `MAX_NODES` nodes.
pub fn get(
    alloc: Global,
    consumer: &Consumer,
    name: &Name,
    values: &Value,
) -> Result<Reply, OrderStop>
    ensures reply { IfOk result (λ reply. GetReply consumer.now name.now (view values.now) reply) }
    ensures stop { IfErr result (λ stop. stop ≡ OrderStop.Memory) }
{
    match type_of(alloc, consumer, name)? {
        Asked::At(type_index) => get_at(alloc, consumer, name, type_index, values),
        Asked::Refused(refusal) => Ok(Reply::Refused(refusal)),
    }
}

// Shows the one record of the type at an index, which has this name, that has these values as its primary key, and tells its ordinal.
fn get_at(
    alloc: Global,
    consumer: &Consumer,
    name: &Name,
    type_index: u32,
    values: &Value,
) -> Result<Reply, OrderStop>
    requires { IsSomeAnd consumer.now (λ now. type_index < length now.schemas) }
    ensures reply { IfOk result (λ reply. IsSomeAnd consumer.now (λ now. ShowsFound name.now (view values.now) now type_index reply)) }
    ensures stop { IfErr result (λ stop. stop ≡ OrderStop.Memory) }
{
    match look_up(alloc, consumer, name, type_index, &[], values)? {
        Found::Ordinals(ordinals) => match ordinals.as_slice() {
            [] => Ok(Reply::Refused(Refusal::NoMatch)),
            [ordinal] => show_found(alloc, &consumer.now(), type_index, *ordinal),
            [first, second, ..] => Ok(Reply::Refused(Refusal::Ambiguous {
                first: *first,
                second: *second,
            })),
        },
        Found::Refused(refusal) => Ok(Reply::Refused(refusal)),
    }
}

// Shows the record of the one row of the type at an index that has the key, where these are the rows now.
fn show_found<R: Rows>(
    alloc: Global,
    rows: &R,
    type_index: u32,
    ordinal: u32,
) -> Result<Reply, OrderStop>
    requires type_in { type_index < length (R.schemas rows.now) }
    requires closed { IsClosed (R.schemas rows.now) (R.table rows.now) }
    requires live { IsLive (R.table rows.now) type_index ordinal }
    ensures reply { (now : Position) (name : NameText) (values : Data) → now.schemas ≡ R.schemas rows.now → rows_now now ≡ R.table rows.now
        → FindsUnder [] values now type_index (ordinal ∷ []) → IfOk result (ShowsFound name values now type_index) }
    ensures stop { IfErr result (λ stop. stop ≡ OrderStop.Memory) }
{
    let mut budget = MAX_NODES;
    match tree_value(alloc, rows, type_index, ordinal, &mut budget) {
        Ok(value) => Ok(Reply::Get {
            ordinal,
            row: PlainValue::new(value),
        }),
        Err(PrintFault::Nodes) => Ok(Reply::Refused(Refusal::TooLarge(Limit::Nodes))),
        Err(PrintFault::Memory) => Err(OrderStop::Memory),
    }
}
