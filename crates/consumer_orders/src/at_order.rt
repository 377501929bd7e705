//! The order `at`.
ghost use Rattle.std.specs.Prelude.{◌≡◌, ◌<◌, IfErr, IfOk, IsSomeAnd, length};
ghost use Rattle.hollow_machine.specs.MemberOrders.{AtReply, TellsValue};

use crate::type_order::{Asked, type_of};
use hol_answers::{Refusal, Reply, RowPlace};
use hol_orders::OrderStop;
use hol_varint::Duplicate;
use read_engine::Consumer;
use row_model::Rows;
use schema_model::{Name, Shape};
use std::alloc::Global;

/// Tells the value beside a key in the map under an ordinal, if the map has the key. Refused with `NoState`, `NoType`, `WrongKind` and `NoRow`, in
/// this order.
pub fn at(
    alloc: Global,
    consumer: &Consumer,
    name: &Name,
    ordinal: u32,
    key: u32,
) -> Result<Reply, OrderStop>
    ensures reply { IfOk result (λ reply. AtReply consumer.now name.now ordinal key reply) }
    ensures stop { IfErr result (λ stop. stop ≡ OrderStop.Memory) }
{
    match type_of(alloc, consumer, name)? {
        Asked::At(type_index) => at_in(alloc, consumer, name, type_index, ordinal, key),
        Asked::Refused(refusal) => Ok(Reply::Refused(refusal)),
    }
}

// Tells the value beside a key in the map under an ordinal of the type at an index, which has this name. Refused with `WrongKind` and `NoRow`, in this order.
fn at_in(
    alloc: Global,
    consumer: &Consumer,
    name: &Name,
    type_index: u32,
    ordinal: u32,
    key: u32,
) -> Result<Reply, OrderStop>
    requires { IsSomeAnd consumer.now (λ now. type_index < length now.schemas) }
    ensures reply { IfOk result (λ reply. IsSomeAnd consumer.now (λ now. TellsValue name.now ordinal key now type_index reply)) }
    ensures stop { IfErr result (λ stop. stop ≡ OrderStop.Memory) }
{
    let Some(model) = consumer.model() else {
        unreachable!();
    };
    let Shape::Map(_, _) = &model.schema(type_index).shape else {
        return Ok(Reply::Refused(Refusal::WrongKind(name.copy(alloc)?)));
    };
    if !consumer.now().is_live(type_index, ordinal) {
        return Ok(Reply::Refused(Refusal::NoRow(RowPlace {
            type_name: name.copy(alloc)?,
            ordinal: u64::from(ordinal),
        })));
    }
    Ok(Reply::At(consumer.at(type_index, ordinal, key)))
}
