//! The order `has`.
ghost use Rattle.std.specs.Prelude.{◌≡◌, ◌<◌, IfErr, IfOk, IsSomeAnd, length};
ghost use Rattle.hollow_machine.specs.MemberOrders.{HasReply, TellsElement};

use crate::type_order::{Asked, type_of};
use hol_answers::{Refusal, Reply, RowPlace};
use hol_orders::OrderStop;
use hol_varint::Duplicate;
use read_engine::Consumer;
use row_model::Rows;
use schema_model::{Name, Shape};
use std::alloc::Global;

/// Tells whether the set under an ordinal has an element. Refused with `NoState`, `NoType`, `WrongKind` and `NoRow`, in this order.
pub fn has(
    alloc: Global,
    consumer: &Consumer,
    name: &Name,
    ordinal: u32,
    element: u32,
) -> Result<Reply, OrderStop>
    ensures reply { IfOk result (λ reply. HasReply consumer.now name.now ordinal element reply) }
    ensures stop { IfErr result (λ stop. stop ≡ OrderStop.Memory) }
{
    match type_of(alloc, consumer, name)? {
        Asked::At(type_index) => has_in(alloc, consumer, name, type_index, ordinal, element),
        Asked::Refused(refusal) => Ok(Reply::Refused(refusal)),
    }
}

// Tells whether the set under an ordinal of the type at an index, which has this name, has an element. Refused with `WrongKind` and `NoRow`, in this order.
fn has_in(
    alloc: Global,
    consumer: &Consumer,
    name: &Name,
    type_index: u32,
    ordinal: u32,
    element: u32,
) -> Result<Reply, OrderStop>
    requires { IsSomeAnd consumer.now (λ now. type_index < length now.schemas) }
    ensures reply { IfOk result (λ reply. IsSomeAnd consumer.now (λ now. TellsElement name.now ordinal element now type_index reply)) }
    ensures stop { IfErr result (λ stop. stop ≡ OrderStop.Memory) }
{
    let Some(model) = consumer.model() else {
        unreachable!();
    };
    let Shape::Set(_) = &model.schema(type_index).shape else {
        return Ok(Reply::Refused(Refusal::WrongKind(name.copy(alloc)?)));
    };
    if !consumer.now().is_live(type_index, ordinal) {
        return Ok(Reply::Refused(Refusal::NoRow(RowPlace {
            type_name: name.copy(alloc)?,
            ordinal: u64::from(ordinal),
        })));
    }
    Ok(Reply::Has(consumer.has(type_index, ordinal, element)))
}
