//! The order `live`.
ghost use Rattle.std.specs.Prelude.{◌≡◌, IfErr, IfOk};
ghost use Rattle.hollow_machine.specs.RowOrders.{AreLive, LiveReply};

use crate::type_order::{Asked, type_of};
use hol_answers::Reply;
use hol_orders::OrderStop;
use hol_varint::Ordinals;
use read_engine::Consumer;
use row_model::Rows;
use schema_model::Name;
use std::alloc::{AllocError, Global};

/// Tells the live ordinals of a type, rising. Refused with `NoState` and `NoType`, in this order.
#[inline(never)]
pub fn live(alloc: Global, consumer: &Consumer, name: &Name) -> Result<Reply, OrderStop>
    ensures reply { IfOk result (λ reply. LiveReply consumer.now name.now reply) }
    ensures stop { IfErr result (λ stop. stop ≡ OrderStop.Memory) }
{
    match type_of(alloc, consumer, name)? {
        Asked::At(type_index) => Ok(Reply::Live(live_list(alloc, &consumer.now(), type_index)?)),
        Asked::Refused(refusal) => Ok(Reply::Refused(refusal)),
    }
}

// The live ordinals of a type, rising.
fn live_list<R: Rows>(alloc: Global, rows: &R, type_index: u32) -> Result<Ordinals, AllocError>
    ensures { IfOk result (AreLive (R.table rows.now) type_index) }
{
    let mut ordinals = Ordinals::new(alloc);
    for ordinal in 0..rows.bound(type_index) {
        if rows.is_live(type_index, ordinal) {
            ordinals.push(ordinal)?;
        }
    }
    Ok(ordinals)
}
