//! The order `walkfind`.
ghost use Rattle.std.specs.Prelude.{◌≡◌, ◌<◌, IfErr, IfOk, IsSomeAnd, Some, length, slice_get};
ghost use Rattle.serde_json.specs.View.{view};
ghost use Rattle.closed_rows.specs.Dangling.{IsPlain};
ghost use Rattle.hollow_machine.specs.WalkOrders.{ListsWalked, WalkFindReply, kind_walked};
ghost use Rattle.reach_orders.specs.Walked.{TellsAlong};

use crate::end_value::end_value;
use crate::walk_way::{WalkWay, walk_way};
use consumer_orders::type_order::{Asked, type_of};
use hol_answers::{Refusal, Reply};
use hol_orders::OrderStop;
use json_values::KeyFault;
use read_engine::Consumer;
use schema_model::{Model, Name, WalkPath};
use serde_json::Value;
use std::alloc::{AllocError, Global};

/// Tells the ordinals of the rows of a type that reach a value along a walk path, rising. Refused with `NoState`, `NoType`, `BadPath`, `NoIndex` and `BadKey`, in
/// this order: the last where the value is none of what stands at the path's end, or a null. The least INT and the least LONG count as null.
pub fn walk_find(
    alloc: Global,
    consumer: &Consumer,
    name: &Name,
    path: &Name,
    value: &Value,
) -> Result<Reply, OrderStop>
    ensures reply { IfOk result (λ reply. WalkFindReply consumer.now name.now path.now (view value.now) reply) }
    ensures stop { IfErr result (λ stop. stop ≡ OrderStop.Memory) }
{
    let type_index = match type_of(alloc, consumer, name)? {
        Asked::At(type_index) => type_index,
        Asked::Refused(refusal) => return Ok(Reply::Refused(refusal)),
    };
    Ok(find_walked(alloc, consumer, type_index, path, value)?)
}

// Tells the ordinals of the rows of the type at an index that reach a value along the walk path of a text, rising. Refused with `BadPath`, `NoIndex` and
// `BadKey`, in this order.
fn find_walked(
    alloc: Global,
    consumer: &Consumer,
    type_index: u32,
    text: &Name,
    value: &Value,
) -> Result<Reply, AllocError>
    requires { IsSomeAnd consumer.now (λ now. type_index < length now.schemas) }
    ensures { IfOk result (λ reply. IsSomeAnd consumer.now (λ now. ListsWalked text.now (view value.now) now type_index reply)) }
{
    let Some(model) = consumer.model() else {
        unreachable!();
    };
    let path = match walk_way(alloc, model, type_index, text)? {
        WalkWay::Resolved(path) => path,
        WalkWay::Refused(refusal) => return Ok(Reply::Refused(refusal)),
    };
    match consumer.walk_of(&path) {
        Some(walk) => find_along(alloc, consumer, model, walk, &path, value),
        None => Ok(Reply::Refused(Refusal::NoIndex)),
    }
}

// Tells the ordinals that the walk index of this number, which is kept of the path, finds by a value, rising. Refused with `BadKey` where the value is none of
// what stands at the path's end, or a null.
fn find_along(
    alloc: Global,
    consumer: &Consumer,
    model: &Model,
    walk: u32,
    path: &WalkPath,
    value: &Value,
) -> Result<Reply, AllocError>
    requires model { IsSomeAnd consumer.now (λ now. now.schemas ≡ model.now) }
    requires kept { IsSomeAnd consumer.now (λ now. slice_get now.walks walk ≡ Some path.now) }
    requires ends { IsSomeAnd (kind_walked model.now path.now.type_index path.now.parts) IsPlain }
    ensures { IfOk result (λ reply. IsSomeAnd consumer.now (TellsAlong path.now (view value.now) reply)) }
{
    match end_value(alloc, model, path, value) {
        Ok(value) => Ok(Reply::WalkFind(consumer.walk_find(walk, &value)?)),
        Err(KeyFault::Shape) => Ok(Reply::Refused(Refusal::BadKey)),
        Err(KeyFault::Memory) => Err(AllocError),
    }
}
