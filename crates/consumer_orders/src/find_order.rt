//! The order `find`.
ghost use Rattle.std.specs.Prelude.{◌≡◌, IfErr, IfOk};
ghost use Rattle.serde_json.specs.View.{view};
ghost use Rattle.hollow_machine.specs.KeyOrders.{FindReply};
ghost use Rattle.hollow_machine.specs.KeyPaths.{texts_of_array};

use crate::key_paths::items_of;
use crate::look_up::{Found, look_up};
use crate::type_order::{Asked, type_of};
use hol_answers::Reply;
use hol_orders::OrderStop;
use read_engine::Consumer;
use schema_model::Name;
use serde_json::Value;
use std::alloc::Global;

/// Tells the ordinals of the rows of a type that have a key, rising. No path stands for the primary key. Refused with `NoState`, `NoType`, `WrongKind`,
/// `BadPath`, `NoIndex` and `BadKey`, in this order.
pub fn find(
    alloc: Global,
    consumer: &Consumer,
    name: &Name,
    paths: &Value,
    values: &Value,
) -> Result<Reply, OrderStop>
    ensures reply { IfOk result (λ reply. FindReply consumer.now name.now (texts_of_array (view paths.now)) (view values.now) reply) }
    ensures stop { IfErr result (λ stop. stop ≡ OrderStop.Memory) }
{
    let type_index = match type_of(alloc, consumer, name)? {
        Asked::At(type_index) => type_index,
        Asked::Refused(refusal) => return Ok(Reply::Refused(refusal)),
    };
    match look_up(alloc, consumer, name, type_index, items_of(paths), values)? {
        Found::Ordinals(ordinals) => Ok(Reply::Find(ordinals)),
        Found::Refused(refusal) => Ok(Reply::Refused(refusal)),
    }
}
