//! The order `grow`.
ghost use Rattle.std.specs.Prelude.{◌≡◌, ◌<◌, ℕ, List, Some, IfOk, IfErr, IfSome, OnErr, length};
ghost use Rattle.serde_json.specs.View.{view};
ghost use Rattle.hol_io.specs.Store.{Store};
ghost use Rattle.json_values.specs.SchemaJson.{AreSchemas, StandsFor};
ghost use Rattle.hollow_machine.specs.GrowOrder.{GrowStep};
ghost use Rattle.hollow_machine.specs.Kept.{IsResting, Kept, kept_with_producer, machine_of};
ghost use Rattle.producer_orders.specs.Growing.{IsNameAt};

use crate::model_order::bad_model;
use hol_answers::{Refusal, Reply};
use hol_orders::OrderStop;
use hol_varint::Duplicate;
use json_values::{SchemasFault, schemas_from};
use model_rules::model_of;
use schema_growth::grows;
use schema_model::{Model, ModelFault};
use serde_json::Value;
use std::alloc::Global;
use write_engine::Producer;

/// Gives the producer the model that the value stands for, and tells how many types it has. Refused with `NoModel` exactly where there is no producer; else
/// with `BadModel` where the schemas are no model: the first rule that is broken, and the name of the first type that breaks it; and else with `NotGrown`
/// where the model does not grow the producer's own: the name of the first type that it does not have, as it was or grown.
///
/// A refusal and a stop leave the producer as it was.
#[inline(never)]
pub fn grow(
    alloc: Global,
    value: &Value,
    producer: &mut Option<Producer>,
) -> Result<Reply, OrderStop>
    requires schemas { AreSchemas (view value.now) }
    requires resting { IfSome producer.old IsResting }
    ensures step { (store : Store) (kept : Kept) → IfOk result
        (λ reply. GrowStep (machine_of store (kept_with_producer kept producer.old)) (view value.now) reply (machine_of store (kept_with_producer kept producer.new))) }
    ensures resting { IfSome producer.new IsResting }
    ensures stopped { OnErr result (producer.new ≡ producer.old) }
    ensures stop { IfErr result (λ stop. stop ≡ OrderStop.Memory) }
{
    match producer {
        Some(producer) => grow_producer(alloc, value, producer),
        None => Ok(Reply::Refused(Refusal::NoModel)),
    }
}

// Gives this producer the model that the value stands for, and tells how many types it has. Refused with `BadModel` and `NotGrown`, in this order.
fn grow_producer(alloc: Global, value: &Value, producer: &mut Producer) -> Result<Reply, OrderStop>
    requires schemas { AreSchemas (view value.now) }
    requires resting { IsResting producer.old }
    ensures step { (store : Store) (kept : Kept) → IfOk result
        (λ reply. GrowStep (machine_of store (kept_with_producer kept (Some producer.old))) (view value.now) reply (machine_of store (kept_with_producer kept (Some producer.new)))) }
    ensures resting { IsResting producer.new }
    ensures stopped { OnErr result (producer.new ≡ producer.old) }
    ensures stop { IfErr result (λ stop. stop ≡ OrderStop.Memory) }
{
    let schemas = match schemas_from(alloc, value) {
        Ok(schemas) => schemas,
        Err(SchemasFault::Rule(rule, type_index)) => return bad_model(
            alloc, value, rule, type_index,
        ),
        Err(SchemasFault::Memory) => return Err(OrderStop::Memory),
        Err(SchemasFault::Shape) => unreachable!(),
    };
    match model_of(alloc, schemas) {
        Ok(grown) => grow_to(alloc, value, grown, producer),
        Err(ModelFault::Broken(rule, type_index)) => bad_model(alloc, value, rule, type_index),
        Err(ModelFault::Memory) => Err(OrderStop::Memory),
    }
}

// Gives the producer the model that a value stands for, if it grows its own.
fn grow_to(
    alloc: Global,
    value: &Value,
    grown: Model,
    producer: &mut Producer,
) -> Result<Reply, OrderStop>
    requires stands { StandsFor (view value.now) grown }
    requires resting { IsResting producer.old }
    ensures step { (store : Store) (kept : Kept) → IfOk result
        (λ reply. GrowStep (machine_of store (kept_with_producer kept (Some producer.old))) (view value.now) reply (machine_of store (kept_with_producer kept (Some producer.new)))) }
    ensures resting { IsResting producer.new }
    ensures stopped { OnErr result (producer.new ≡ producer.old) }
    ensures stop { IfErr result (λ stop. stop ≡ OrderStop.Memory) }
{
    let types = grown.len();
    match grows(producer.model(), &grown) {
        Some(type_index) => not_grown(alloc, producer.model(), type_index),
        None => {
            producer.grow(grown)?;
            Ok(Reply::Grow(types))
        }
    }
}

// The refusal of a model that does not have a type of another one, as it was or grown.
fn not_grown(alloc: Global, model: &Model, type_index: u32) -> Result<Reply, OrderStop>
    requires { type_index < length model.now }
    ensures refused { IfOk result (λ reply. (name : List ℕ) × (reply ≡ Reply.Refused (Refusal.NotGrown name)) × IsNameAt model.now type_index name) }
    ensures stop { IfErr result (λ stop. stop ≡ OrderStop.Memory) }
{
    let type_name = model.schema(type_index).name.copy(alloc)?;
    Ok(Reply::Refused(Refusal::NotGrown(type_name)))
}
