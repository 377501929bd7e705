//! The order `model`.
ghost use Rattle.std.specs.Prelude.{◌≡◌, ℕ, List, IfOk, IfErr, IfSome, OnErr};
ghost use Rattle.serde_json.specs.View.{view};
ghost use Rattle.hol_io.specs.Store.{Store};
ghost use Rattle.json_values.specs.SchemaJson.{AreSchemas};
ghost use Rattle.hollow_machine.specs.Kept.{IsResting, Kept, kept_with_producer, machine_of};
ghost use Rattle.hollow_machine.specs.ModelOrder.{BreaksRule, IsNamed, ModelStep};

use hol_answers::{Refusal, Reply};
use hol_orders::OrderStop;
use json_values::{SchemasFault, schemas_from};
use model_rules::model_of;
use schema_model::{ModelFault, Name, Rule};
use serde_json::Value;
use std::alloc::Global;
use write_engine::Producer;

/// Makes a new producer of the schemas that the value stands for, and tells how many types it has. Refused with `ModelFixed`
/// exactly where there is a producer, and else with `BadModel` where the schemas are no model: the first rule that is
/// broken, and the name of the first type that breaks it.
#[inline(never)]
pub fn model(
    alloc: Global,
    value: &Value,
    producer: &mut Option<Producer>,
) -> Result<Reply, OrderStop>
    requires schemas { AreSchemas (view value.now) }
    requires resting { IfSome producer.old IsResting }
    ensures step { (store : Store) (kept : Kept) → IfOk result
        (λ reply. ModelStep (machine_of store (kept_with_producer kept producer.old)) (view value.now) reply (machine_of store (kept_with_producer kept producer.new))) }
    ensures resting { IfSome producer.new IsResting }
    ensures stopped { OnErr result (producer.new ≡ producer.old) }
    ensures stop { IfErr result (λ stop. stop ≡ OrderStop.Memory) }
{
    if producer.is_some() {
        return Ok(Reply::Refused(Refusal::ModelFixed));
    }
    let schemas = match schemas_from(alloc, value) {
        Ok(schemas) => schemas,
        Err(SchemasFault::Rule(rule, type_index)) => return bad_model(
            alloc, value, rule, type_index,
        ),
        Err(SchemasFault::Memory) => return Err(OrderStop::Memory),
        Err(SchemasFault::Shape) => unreachable!(),
    };
    match model_of(alloc, schemas) {
        Ok(made) => {
            let types = made.len();
            *producer = Some(Producer::new(alloc, made)?);
            Ok(Reply::Model(types))
        }
        Err(ModelFault::Broken(rule, type_index)) => bad_model(alloc, value, rule, type_index),
        Err(ModelFault::Memory) => Err(OrderStop::Memory),
    }
}

// The refusal of schemas that break a rule.
pub(crate) fn bad_model(
    alloc: Global,
    value: &Value,
    rule: Rule,
    type_index: u32,
) -> Result<Reply, OrderStop>
    requires { BreaksRule (view value.now) rule type_index }
    ensures refused { IfOk result (λ reply. (name : List ℕ) × (reply ≡ Reply.Refused (Refusal.BadModel rule name)) × IsNamed (view value.now) type_index name) }
    ensures stop { IfErr result (λ stop. stop ≡ OrderStop.Memory) }
{
    let type_name = name_at(alloc, value, type_index as usize)?;
    Ok(Reply::Refused(Refusal::BadModel { rule, type_name }))
}

// The name of the schema at an index.
fn name_at(alloc: Global, value: &Value, type_index: usize) -> Result<Name, OrderStop>
    requires { (name : List ℕ) × IsNamed (view value.now) type_index name }
    ensures named { IfOk result (IsNamed (view value.now) type_index) }
    ensures stop { IfErr result (λ stop. stop ≡ OrderStop.Memory) }
{
    match value.get(type_index) {
        Some(schema) => match schema.get("name") {
            Some(Value::String(text)) => Ok(Name::from_text(alloc, text.as_str())?),
            _ => unreachable!(),
        },
        None => unreachable!(),
    }
}
