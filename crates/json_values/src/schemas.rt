//! Lists of schemas from their JSON form.
ghost use Rattle.std.specs.Prelude.{◌≡◌, ◌<◌, ◌↔◌, ℕ, List, IsTrue, Ok, Err, length};
ghost use Rattle.hol_varint.specs.Yields.{Yields};
ghost use Rattle.serde_json.specs.Data.{array};
ghost use Rattle.serde_json.specs.View.{view, items_view};
ghost use Rattle.schema_model.specs.declared.schema.Schema.{Schema};
ghost use Rattle.schema_model.specs.declared.model.rule.Rule.{Rule};
ghost use Rattle.schema_model.specs.Model.{rule_place};
ghost use Rattle.json_values.specs.SchemaJson.{AreSchemas, StandsFor};
ghost use Rattle.json_values.specs.SchemasFrom.{IsFreeSchemas, IsRefused, TellsFirstRules, TellsRefusal, TellsSchemas};

use crate::SchemasFault;
use crate::floats::first_float;
use crate::json_form::all_from_forms;
use crate::schema_shape::are_schemas;
use model_rules::model_of;
use schema_model::{ModelFault, Rule, Schemas};
use serde_json::Value;
use std::alloc::Global;

/// The schemas for which a value stands. `Shape` where it is no list of schemas in JSON. `Rule` where some field of them is a
/// FLOAT or a DOUBLE: the first rule that the list breaks, and the first type that breaks it, which are these fields'
/// unless the list has too many types or fields, too long a name, or a name twice.
#[tactic(auto, using(crate::proofs::OneSchemaList::shape_exactly, crate::proofs::OneSchemaList::made_exactly))]
pub fn schemas_from(alloc: Global, value: &Value) -> Result<Schemas, SchemasFault>
    ensures tells { TellsSchemas (view value.now) result }
    ensures made { (schemas : List Schema) → Yields IsFreeSchemas result (Ok schemas) (StandsFor (view value.now) schemas) }
    ensures shape { Yields IsFreeSchemas result (Err SchemasFault.Shape) (AreSchemas (view value.now) → ⊥) }
    ensures rule { (rule : Rule) (type_index : ℕ) → Yields IsFreeSchemas result (Err (SchemasFault.Rule rule type_index)) (IsRefused (view value.now) rule type_index) }
{
    read_schemas(alloc, value)
}

fn read_schemas(alloc: Global, value: &Value) -> Result<Schemas, SchemasFault>
    ensures { TellsSchemas (view value.now) result }
{
    if !are_schemas(value) {
        return Err(SchemasFault::Shape);
    }
    match value {
        Value::Array(types) => listed(alloc, types.as_slice()),
        _ => unreachable!(),
    }
}

// The schemas for which the values of an array stand, or the rule that they break first.
fn listed(alloc: Global, types: &[Value]) -> Result<Schemas, SchemasFault>
    requires { AreSchemas (array (items_view types.now)) }
    ensures { TellsSchemas (array (items_view types.now)) result }
{
    let schemas = all_from_forms(alloc, types)?;
    match first_float(types) {
        None => Ok(schemas),
        Some(type_index) => Err(refusal(alloc, schemas, type_index)),
    }
}

// Why schemas are refused of which the type at this index is the first that has a FLOAT or a DOUBLE.
fn refusal(alloc: Global, schemas: Schemas, type_index: usize) -> SchemasFault
    requires { type_index < length schemas }
    ensures { TellsRefusal schemas type_index result }
{
    match check_first_rules(alloc, schemas) {
        Ok(()) => SchemasFault::Rule(Rule::FloatField, type_index as u32),
        Err(ModelFault::Broken(rule, broken)) => SchemasFault::Rule(rule, broken),
        Err(ModelFault::Memory) => SchemasFault::Memory,
    }
}

// Tries the rules that come before that of FLOAT and DOUBLE.
fn check_first_rules(alloc: Global, schemas: Schemas) -> Result<(), ModelFault>
    ensures { TellsFirstRules schemas result }
{
    match model_of(alloc, schemas) {
        Ok(_) => Ok(()),
        Err(ModelFault::Broken(rule, type_index)) => {
            if comes_first(rule) {
                Err(ModelFault::Broken(rule, type_index))
            } else {
                Ok(())
            }
        }
        Err(ModelFault::Memory) => Err(ModelFault::Memory),
    }
}

// Whether a rule is tried before that of FLOAT and DOUBLE.
fn comes_first(rule: Rule) -> bool
    ensures { IsTrue result ↔ (rule_place rule < 3) }
{
    matches!(rule, Rule::TooMany | Rule::LongName | Rule::DuplicateName)
}
