//! The first type in which two models do not agree, and whether they are the same.
ghost use Rattle.std.specs.Prelude.{◌≡◌, ◌<◌, ℕ, IsFalse, IsTrue, Some, length, slice_get};
ghost use Rattle.std.specs.Option.{option_map};
ghost use Rattle.schema_model.specs.declared.schema.Schema.{Schema};
ghost use Rattle.schema_model.specs.Growth.{Agree};
ghost use Rattle.chain_check.specs.Compare.{FirstOtherType};

use schema_growth::{agree_by_place, laws, same_schema};
use schema_model::{Model, Schema};

/// The schema of the first type of a walked model that a fresh one has under a schema that does not agree; `None` exactly where the models agree.
pub fn first_other_type<'a>(walked: &'a Model, fresh: &Model) -> Option<&'a Schema>
    ensures { FirstOtherType walked.now fresh.now (option_map (λ schema. schema.now) result) }
{
    for type_index in 0..walked.len() {
        let schema = walked.schema(type_index);
        if !agrees_with(fresh, schema) {
            return Some(schema);
        }
    }
    None
}

// Whether a model lacks the type of this schema's name, or has it under one that agrees.
fn agrees_with(model: &Model, schema: &Schema) -> bool
    ensures agree { IsTrue result → (place : ℕ) (other : Schema) → slice_get model.now place ≡ Some other → schema.now.name ≡ other.name → Agree schema.now other }
    ensures apart { IsFalse result → (place : ℕ) × (other : Schema) × (slice_get model.now place ≡ Some other) × (schema.now.name ≡ other.name) × (¬ Agree schema.now other) }
{
    laws::fields_apart();
    match model.index_of(schema.name.text()) {
        None => true,
        Some(place) => agree_by_place(schema, model.schema(place)),
    }
}

/// Whether two models are the same.
pub(crate) fn is_same_model(model: &Model, other: &Model) -> bool
    ensures { IsTrue result → model.now ≡ other.now }
{
    if model.len() != other.len() {
        return false;
    }
    for type_index in 0..model.len() {
        if !same_schema(model.schema(type_index), other.schema(type_index)) {
            return false;
        }
    }
    true
}
