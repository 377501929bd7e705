//! Models made of schemas: the rules in their order.
ghost use Rattle.std.specs.Prelude.{◌≡◌, ◌≤◌, ℕ, length, Ok, Err, IfOk, MatchResult};
ghost use Rattle.hol_varint.specs.Yields.{Yields};
ghost use Rattle.schema_model.specs.Faults.{IsFreeModel, TellsFault, TellsModel};
ghost use Rattle.schema_model.specs.Model.{BreaksAt, IsFirstBreaking, IsFirstBroken, IsKept, IsModel};
ghost use Rattle.schema_model.specs.NameIndex.{Indexes};
ghost use Rattle.schema_model.specs.Parts.{type_names};
ghost use Rattle.schema_model.specs.declared.model.rule.Rule.{Rule};

use crate::chains::{check_cycles, check_depth};
use crate::keys::check_keys;
use crate::lengths::check_lengths;
use crate::name_index::index_types;
use crate::rules::{check_names, check_sizes};
use crate::type_graph::check_named_types;
use hol_varint::Duplicate;
use schema_model::{Model, ModelFault, NameIndex, Schemas};
use std::alloc::{AllocError, Global};

/// Tries the rules in their order, and gives the index of the types' names.
fn check(alloc: Global, schemas: &Schemas) -> Result<NameIndex, ModelFault>
    ensures { MatchResult result (λ index. IsModel schemas.now × Indexes (type_names schemas.now) index) (TellsFault schemas.now) }
{
    check_sizes(schemas)?;
    check_lengths(schemas)?;
    let index = index_types(alloc, schemas)?;
    check_names(alloc, schemas, &index)?;
    let graph = check_named_types(alloc, schemas, &index)?;
    check_cycles(alloc, schemas, graph.as_slice())?;
    check_depth(alloc, schemas, graph.as_slice())?;
    check_keys(alloc, schemas, &index)?;
    Ok(index)
}

/// Makes a model of schemas. `Broken` names the first rule that some type breaks, and the first type that breaks it.
pub fn model_of(alloc: Global, schemas: Schemas) -> Result<Model, ModelFault>
    ensures tells { TellsModel schemas result }
    ensures made { Yields IsFreeModel result (Ok schemas) (IsModel schemas) }
    ensures broken { (rule : Rule) (type_index : ℕ) → Yields IsFreeModel result (Err (ModelFault.Broken rule type_index)) (IsFirstBroken schemas rule type_index) }
{
    let index = check(alloc, &schemas)?;
    Ok(Model::from_schemas(schemas, index))
}

/// An equal model of its own.
pub fn copy_model(alloc: Global, model: &Model) -> Result<Model, AllocError>
    ensures { IfOk result (λ copy. copy ≡ model.now) }
{
    let schemas = model.schemas().copy(alloc)?;
    let index = index_types(alloc, &schemas)?;
    Ok(Model::from_schemas(schemas, index))
}

/// The first type that is more than 32 types deep, where the one at `deep` is; a type whose references lead into a cycle is so too. So a
/// blob is told its first type of either kind. Each type that is named is there.
pub fn first_too_deep(alloc: Global, schemas: &Schemas, deep: u32) -> Result<u32, AllocError>
    requires few { length schemas.now ≤ 512 }
    requires known { IsKept schemas.now Rule.UnknownType }
    requires deep { BreaksAt schemas.now Rule.TooDeep deep }
    ensures { IfOk result (IsFirstBreaking schemas.now Rule.TooDeep) }
{
    let index = index_types(alloc, schemas)?;
    let Ok(graph) = check_named_types(alloc, schemas, &index) else {
        return Err(AllocError);
    };
    match check_depth(alloc, schemas, graph.as_slice()) {
        Ok(()) => Ok(deep),
        Err(ModelFault::Broken(_, first)) => Ok(first),
        Err(ModelFault::Memory) => Err(AllocError),
    }
}
