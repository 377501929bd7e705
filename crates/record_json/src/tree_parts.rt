//! Trees made of parts that were read.
ghost use Rattle.std.specs.Prelude.{List, Ok, Result};
ghost use Rattle.row_model.specs.PlainTree.{PlainTree, list, object, set, trees_of_list};
ghost use Rattle.record_trees.specs.Tree.{plain, plain_pair, plain_pairs, plain_trees};
ghost use Rattle.schema_model.specs.declared.reason.Reason.{Reason};
ghost use Rattle.record_json.specs.ReadTree.{TellsAs, key_then, made, read_map};

use crate::keys::are_keys_apart;
use json_values::ValueFault;
use record_trees::{Tree, TreePairs, Trees};
use schema_model::Reason;

/// The record with these parts.
#[tactic(auto, using(crate::proofs::TreeParts::object_made, crate::proofs::TreeParts::made_not))]
pub(crate) fn object_of(parts: Result<Trees, ValueFault>) -> Result<Tree, ValueFault>
    ensures { (read : Result (List PlainTree) Reason) → TellsAs plain_trees read parts → TellsAs plain (made (λ trees. object (trees_of_list trees)) read) result }
{
    match parts {
        Ok(parts) => Ok(Tree::Object(parts)),
        Err(fault) => Err(fault),
    }
}

/// The list with these elements.
#[tactic(auto, using(crate::proofs::TreeParts::list_made, crate::proofs::TreeParts::made_not))]
pub(crate) fn list_of(parts: Result<Trees, ValueFault>) -> Result<Tree, ValueFault>
    ensures { (read : Result (List PlainTree) Reason) → TellsAs plain_trees read parts → TellsAs plain (made (λ trees. list (trees_of_list trees)) read) result }
{
    match parts {
        Ok(parts) => Ok(Tree::List(parts)),
        Err(fault) => Err(fault),
    }
}

/// The set with these elements.
#[tactic(auto, using(crate::proofs::TreeParts::set_made, crate::proofs::TreeParts::made_not))]
pub(crate) fn set_of(parts: Result<Trees, ValueFault>) -> Result<Tree, ValueFault>
    ensures { (read : Result (List PlainTree) Reason) → TellsAs plain_trees read parts → TellsAs plain (made (λ trees. set (trees_of_list trees)) read) result }
{
    match parts {
        Ok(parts) => Ok(Tree::Set(parts)),
        Err(fault) => Err(fault),
    }
}

/// The map with these pairs, or `SameKeys` where two keys are the same record.
#[tactic(auto, using(crate::proofs::TreeParts::map_made, crate::proofs::TreeParts::same_keys, crate::proofs::TreeParts::map_not))]
pub(crate) fn map_of(pairs: Result<TreePairs, ValueFault>) -> Result<Tree, ValueFault>
    ensures { (read : Result (List (PlainTree × PlainTree)) Reason) → TellsAs plain_pairs read pairs → TellsAs plain (read_map read) result }
{
    match pairs {
        Ok(pairs) if are_keys_apart(pairs.as_slice()) => Ok(Tree::Map(pairs)),
        Ok(_) => Err(ValueFault::Field(Reason::SameKeys)),
        Err(fault) => Err(fault),
    }
}

/// The pair of a key and its value.
#[tactic(auto, using(crate::proofs::TreeParts::pair_made, crate::proofs::TreeParts::pair_not))]
pub(crate) fn pair_of(
    key: Tree,
    value: Result<Tree, ValueFault>,
) -> Result<(Tree, Tree), ValueFault>
    ensures { (read : Result PlainTree Reason) → TellsAs plain read value → TellsAs plain_pair (key_then (Ok (plain key)) read) result }
{
    match value {
        Ok(value) => Ok((key, value)),
        Err(fault) => Err(fault),
    }
}
