//! The primary keys of types and of their records.
ghost use Rattle.std.specs.Prelude.{◌<◌, IfOk, length};
ghost use Rattle.record_trees.specs.Tree.{plain};
ghost use Rattle.hol_incremental.specs.EditKeys.{TellsKeyPaths};
ghost use Rattle.hol_incremental.specs.Roots.{TellsTreeKey};

use crate::key_paths::key_paths;
use crate::tree_key::tree_key;
use record_trees::Tree;
use row_model::Values;
use schema_model::{Model, Paths};
use std::alloc::{AllocError, Global};

/// The paths of a type's primary key, if it has one.
pub fn primary_key(
    alloc: Global,
    model: &Model,
    type_index: u32,
) -> Result<Option<Paths>, AllocError>
    requires { type_index < length model.now }
    ensures { IfOk result (TellsKeyPaths model.now type_index) }
{
    key_paths(alloc, model, type_index)
}

/// The primary key of a record, if it has one: its type has a primary key, and no null stands on a path of it. The least INT and the least LONG count as null.
pub fn record_key(
    alloc: Global,
    model: &Model,
    type_index: u32,
    tree: &Tree,
) -> Result<Option<Values>, AllocError>
    requires { type_index < length model.now }
    ensures { IfOk result (TellsTreeKey model.now type_index (plain tree.now)) }
{
    let _types = model.len();
    match key_paths(alloc, model, type_index)? {
        Some(paths) => tree_key(alloc, tree, &paths),
        None => Ok(None),
    }
}
