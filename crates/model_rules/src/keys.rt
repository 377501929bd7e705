//! The rule of primary keys: each has a path, and its paths resolve.
ghost use Rattle.std.specs.Prelude.{◌<◌, ◌≤◌, ◌↔◌, length, Any, IfOk, IsTrue};
ghost use Rattle.schema_model.specs.Ways.{CanBeWalked};
ghost use Rattle.model_rules.specs.RuleTests.{TellsRule};
ghost use Rattle.schema_model.specs.Model.{BreaksAt, IsBadPath};

use model_paths::way_of;
use schema_model::{ModelFault, NameIndex, Names, PathFault, Rule, Schemas, Shape};
use std::alloc::{AllocError, Global};

/// Whether one of the key paths of a type leads nowhere.
fn has_bad_path(
    alloc: Global,
    schemas: &Schemas,
    index: &NameIndex,
    type_index: u32,
    paths: &Names,
) -> Result<bool, AllocError>
    requires inside { type_index < length schemas.now }
    requires ready { CanBeWalked schemas.now index.now }
    ensures { IfOk result (λ bad. IsTrue bad ↔ Any (IsBadPath schemas.now type_index) paths.now) }
{
    for path in paths.as_slice() {
        match way_of(alloc, schemas, index, type_index, path.text()) {
            Ok(_) => {}
            Err(PathFault::BadPath) => return Ok(true),
            Err(PathFault::Memory) => return Err(AllocError),
        }
    }
    Ok(false)
}

/// Whether a type has a primary key without a path, or with one that leads nowhere.
fn has_bad_key(
    alloc: Global,
    schemas: &Schemas,
    index: &NameIndex,
    type_index: u32,
) -> Result<bool, AllocError>
    requires inside { type_index < length schemas.now }
    requires ready { CanBeWalked schemas.now index.now }
    ensures { IfOk result (λ bad. IsTrue bad ↔ BreaksAt schemas.now Rule.BadPath type_index) }
{
    match &schemas.get(type_index as usize).shape {
        Shape::Object(Some(paths), _) => {
            if paths.is_empty() {
                return Ok(true);
            }
            has_bad_path(alloc, schemas, index, type_index, paths)
        }
        _ => Ok(false),
    }
}

/// Tries that each primary key has a path, and that each of its paths leads to a value.
pub(crate) fn check_keys(
    alloc: Global,
    schemas: &Schemas,
    index: &NameIndex,
) -> Result<(), ModelFault>
    requires ready { CanBeWalked schemas.now index.now }
    requires short { length schemas.now ≤ 512 }
    ensures { TellsRule schemas.now Rule.BadPath result }
{
    for type_index in 0..schemas.len() as u32 {
        if has_bad_key(alloc, schemas, index, type_index)? {
            return Err(ModelFault::Broken(Rule::BadPath, type_index));
        }
    }
    Ok(())
}
