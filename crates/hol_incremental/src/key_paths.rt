//! The paths of primary keys.
ghost use Rattle.std.specs.Prelude.{◌<◌, All, IfOk, length};
ghost use Rattle.std.specs.List.{AllZip};
ghost use Rattle.schema_model.specs.Path.{Resolves};
ghost use Rattle.schema_model.specs.declared.model.path.Path.{Path as ResolvedPath};
ghost use Rattle.hol_incremental.specs.EditKeys.{TellsKeyPaths};

use model_paths::resolve;
use schema_model::{Model, Name, Path, PathFault, Paths, Shape};
use std::alloc::{AllocError, Global};

/// The paths of a type's primary key, if it has one.
pub(crate) fn key_paths(
    alloc: Global,
    model: &Model,
    type_index: u32,
) -> Result<Option<Paths>, AllocError>
    requires { type_index < length model.now }
    ensures { IfOk result (TellsKeyPaths model.now type_index) }
{
    let Shape::Object(key, _) = &model.schema(type_index).shape else {
        return Ok(None);
    };
    match key {
        Some(texts) => Ok(Some(resolve_all(alloc, model, type_index, texts.as_slice())?)),
        None => Ok(None),
    }
}

// The paths to which texts resolve, as each does.
fn resolve_all(
    alloc: Global,
    model: &Model,
    type_index: u32,
    texts: &[Name],
) -> Result<Paths, AllocError>
    requires known { type_index < length model.now }
    requires resolved { All (λ text. ¬ ((path : ResolvedPath) → ¬ Resolves model.now type_index text path)) texts.now }
    ensures { IfOk result (AllZip (λ text path. Resolves model.now type_index text path) texts.now) }
{
    let mut paths = Paths::new(alloc);
    for text in texts {
        paths.push(resolve_one(alloc, model, type_index, text)?)?;
    }
    Ok(paths)
}

// The path to which a text resolves, as it does.
fn resolve_one(
    alloc: Global,
    model: &Model,
    type_index: u32,
    text: &Name,
) -> Result<Path, AllocError>
    requires known { type_index < length model.now }
    requires resolved { ¬ ((path : ResolvedPath) → ¬ Resolves model.now type_index text.now path) }
    ensures { IfOk result (Resolves model.now type_index text.now) }
{
    match resolve(alloc, model, type_index, text.text()) {
        Ok(path) => Ok(path),
        Err(PathFault::BadPath) => unreachable!(),
        Err(PathFault::Memory) => Err(AllocError),
    }
}
