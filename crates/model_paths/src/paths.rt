//! The paths that texts name in a model.
ghost use Rattle.std.specs.Prelude.{◌<◌, ◌↔◌, length, Ok, Err, IsTrue};
ghost use Rattle.hol_varint.specs.Yields.{Yields};
ghost use Rattle.schema_model.specs.Faults.{IsFreePath, TellsPath, TellsWalk};
ghost use Rattle.schema_model.specs.Path.{Resolves};
ghost use Rattle.schema_model.specs.WalkPath.{WalkResolves};
ghost use Rattle.schema_model.specs.declared.model.path.Path.{Path};
ghost use Rattle.schema_model.specs.declared.model.walk_path.WalkPath.{WalkPath};

use crate::path_walk::{leads, way_of};
use crate::walk_steps::parts_of;
use schema_model::{Model, Path, PathFault, WalkPath};
use std::alloc::Global;

/// The path that a text names from a type: it is cut at each '.' into the names of fields, and goes on through types of one field.
/// `BadPath` comes where it leads to no value.
pub fn resolve(alloc: Global, model: &Model, type_index: u32, text: &str) -> Result<Path, PathFault>
    requires { type_index < length model.now }
    ensures tells { TellsPath model.now type_index text.now result }
    ensures found { (path : Path) → Yields IsFreePath result (Ok path) (Resolves model.now type_index text.now path) }
    ensures unresolved { Yields IsFreePath result (Err PathFault.BadPath) ((path : Path) → ¬ Resolves model.now type_index text.now path) }
{
    let fields = way_of(alloc, model.schemas(), model.names(), type_index, text)?;
    Ok(Path { type_index, fields })
}

/// Whether a text resolves to a path, which `resolve` would answer then. It takes no memory.
pub fn resolves_to(model: &Model, text: &str, path: &Path) -> bool
    requires { path.now.type_index < length model.now }
    ensures { IsTrue result ↔ Resolves model.now path.now.type_index text.now path.now }
{
    let fields = path.fields.as_slice();
    leads(
        model.schemas(),
        model.names(),
        path.type_index,
        text,
        fields,
    )
}

/// The walk path that a text names from a type of any kind: it is cut at each '.' into the names of parts, each a field of an OBJECT, `element` in a LIST or a
/// SET, `key` or `value` in a MAP, and goes on through types of one field. `BadPath` comes where it leads to no value.
pub fn resolve_walk(
    alloc: Global,
    model: &Model,
    type_index: u32,
    text: &str,
) -> Result<WalkPath, PathFault>
    requires { type_index < length model.now }
    ensures tells { TellsWalk model.now type_index text.now result }
    ensures found { (path : WalkPath) → Yields IsFreePath result (Ok path) (WalkResolves model.now type_index text.now path) }
    ensures unresolved { Yields IsFreePath result (Err PathFault.BadPath) ((path : WalkPath) → ¬ WalkResolves model.now type_index text.now path) }
{
    let parts = parts_of(alloc, model.schemas(), model.names(), type_index, text)?;
    Ok(WalkPath { type_index, parts })
}
