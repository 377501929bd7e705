//! The walk path that an order asks for.
ghost use Rattle.std.specs.Prelude.{◌<◌, IfOk, length};
ghost use Rattle.reach_orders.specs.Walked.{TellsWay};

use hol_answers::Refusal;
use hol_varint::Duplicate;
use model_paths::resolve_walk;
use schema_model::{Model, Name, PathFault, WalkPath};
use std::alloc::{AllocError, Global};

/// Where the text of a walk path leads from a type.
#[derive(Drop)]
pub(crate) enum WalkWay {
    /// To values, along this path.
    Resolved(WalkPath),
    /// To no value: `BadPath`.
    Refused(Refusal),
}

/// The walk path to which a text resolves from the type at an index. Refused with `BadPath` where it leads to no value.
pub(crate) fn walk_way(
    alloc: Global,
    model: &Model,
    type_index: u32,
    text: &Name,
) -> Result<WalkWay, AllocError>
    requires { type_index < length model.now }
    ensures { IfOk result (TellsWay model.now type_index text.now) }
{
    match resolve_walk(alloc, model, type_index, text.text()) {
        Ok(path) => Ok(WalkWay::Resolved(path)),
        Err(PathFault::BadPath) => Ok(WalkWay::Refused(Refusal::BadPath(text.copy(alloc)?))),
        Err(PathFault::Memory) => Err(AllocError),
    }
}
