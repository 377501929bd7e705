//! The line of a change, taken apart.
ghost use Rattle.std.specs.Prelude.{◌≡◌, List, Some, IfOk, IfSome};
ghost use Rattle.serde_json.specs.Data.{no_members, object};
ghost use Rattle.serde_json.specs.Read.{read};
ghost use Rattle.serde_json.specs.View.{view};
ghost use Rattle.record_stream.specs.ChangeLine.{change_data};
ghost use Rattle.record_stream.specs.RecordLine.{Typed, added_by, with_types};

use crate::held::{HeldParts, held_in};
use crate::holder::Holder;
use crate::read_fault::ReadFault;
use crate::record_line::RecordLine;
use serde_json::Value;
use std::alloc::{AllocError, Global};

/// What a change asks for whose records stay in its line.
#[derive(Drop)]
pub struct ChangeParts {
    /// The version, still JSON.
    pub version: Value,
    /// The tag, still JSON.
    pub tag: Value,
    /// The records that it puts by type, still in the line.
    pub put: RecordLine,
    /// The keys of the records that it removes, still JSON.
    pub remove: Value,
}

/// The parts of the change that a line is: `{"change":{"version":V,"tag":T,"put":{type:[records]},"remove":R}}`, the members in any order. The records are
/// read once, so that it is known that they can be. `None` tells nothing of the line.
pub fn split_change(alloc: Global, line: &str) -> Result<Option<ChangeParts>, AllocError>
    ensures same { IfOk result (λ found. IfSome found (λ parts. parts.put ≡ line.now)) }
    ensures read { IfOk result (λ found. IfSome found (λ parts. read line.now ≡ Some (change_data (view parts.version) (view parts.tag) (added_by line.now) (view parts.remove)))) }
    ensures types { IfOk result (λ found. IfSome found (λ parts. (types : List Typed) × (added_by line.now ≡ object (with_types types no_members)))) }
{
    match change_in(alloc, line) {
        Ok(parts) => Ok(Some(parts)),
        Err(ReadFault::Invalid) => Ok(None),
        Err(ReadFault::Memory) => Err(AllocError),
    }
}

// The parts of the change that a line is. `Invalid` tells nothing of the line.
fn change_in(alloc: Global, line: &str) -> Result<ChangeParts, ReadFault>
    ensures same { IfOk result (λ parts. parts.put ≡ line.now) }
    ensures read { IfOk result (λ parts. read line.now ≡ Some (change_data (view parts.version) (view parts.tag) (added_by line.now) (view parts.remove))) }
    ensures types { IfOk result (λ parts. (types : List Typed) × (added_by line.now ≡ object (with_types types no_members))) }
{
    let held = held_in(alloc, Holder::Change, line)?;
    let HeldParts {
        version,
        tag,
        records,
        other,
    } = held;
    match other {
        Some(remove) => Ok(ChangeParts {
            version,
            tag,
            put: records,
            remove,
        }),
        None => Err(ReadFault::Invalid),
    }
}
