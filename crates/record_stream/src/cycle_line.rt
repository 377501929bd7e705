//! The line of a cycle, taken apart.
ghost use Rattle.std.specs.Prelude.{◌≡◌, List, Some, IfOk, IfSome};
ghost use Rattle.std.specs.Option.{option_map};
ghost use Rattle.serde_json.specs.Data.{boolean, no_members, object};
ghost use Rattle.serde_json.specs.Read.{read};
ghost use Rattle.serde_json.specs.View.{view};
ghost use Rattle.record_stream.specs.CycleLine.{cycle_data};
ghost use Rattle.record_stream.specs.RecordLine.{Typed, added_by, with_types};

use crate::held::held_in;
use crate::holder::Holder;
use crate::read_fault::ReadFault;
use crate::record_line::RecordLine;
use serde_json::Value;
use std::alloc::{AllocError, Global};

/// What a cycle asks for whose records stay in its line.
#[derive(Drop)]
pub struct CycleParts {
    /// The version, still JSON.
    pub version: Value,
    /// The tag, still JSON.
    pub tag: Value,
    /// The records that it adds by type, still in the line.
    pub add: RecordLine,
    /// Whether its snapshot is put, where this is said.
    pub snapshot: Option<bool>,
}

/// The parts of the cycle that a line is: `{"cycle":{"version":V,"tag":T,"add":{type:[records]}}}`, and perhaps `"snapshot":b`, a truth value, the
/// members in any order. The records are read once, so that it is known that they can be. `None` tells nothing of the line.
pub fn split_cycle(alloc: Global, line: &str) -> Result<Option<CycleParts>, AllocError>
    ensures same { IfOk result (λ found. IfSome found (λ parts. parts.add ≡ line.now)) }
    ensures read { IfOk result (λ found. IfSome found (λ parts. read line.now ≡ Some (cycle_data (view parts.version) (view parts.tag) (added_by line.now) parts.snapshot))) }
    ensures types { IfOk result (λ found. IfSome found (λ parts. (types : List Typed) × (added_by line.now ≡ object (with_types types no_members)))) }
{
    match cycle_in(alloc, line) {
        Ok(parts) => Ok(Some(parts)),
        Err(ReadFault::Invalid) => Ok(None),
        Err(ReadFault::Memory) => Err(AllocError),
    }
}

// The parts of the cycle that a line is. `Invalid` tells nothing of the line.
fn cycle_in(alloc: Global, line: &str) -> Result<CycleParts, ReadFault>
    ensures same { IfOk result (λ parts. parts.add ≡ line.now) }
    ensures read { IfOk result (λ parts. read line.now ≡ Some (cycle_data (view parts.version) (view parts.tag) (added_by line.now) parts.snapshot)) }
    ensures types { IfOk result (λ parts. (types : List Typed) × (added_by line.now ≡ object (with_types types no_members))) }
{
    let held = held_in(alloc, Holder::Cycle, line)?;
    let snapshot = flag_of(held.other)?;
    Ok(CycleParts {
        version: held.version,
        tag: held.tag,
        add: held.records,
        snapshot,
    })
}

// The truth value that a value is, where there is one.
fn flag_of(value: Option<Value>) -> Result<Option<bool>, ReadFault>
    ensures { IfOk result (λ flag. option_map view value ≡ option_map boolean flag) }
{
    match value {
        None => Ok(None),
        Some(Value::Bool(flag)) => Ok(Some(flag)),
        Some(_) => Err(ReadFault::Invalid),
    }
}
