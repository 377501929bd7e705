//! An order whose records stay in its line, taken apart.
ghost use Rattle.std.specs.Prelude.{◌≡◌, ◌∷◌, [], List, Some, IfOk};
ghost use Rattle.std.specs.Option.{option_map};
ghost use Rattle.json.specs.Lex.{tokens};
ghost use Rattle.json.specs.Token.{Token, begin_object, end_object, key};
ghost use Rattle.serde_json.specs.Data.{no_members, object};
ghost use Rattle.serde_json.specs.Read.{read};
ghost use Rattle.serde_json.specs.View.{view};
ghost use Rattle.record_stream.specs.Holder.{word};
ghost use Rattle.record_stream.specs.Parts.{HaveFound};
ghost use Rattle.record_stream.specs.RecordLine.{Typed, added_by, holder_data, with_types};

use crate::holder::Holder;
use crate::opening::open_order;
use crate::parts::{FoundParts, parts_ahead};
use crate::read_fault::ReadFault;
use crate::record_line::RecordLine;
use json::{Reader, Scratch};
use serde_json::Value;
use std::alloc::Global;

/// What an order says whose records stay in its line.
#[derive(Drop)]
pub(crate) struct HeldParts {
    /// The version, still JSON.
    pub(crate) version: Value,
    /// The tag, still JSON.
    pub(crate) tag: Value,
    /// The records by type, still in the line.
    pub(crate) records: RecordLine,
    /// What stands under its other member, still JSON.
    pub(crate) other: Option<Value>,
}

/// The parts of the order that a line is, the members in any order. The records are read once, so that it is known that they can be. `Invalid` tells
/// nothing of the line.
pub(crate) fn held_in(alloc: Global, holder: Holder, line: &str) -> Result<HeldParts, ReadFault>
    ensures same { IfOk result (λ held. held.records ≡ line.now) }
    ensures read { IfOk result (λ held. read line.now ≡ Some (holder_data holder (view held.version) (view held.tag) (added_by line.now) (option_map view held.other))) }
    ensures types { IfOk result (λ held. (types : List Typed) × (added_by line.now ≡ object (with_types types no_members))) }
{
    let found = found_in(alloc, holder, line)?;
    let (Some(version), Some(tag), Some(types)) = (found.version, found.tag, found.types) else {
        return Err(ReadFault::Invalid);
    };
    let records = RecordLine {
        text: String::from_str(alloc, line)?,
        holder,
        names: Value::Object(types.names),
        order: types.order,
    };
    Ok(HeldParts {
        version,
        tag,
        records,
        other: found.other,
    })
}

// The members of the order that a line is.
fn found_in(alloc: Global, holder: Holder, line: &str) -> Result<FoundParts, ReadFault>
    ensures { IfOk result (λ found. (inside : List Token) × (tokens line.now ≡ begin_object ∷ key (word holder) ∷ begin_object ∷ inside) × HaveFound holder inside (end_object ∷ end_object ∷ []) found) }
{
    let mut scratch = Scratch::new(alloc);
    let mut reader = Reader::new(line, &mut scratch)?;
    open_order(&mut reader, holder)?;
    parts_ahead(alloc, &mut reader, holder)
}
