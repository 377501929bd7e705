//! The members of an order, in whatever order they stand in its line.
ghost use Rattle.std.specs.Prelude.{◌≡◌, ◌<◌, ◌∷◌, [], List, IfOk, OnOk, length};
ghost use Rattle.json.specs.Token.{Token as SpecToken, end_object, key};
ghost use Rattle.record_stream.specs.Parts.{HaveFound};

use crate::holder::Holder;
use crate::listing::pass_types;
use crate::opening::{is_object_last, take_object};
use crate::read_fault::ReadFault;
use crate::value::read_value;
use json::Reader;
use serde_json::{Map, Value};
use std::alloc::Global;

// How deep arrays and objects may nest in the members of an order: two objects are around them.
const PART_DEPTH: usize = 125;

/// The names of the types of an order.
#[derive(Drop)]
pub(crate) struct TypeNames {
    /// Each once, with an empty array.
    pub(crate) names: Map<String, Value>,
    /// As they stand in the line, where one may be there twice.
    pub(crate) order: Vec<String>,
}

/// The members of an order that were found.
#[derive(Drop)]
pub(crate) struct FoundParts {
    /// The version, still JSON.
    pub(crate) version: Option<Value>,
    /// The tag, still JSON.
    pub(crate) tag: Option<Value>,
    /// The types under which it has records.
    pub(crate) types: Option<TypeNames>,
    /// What stands under its other member, still JSON.
    pub(crate) other: Option<Value>,
}

/// Reads the members of an order, and the end of its line. `Invalid` comes where there is another member than it has, or the records twice, or a member
/// that is none of its kind, or where something follows.
pub(crate) fn parts_ahead(
    alloc: Global,
    reader: &mut Reader<'_>,
    holder: Holder,
) -> Result<FoundParts, ReadFault>
    ensures { IfOk result (HaveFound holder reader.old (end_object ∷ end_object ∷ [])) }
{
    let mut found = FoundParts {
        version: None,
        tag: None,
        types: None,
        other: None,
    };
    'members: while let Some(name) = reader.next_key()? {
        read_part(alloc, reader, holder, name, &mut found)?;
    }
    if is_object_last(reader) {
        Ok(found)
    } else {
        Err(ReadFault::Invalid)
    }
}

// Reads the member whose name was read. Of one that is given twice the last one counts, but of the records.
fn read_part(
    alloc: Global,
    reader: &mut Reader<'_>,
    holder: Holder,
    name: &str,
    found: &mut FoundParts,
) -> Result<(), ReadFault>
    ensures found { OnOk result ((start now : List SpecToken) → HaveFound holder start now found.old → now ≡ key name.now ∷ reader.old → HaveFound holder start reader.new found.new) }
    ensures shorter { OnOk result (length reader.new < length reader.old) }
{
    if name == "version" {
        found.version = Some(read_value(alloc, reader, PART_DEPTH)?);
    } else if name == "tag" {
        found.tag = Some(read_value(alloc, reader, PART_DEPTH)?);
    } else if name == holder.other_name() {
        found.other = Some(read_value(alloc, reader, PART_DEPTH)?);
    } else if name == holder.records_name() && found.types.is_none() {
        take_object(reader)?;
        found.types = Some(pass_types(alloc, reader)?);
    } else {
        return Err(ReadFault::Invalid);
    }
    Ok(())
}
