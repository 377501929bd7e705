//! The line of a look-up by a key, read straight from its tokens.
ghost use Rattle.std.specs.Prelude.{◌≡◌, ◌∷◌, [], Some, IfOk, IfSome, IsTrue, string_bytes};
ghost use Rattle.json.specs.Json.{value};
ghost use Rattle.json.specs.Token.{end_array, end_object, string as string_token};
ghost use Rattle.serde_json.specs.Read.{converted, of_json, read};
ghost use Rattle.serde_json.specs.View.{view};
ghost use Rattle.record_stream.specs.FindLine.{find_data};

use crate::opening::{is_array_closed, is_object_closed, take_array, take_key, take_object};
use crate::plain_find::plain_find;
use crate::read_fault::ReadFault;
use crate::value::read_value;
use json::{Reader, Scratch, Token};
use serde_json::Value;
use std::alloc::{AllocError, Global};

// How deep arrays and objects may nest in the paths and in the values: an object and an array are around them.
const PART_DEPTH: usize = 125;

/// What a look-up by a key asks for.
#[derive(Drop)]
pub struct FindParts {
    /// The name of the type.
    pub type_name: String,
    /// The paths of the key, still JSON.
    pub paths: Value,
    /// The values of the key, still JSON.
    pub values: Value,
}

/// The parts of the look-up that a line is: `{"find":[type,paths,values]}`, where the type is a text. `None` tells nothing of the line. The scratch can be
/// that of the line before.
pub fn split_find(
    alloc: Global,
    scratch: &mut Scratch,
    line: &str,
) -> Result<Option<FindParts>, AllocError>
    ensures { IfOk result (λ found. IfSome found (λ parts. read line.now ≡ Some (find_data (string_bytes parts.type_name) (view parts.paths) (view parts.values)))) }
{
    if let Some(parts) = plain_find(alloc, line)? {
        return Ok(Some(parts));
    }
    let mut reader = Reader::new(line, scratch)?;
    match find_ahead(alloc, &mut reader) {
        Ok(parts) => Ok(Some(parts)),
        Err(ReadFault::Invalid) => Ok(None),
        Err(ReadFault::Memory) => Err(AllocError),
    }
}

// The parts of the look-up that the tokens of a line are. `Invalid` tells nothing of the line.
fn find_ahead(alloc: Global, reader: &mut Reader<'_>) -> Result<FindParts, ReadFault>
    ensures { IfOk result (λ parts. converted of_json (value 127 reader.old) ≡ Some (find_data (string_bytes parts.type_name) (view parts.paths) (view parts.values), [])) }
{
    take_object(reader)?;
    take_key(reader, "find")?;
    take_array(reader)?;
    let type_name = take_text(alloc, reader)?;
    let paths = read_value(alloc, reader, PART_DEPTH)?;
    let values = read_value(alloc, reader, PART_DEPTH)?;
    if !is_find_closed(reader) {
        return Err(ReadFault::Invalid);
    }
    Ok(FindParts {
        type_name,
        paths,
        values,
    })
}

// Takes a text.
#[inline(always)]
fn take_text(alloc: Global, reader: &mut Reader<'_>) -> Result<String, ReadFault>
    ensures { IfOk result (λ text. reader.old ≡ string_token (string_bytes text) ∷ reader.new) }
{
    match reader.next() {
        Some(Token::String(text)) => Ok(String::from_str(alloc, text)?),
        _ => Err(ReadFault::Invalid),
    }
}

// Whether the array, the object around it and the line end.
#[inline(always)]
fn is_find_closed(reader: &mut Reader<'_>) -> bool
    ensures { IsTrue result → reader.old ≡ end_array ∷ end_object ∷ [] }
{
    is_array_closed(reader) && is_object_closed(reader) && reader.next().is_none()
}
