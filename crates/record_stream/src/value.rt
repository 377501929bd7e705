//! The next value of a reader of tokens, as a value of its own.
ghost use Rattle.std.specs.Prelude.{◌≡◌, ◌<◌, length, Some, None, Err, IfOk, OnOk};
ghost use Rattle.json.specs.Json.{value, items, members};
ghost use Rattle.serde_json.specs.Data.{no_members};
ghost use Rattle.serde_json.specs.Read.{of_json, of_items, of_members, converted};
ghost use Rattle.serde_json.specs.View.{view, items_view, members_view};

use crate::number::parse_number;
use crate::read_fault::ReadFault;
use json::{Reader, Token};
use serde_json::{Map, Value};
use std::alloc::Global;

/// The next value. Arrays and objects may nest `depth` deep. `Invalid` comes only where the tokens do not begin with
/// such a value; after an error the reader is not to be used.
#[cycle(reading)]
#[inline(always)]
pub(crate) fn read_value(
    alloc: Global,
    reader: &mut Reader<'_>,
    depth: usize,
) -> Result<Value, ReadFault>
    ensures ok { IfOk result (λ v. converted of_json (value depth reader.old) ≡ Some (view v, reader.new)) }
    ensures shorter { OnOk result (length reader.new < length reader.old) }
    ensures invalid { result ≡ Err ReadFault.Invalid → converted of_json (value depth reader.old) ≡ None }
{
    let token = reader.next().ok_or(ReadFault::Invalid)?;
    match token {
        Token::String(text) => Ok(Value::String(String::from_str(alloc, text)?)),
        Token::Number(text) => match parse_number(text) {
            Some(number) => Ok(Value::Number(number)),
            None => Err(ReadFault::Invalid),
        },
        Token::Bool(flag) => Ok(Value::Bool(flag)),
        Token::Null => Ok(Value::Null),
        Token::EndObject | Token::EndArray | Token::Key(_) | Token::Bad => Err(ReadFault::Invalid),
        Token::BeginArray => {
            if depth == 0 {
                return Err(ReadFault::Invalid);
            }
            Ok(Value::Array(read_items(alloc, reader, depth - 1)?))
        }
        Token::BeginObject => {
            if depth == 0 {
                return Err(ReadFault::Invalid);
            }
            Ok(Value::Object(read_members(alloc, reader, depth - 1)?))
        }
    }
}

// The items of an array, up to its bracket.
#[cycle(reading)]
#[inline(never)]
fn read_items(alloc: Global, reader: &mut Reader<'_>, depth: usize) -> Result<Vec<Value>, ReadFault>
    ensures ok { IfOk result (λ v. converted of_items (items (value depth) (length reader.old) reader.old)
        ≡ Some (items_view v.items, reader.new)) }
    ensures shorter { OnOk result (length reader.new < length reader.old) }
    ensures invalid { result ≡ Err ReadFault.Invalid
        → converted of_items (items (value depth) (length reader.old) reader.old) ≡ None }
{
    let mut found = Vec::new(alloc);
    'items: while !reader.take_end_array() {
        let item = read_value(alloc, reader, depth)?;
        found.push(item)?;
    }
    Ok(found)
}

// The members of an object, up to its brace.
#[cycle(reading)]
#[inline(never)]
fn read_members(
    alloc: Global,
    reader: &mut Reader<'_>,
    depth: usize,
) -> Result<Map<String, Value>, ReadFault>
    ensures ok { IfOk result (λ m. converted (λ ms. of_members ms no_members)
        (members (value depth) (length reader.old) reader.old) ≡ Some (members_view m.entries, reader.new)) }
    ensures shorter { OnOk result (length reader.new < length reader.old) }
    ensures invalid { result ≡ Err ReadFault.Invalid → converted (λ ms. of_members ms no_members)
        (members (value depth) (length reader.old) reader.old) ≡ None }
{
    let mut found = Map::new(alloc);
    'members: while let Some(name) = reader.next_key()? {
        let key = String::from_str(alloc, name)?;
        let member = read_value(alloc, reader, depth)?;
        drop(found.insert(key, member)?);
    }
    Ok(found)
}
