//! The line of a look-up by one path in its shortest form, taken apart as it stands, with no index of its tokens.
ghost use Rattle.std.specs.Prelude.{◌≡◌, ◌≢◌, ◌<◌, ◌≤◌, ◌++◌, ◌∷◌, ℕ, Some, IfOk, IfSome, IsTrue, length, slice_index, string_bytes};
ghost use Rattle.json.specs.Print.{quoted};
ghost use Rattle.serde_json.specs.Data.{array, item, no_items, string};
ghost use Rattle.serde_json.specs.Read.{read};
ghost use Rattle.serde_json.specs.View.{view};
ghost use Rattle.record_stream.specs.FindLine.{find_data};
ghost use Rattle.record_stream.specs.PlainFind.{IsPlainFind, IsScalar};

use crate::find_line::FindParts;
use crate::number::parse_number;
use json::is_number;
use serde_json::Value;
use std::alloc::{AllocError, Global};

// A line, cut at its parts.
#[derive(Drop)]
struct CutLine<'a> {
    type_name: &'a str,
    path: &'a str,
    value: &'a str,
}

/// The parts of the look-up that a line is, where it has one path and one value, a number or a text, and no spaces and no escapes. `None` tells nothing of
/// the line.
pub(crate) fn plain_find(alloc: Global, line: &str) -> Result<Option<FindParts>, AllocError>
    ensures { IfOk result (λ found. IfSome found (λ parts. read line.now ≡ Some (find_data (string_bytes parts.type_name) (view parts.paths) (view parts.values)))) }
{
    let Some(cut) = cut_line(line) else {
        return Ok(None);
    };
    let Some(value) = value_part(alloc, cut.value)? else {
        return Ok(None);
    };
    Ok(Some(FindParts {
        type_name: String::from_str(alloc, cut.type_name)?,
        paths: array_of_text(alloc, cut.path)?,
        values: array_of(alloc, value)?,
    }))
}

// Cuts a line.
fn cut_line(line: &str) -> Option<CutLine<'_>>
    ensures { IfSome result (λ cut. IsPlainFind cut.type_name.now cut.path.now cut.value.now line.now) }
{
    let rest = text_after(line, "{\"find\":[\"")?;
    let (type_name, rest) = take_plain(rest)?;
    let rest = text_after(rest, ",[\"")?;
    let (path, rest) = take_plain(rest)?;
    let rest = text_after(rest, "],[")?;
    let (value, rest) = rest.split_once(']')?;
    if rest == "]}" {
        Some(CutLine {
            type_name,
            path,
            value,
        })
    } else {
        None
    }
}

// What follows a text's front.
#[inline(always)]
pub(crate) fn text_after<'a>(text: &'a str, front: &'a str) -> Option<&'a str>
    ensures { IfSome result (λ rest. text.now ≡ front.now ++ rest.now) }
{
    text.strip_prefix(front)
}

// Takes a text without escapes, behind its first quote, and its last one.
pub(crate) fn take_plain(line: &str) -> Option<(&str, &str)>
    ensures { IfSome result (λ taken. 34 ∷ line.now ≡ quoted taken.0.now ++ taken.1.now) }
{
    let (text, rest) = line.split_once('"')?;
    if is_plain(text.as_bytes()) {
        Some((text, rest))
    } else {
        None
    }
}

// Whether none of the bytes is a backslash or a control byte.
fn is_plain(bytes: &[u8]) -> bool
    ensures { IsTrue result → (place : ℕ) → place < length bytes.now → (slice_index bytes.now place ≢ 92) × (32 ≤ slice_index bytes.now place) }
{
    for byte in bytes {
        if *byte == b'\\' || *byte < b' ' {
            return false;
        }
    }
    true
}

// The number or the text without escapes that a part of a line is.
#[tactic(auto, using(crate::proofs::PlainLines::text_part))]
pub(crate) fn value_part(alloc: Global, part: &str) -> Result<Option<Value>, AllocError>
    ensures { IfOk result (λ found. IfSome found (λ value. IsScalar (view value) part.now)) }
{
    if let Some(rest) = text_after(part, "\"") {
        return match take_plain(rest) {
            Some((text, "")) => Ok(Some(Value::String(String::from_str(alloc, text)?))),
            _ => Ok(None),
        };
    }
    if !is_number(part) {
        return Ok(None);
    }
    match parse_number(part) {
        Some(number) => Ok(Some(Value::Number(number))),
        None => Ok(None),
    }
}

// The array of one item.
pub(crate) fn array_of(alloc: Global, value: Value) -> Result<Value, AllocError>
    ensures { IfOk result (λ found. view found ≡ array (item (view value) no_items)) }
{
    let mut items = Vec::with_capacity(alloc, 1)?;
    items.push(value)?;
    Ok(Value::Array(items))
}

// The array of one text.
fn array_of_text(alloc: Global, text: &str) -> Result<Value, AllocError>
    ensures { IfOk result (λ found. view found ≡ array (item (string text.now) no_items)) }
{
    array_of(alloc, Value::String(String::from_str(alloc, text)?))
}
