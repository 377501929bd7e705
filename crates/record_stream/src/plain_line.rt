//! The line of an order in its shortest form, taken apart as it stands, with no index of its tokens.
ghost use Rattle.std.specs.Prelude.{◌≡◌, Some, false, true, IfOk, IfSome};
ghost use Rattle.serde_json.specs.Data.{array, member, no_members, object, string};
ghost use Rattle.serde_json.specs.Read.{read};
ghost use Rattle.serde_json.specs.View.{items_view, view};
ghost use Rattle.record_stream.specs.PlainLine.{AreParts, BeginsWith, HasWord};

use crate::number::parse_number;
use crate::plain_find::{array_of, take_plain, text_after, value_part};
use json::is_number;
use serde_json::Value;
use std::alloc::{AllocError, Global};

// How many parts there are at most.
const MOST_PARTS: usize = 3;

/// The line of an order, taken apart.
#[derive(Drop)]
pub struct PlainLine<'a> {
    /// The name of its one member.
    pub word: &'a str,
    /// What stands under it, still JSON: an array.
    pub content: Value,
}

/// The one member that a line has, where this is an array of two or three numbers, texts and arrays of one of these, and there are no spaces and no escapes.
/// `None` tells nothing of the line.
pub fn split_plain(alloc: Global, line: &str) -> Result<Option<PlainLine<'_>>, AllocError>
    ensures { IfOk result (λ found. IfSome found (λ plain. read line.now ≡ Some (object (member plain.word.now (view plain.content) no_members)))) }
{
    let Some((word, rest)) = word_of(line) else {
        return Ok(None);
    };
    let Some(parts) = parts_of(alloc, rest)? else {
        return Ok(None);
    };
    Ok(Some(PlainLine {
        word,
        content: array_with(parts),
    }))
}

// The name of the first member of a line, and what follows the bracket behind it.
#[tactic(auto, using(crate::proofs::PlainParts::word_cut))]
fn word_of(line: &str) -> Option<(&str, &str)>
    ensures { IfSome result (λ cut. HasWord cut.0.now line.now cut.1.now) }
{
    let rest = text_after(line, "{\"")?;
    let (word, rest) = take_plain(rest)?;
    let rest = text_after(rest, ":[")?;
    Some((word, rest))
}

// The parts up to the end of a line.
#[tactic(auto, using(crate::proofs::PlainParts::two_parts, crate::proofs::PlainParts::three_parts))]
fn parts_of(alloc: Global, text: &str) -> Result<Option<Vec<Value>>, AllocError>
    ensures { IfOk result (λ found. IfSome found (λ parts. AreParts false (items_view parts.items) text.now)) }
{
    let Some((first, rest)) = part_of(alloc, text)? else {
        return Ok(None);
    };
    let Some((second, rest)) = next_part(alloc, rest)? else {
        return Ok(None);
    };
    let mut parts = Vec::with_capacity(alloc, MOST_PARTS)?;
    parts.push(first)?;
    parts.push(second)?;
    if rest == "]}" {
        return Ok(Some(parts));
    }
    let Some((third, rest)) = next_part(alloc, rest)? else {
        return Ok(None);
    };
    parts.push(third)?;
    if rest == "]}" {
        Ok(Some(parts))
    } else {
        Ok(None)
    }
}

// The part behind a comma, and what follows it.
#[tactic(auto, using(crate::proofs::PlainParts::later_part))]
fn next_part(alloc: Global, text: &str) -> Result<Option<(Value, &str)>, AllocError>
    ensures { IfOk result (λ found. IfSome found (λ cut. BeginsWith true (view cut.0) text.now cut.1.now)) }
{
    let Some(rest) = text_after(text, ",") else {
        return Ok(None);
    };
    match part_of(alloc, rest)? {
        Some((part, behind)) => Ok(Some((part, behind))),
        None => Ok(None),
    }
}

// The part at the front of a text, and what follows it.
fn part_of(alloc: Global, text: &str) -> Result<Option<(Value, &str)>, AllocError>
    ensures { IfOk result (λ found. IfSome found (λ cut. BeginsWith false (view cut.0) text.now cut.1.now)) }
{
    if let Some(rest) = text_after(text, "\"") {
        let Some((taken, behind)) = take_plain(rest) else {
            return Ok(None);
        };
        return Ok(Some((string_of(alloc, taken)?, behind)));
    }
    if let Some(rest) = text_after(text, "[") {
        let Some((inside, behind)) = rest.split_once(']') else {
            return Ok(None);
        };
        let Some(value) = value_part(alloc, inside)? else {
            return Ok(None);
        };
        return Ok(Some((array_of(alloc, value)?, behind)));
    }
    Ok(number_of(text))
}

// The number at the front of a text, and what follows it.
#[tactic(auto, using(crate::proofs::PlainParts::number_part))]
fn number_of(text: &str) -> Option<(Value, &str)>
    ensures { IfSome result (λ cut. BeginsWith false (view cut.0) text.now cut.1.now) }
{
    let digits = front_of(text)?;
    let behind = text_after(text, digits)?;
    if !is_number(digits) {
        return None;
    }
    let number = parse_number(digits)?;
    Some((Value::Number(number), behind))
}

// What stands before the first comma of a text, or where there is none, before the first bracket.
fn front_of(text: &str) -> Option<&str> {
    match text.split_once(',') {
        Some((front, _)) => Some(front),
        None => Some(text.split_once(']')?.0),
    }
}

// A text as a value.
fn string_of(alloc: Global, text: &str) -> Result<Value, AllocError>
    ensures { IfOk result (λ found. view found ≡ string text.now) }
{
    Ok(Value::String(String::from_str(alloc, text)?))
}

// The array of these items.
fn array_with(items: Vec<Value>) -> Value
    ensures { view result ≡ array (items_view items.items) }
{
    Value::Array(items)
}
