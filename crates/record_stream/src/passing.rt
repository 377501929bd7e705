//! Passing over a value, and telling whether it can be read.
ghost use Rattle.std.specs.Prelude.{◌≡◌, ◌<◌, Some, None, OnOk, MatchResult, length};
ghost use Rattle.record_stream.specs.Passing.{behind_items, behind_members, behind_value};

use crate::number::parse_number;
use json::{Invalid, Reader, Token};

/// Passes the next value. Arrays and objects may nest `depth` deep. An error comes exactly where the tokens do not begin
/// with a value that can be read; the reader is then not to be used.
#[cycle(passing)]
#[inline(always)]
pub(crate) fn pass_value(reader: &mut Reader<'_>, depth: usize) -> Result<(), Invalid>
    ensures value { MatchResult result (λ _. behind_value depth reader.old ≡ Some reader.new) (λ _. behind_value depth reader.old ≡ None) }
    ensures shorter { OnOk result (length reader.new < length reader.old) }
{
    let token = reader.next().ok_or(Invalid)?;
    match token {
        Token::String(_) | Token::Bool(_) | Token::Null => Ok(()),
        Token::Number(text) => match parse_number(text) {
            Some(_) => Ok(()),
            None => Err(Invalid),
        },
        Token::EndObject | Token::EndArray | Token::Key(_) | Token::Bad => Err(Invalid),
        Token::BeginArray => if depth == 0 {
            Err(Invalid)
        } else {
            pass_items(reader, depth - 1)
        },
        Token::BeginObject => if depth == 0 {
            Err(Invalid)
        } else {
            pass_members(reader, depth - 1)
        },
    }
}

/// Passes the items of an array up to its bracket.
#[cycle(passing)]
#[inline(never)]
pub(crate) fn pass_items(reader: &mut Reader<'_>, depth: usize) -> Result<(), Invalid>
    ensures value { MatchResult result (λ _. behind_items depth reader.old ≡ Some reader.new) (λ _. behind_items depth reader.old ≡ None) }
    ensures shorter { OnOk result (length reader.new < length reader.old) }
{
    'items: while !reader.take_end_array() {
        pass_value(reader, depth)?;
    }
    Ok(())
}

// Passes the members of an object up to its brace.
#[cycle(passing)]
#[inline(never)]
fn pass_members(reader: &mut Reader<'_>, depth: usize) -> Result<(), Invalid>
    ensures value { MatchResult result (λ _. behind_members depth reader.old ≡ Some reader.new) (λ _. behind_members depth reader.old ≡ None) }
    ensures shorter { OnOk result (length reader.new < length reader.old) }
{
    'members: while let Some(_) = reader.next_key()? {
        pass_value(reader, depth)?;
    }
    Ok(())
}
