//! The start of an order's line, up to its records.
ghost use Rattle.std.specs.Prelude.{◌≡◌, ◌∷◌, [], List, Some, OnOk, IsTrue};
ghost use Rattle.json.specs.Token.{Token as SpecToken, begin_array, begin_object, end_array, end_object, key};
ghost use Rattle.json.specs.Json.{Json, skip_value, value};
ghost use Rattle.record_stream.specs.Holder.{word};
ghost use Rattle.record_stream.specs.RecordLine.{AreAdded, AreListed, Typed};

use crate::holder::Holder;
use json::{Invalid, Reader, Token};

// How deep arrays and objects may nest in the members of an order: two objects are around them.
const PART_DEPTH: usize = 125;

/// Opens an order: passes the tokens up to its first member.
pub(crate) fn open_order(reader: &mut Reader<'_>, holder: Holder) -> Result<(), Invalid>
    ensures { OnOk result (reader.old ≡ begin_object ∷ key (word holder) ∷ begin_object ∷ reader.new) }
{
    take_object(reader)?;
    take_key(reader, holder.word())?;
    take_object(reader)
}

/// Passes the three tokens up to the first member of an order.
pub(crate) fn pass_opening(reader: &mut Reader<'_>)
    ensures { (one two three : SpecToken) (rest : List SpecToken) → reader.old ≡ one ∷ two ∷ three ∷ rest → reader.new ≡ rest }
{
    let _brace = reader.next();
    let _word = reader.next();
    let _inner_brace = reader.next();
}

/// Passes the members of an order up to the first type behind the one that has this name.
pub(crate) fn enter_types(reader: &mut Reader<'_>, sought: &str)
    requires { (types : List Typed) × AreAdded sought.now reader.old types }
    ensures { (types : List Typed) → AreAdded sought.now reader.old types → (rest : List SpecToken) × AreListed reader.new types rest }
{
    'members: while let Ok(Some(name)) = reader.next_key() {
        if name == sought {
            let _brace = reader.next();
            return;
        }
        pass_known(reader, PART_DEPTH);
    }
}

/// Passes a value that can be read. Arrays and objects may nest `depth` deep in it.
pub(crate) fn pass_known(reader: &mut Reader<'_>, depth: usize)
    requires { (json : Json) × (rest : List SpecToken) × (value depth reader.old ≡ Some (json, rest)) }
    ensures { skip_value depth reader.old ≡ Some reader.new }
{
    if reader.skip_value(depth).is_err() {
        unreachable!()
    }
}

/// Whether an object and the line end.
pub(crate) fn is_object_last(reader: &mut Reader<'_>) -> bool
    ensures { IsTrue result → reader.old ≡ end_object ∷ [] }
{
    is_object_closed(reader) && reader.next().is_none()
}

/// Whether the next token is the brace that closes an object.
#[inline(always)]
pub(crate) fn is_object_closed(reader: &mut Reader<'_>) -> bool
    ensures { IsTrue result → reader.old ≡ end_object ∷ reader.new }
{
    matches!(reader.next(), Some(Token::EndObject))
}

/// Whether the next token is the bracket that closes an array.
#[inline(always)]
pub(crate) fn is_array_closed(reader: &mut Reader<'_>) -> bool
    ensures { IsTrue result → reader.old ≡ end_array ∷ reader.new }
{
    matches!(reader.next(), Some(Token::EndArray))
}

/// Passes the brace that opens an object.
#[inline(always)]
pub(crate) fn take_object(reader: &mut Reader<'_>) -> Result<(), Invalid>
    ensures { OnOk result (reader.old ≡ begin_object ∷ reader.new) }
{
    match reader.next() {
        Some(Token::BeginObject) => Ok(()),
        _ => Err(Invalid),
    }
}

/// Passes the name of a member.
#[inline(always)]
pub(crate) fn take_key(reader: &mut Reader<'_>, name: &str) -> Result<(), Invalid>
    ensures { OnOk result (reader.old ≡ key name.now ∷ reader.new) }
{
    match reader.next() {
        Some(Token::Key(found)) if found == name => Ok(()),
        _ => Err(Invalid),
    }
}

/// Passes the bracket that opens an array.
#[inline(always)]
pub(crate) fn take_array(reader: &mut Reader<'_>) -> Result<(), Invalid>
    ensures { OnOk result (reader.old ≡ begin_array ∷ reader.new) }
{
    match reader.next() {
        Some(Token::BeginArray) => Ok(()),
        _ => Err(Invalid),
    }
}
