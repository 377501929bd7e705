//! The types of an order, each with the array of its records.
ghost use Rattle.std.specs.Prelude.{◌≡◌, ◌<◌, List, IfOk, OnOk, Some, drop, length, map, slice_get, string_bytes};
ghost use Rattle.json.specs.Token.{Token};
ghost use Rattle.record_stream.specs.RecordLine.{AreListed, TellsLast, Typed};
ghost use Rattle.record_stream.specs.Parts.{AreNames};
ghost use Rattle.record_stream.specs.Records.{AreAhead};

use crate::opening::{pass_known, take_array};
use crate::parts::TypeNames;
use crate::passing::pass_items;
use crate::read_fault::ReadFault;
use crate::record::RECORD_DEPTH;
use json::Reader;
use serde_json::{Map, Value};
use std::alloc::Global;

/// Passes the types of an order up to the brace, which is passed too: their names. `Invalid` comes where a type has no array of records that can be read.
pub(crate) fn pass_types(alloc: Global, reader: &mut Reader<'_>) -> Result<TypeNames, ReadFault>
    ensures listed { IfOk result (λ names. (types : List Typed) × AreListed reader.old types reader.new × AreNames names types) }
    ensures shorter { OnOk result (length reader.new < length reader.old) }
{
    let mut names = Map::new(alloc);
    let mut order = Vec::new(alloc);
    'types: while let Some(name) = reader.next_key()? {
        take_array(reader)?;
        pass_items(reader, RECORD_DEPTH)?;
        order.push(String::from_str(alloc, name)?)?;
        let key = String::from_str(alloc, name)?;
        drop(names.insert(key, Value::Array(Vec::new(alloc)))?);
    }
    Ok(TypeNames { names, order })
}

/// Passes so many types, and the name and the bracket of the next one, and so leaves the reader at its first record.
pub(crate) fn enter_type(reader: &mut Reader<'_>, place: usize)
    requires { (types : List Typed) × (rest : List Token) × AreListed reader.old types rest × (place < length types) }
    ensures { (types : List Typed) (rest : List Token) (typed : Typed) → AreListed reader.old types rest → slice_get types place ≡ Some typed
        → (behind : List Token) × AreAhead reader.new typed.1 behind }
{
    for _ in 0..place {
        let _name = reader.next();
        pass_known(reader, RECORD_DEPTH + 1);
    }
    let _name = reader.next();
    let _bracket = reader.next();
}

/// The place of the last name that is this one.
pub(crate) fn last_place(names: &[String], name: &str) -> Option<usize>
    ensures { TellsLast name.now (map string_bytes names.now) result }
{
    let mut left = names.len();
    'names: while left > 0 {
        left -= 1;
        if names[left].as_str() == name {
            return Some(left);
        }
    }
    None
}
