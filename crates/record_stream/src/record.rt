//! The records of an array, one after another.
ghost use Rattle.std.specs.Prelude.{List, ◌≤◌, IfOk, drop, length};
ghost use Rattle.json.specs.Token.{Token};
ghost use Rattle.serde_json.specs.Data.{Data};
ghost use Rattle.record_stream.specs.Records.{AreAhead, TellsRecord};

use crate::opening::pass_known;
use crate::read_fault::ReadFault;
use crate::value::read_value;
use json::Reader;
use serde_json::Value;
use std::alloc::{AllocError, Global};

/// How deep arrays and objects may nest in a record: a line may nest 127 deep, and three objects and an array are around it.
pub const RECORD_DEPTH: usize = 123;

/// The next record of the array in which the reader stands; `None` behind the last one, at the bracket, which is passed.
/// Where memory is refused, the reader is not to be used any more.
pub fn next_record(alloc: Global, reader: &mut Reader<'_>) -> Result<Option<Value>, AllocError>
    requires { (records : List Data) × (rest : List Token) × AreAhead reader.old records rest }
    ensures { IfOk result (λ found. (records : List Data) (rest : List Token) → AreAhead reader.old records rest → TellsRecord records rest found reader.new) }
{
    if reader.take_end_array() {
        return Ok(None);
    }
    match read_value(alloc, reader, RECORD_DEPTH) {
        Ok(value) => Ok(Some(value)),
        Err(ReadFault::Memory) => Err(AllocError),
        Err(ReadFault::Invalid) => unreachable!(),
    }
}

/// Passes so many records of the array in which the reader stands.
pub fn pass_records(reader: &mut Reader<'_>, count: u64)
    requires { (records : List Data) × (rest : List Token) × AreAhead reader.old records rest × (count ≤ length records) }
    ensures { (records : List Data) (rest : List Token) → AreAhead reader.old records rest → count ≤ length records → AreAhead reader.new (drop count records) rest }
{
    for _ in 0..count {
        pass_known(reader, RECORD_DEPTH);
    }
}
