//! The records of a cycle that are read from its line one by one, and added to the producer.
ghost use Rattle.std.specs.Prelude.{◌≡◌, ◌<◌, ◌≤◌, ◌++◌, IfOk, List, Some, drop, false, length, slice_get, take};
ghost use Rattle.json.specs.Token.{Token};
ghost use Rattle.serde_json.specs.Data.{Data};
ghost use Rattle.record_stream.specs.RecordLine.{added_by};
ghost use Rattle.record_stream.specs.Records.{AreAhead};
ghost use Rattle.schema_model.specs.declared.schema.Schema.{Schema};
ghost use Rattle.schema_model.specs.Model.{IsModel};
ghost use Rattle.write_engine.specs.Agreement.{HoldsOnce};
ghost use Rattle.hollow_machine.specs.Records.{Entry, entries_at, values_under};
ghost use Rattle.producer_orders.specs.Parts.{AreAdded, IsThere, TellsAdded, TellsPlain};

use crate::record_fault::RecordFault;
use crate::records::{add_record, add_value};
use json::{Reader, Scratch};
use record_stream::{RecordLine, next_record, pass_records};
use record_tokens::{NextTree, next_tree};
use std::alloc::Global;
use write_engine::Producer;

/// How far the records of a type were added as trees straight from their tokens, and whether these are too many.
#[derive(Clone, Copy)]
pub(crate) enum Plain {
    /// All of them, and whether they are too many.
    All(bool),
    /// Those before a place, and whether they are too many. Of the one at it nothing is told.
    Front(u64, bool),
}

/// Adds the records of a type in a line behind others, and tells whether they all are too many. They are added as trees straight from their tokens,
/// and as values of their own from the first one on of which that cannot be done.
pub(crate) fn add_from_line(
    alloc: Global,
    producer: &mut Producer,
    type_index: u32,
    line: &RecordLine,
    full: bool,
) -> Result<bool, RecordFault>
    requires type_in { type_index < length producer.old.schemas }
    requires model { IsModel producer.old.schemas }
    requires open { producer.old.closed ≡ false }
    requires once { HoldsOnce producer.old.previous }
    ensures tells { (schema : Schema) (done : List Entry) → slice_get producer.old.schemas type_index ≡ Some schema
        → AreAdded producer.old.schemas producer.old.previous done producer.old.current full
        → TellsAdded producer.old.schemas producer.old.previous (done ++ entries_at type_index (values_under (added_by line.now) schema.name)) producer.new.current result }
    ensures kept { producer.new ≡ record producer.old { current = producer.new.current } }
{
    let mut scratch = Scratch::new(alloc);
    let name = producer.model().schema(type_index).name.text();
    match line.records(&mut scratch, name) {
        Ok(Some(mut reader)) => match add_plain(alloc, producer, type_index, &mut reader, full)? {
            Plain::All(full) => Ok(full),
            Plain::Front(place, full) => {
                add_behind(alloc, producer, type_index, line, place, full)
            }
        },
        Ok(None) => Ok(full),
        Err(_) => Err(RecordFault::Memory),
    }
}

// Adds the records that are ahead behind others as trees, up to the first one that is not told to be one.
fn add_plain(
    alloc: Global,
    producer: &mut Producer,
    type_index: u32,
    reader: &mut Reader<'_>,
    full_before: bool,
) -> Result<Plain, RecordFault>
    requires ahead { (records : List Data) × (rest : List Token) × AreAhead reader.old records rest }
    requires type_in { type_index < length producer.old.schemas }
    requires model { IsModel producer.old.schemas }
    requires open { producer.old.closed ≡ false }
    requires once { HoldsOnce producer.old.previous }
    ensures there { IfOk result (λ plain. (records : List Data) (rest : List Token) → AreAhead reader.old records rest → IsThere records plain) }
    ensures tells { (records : List Data) (rest : List Token) (done : List Entry) → AreAhead reader.old records rest
        → AreAdded producer.old.schemas producer.old.previous done producer.old.current full_before
        → TellsPlain producer.old.schemas producer.old.previous done (entries_at type_index records) producer.new.current result }
    ensures kept { producer.new ≡ record producer.old { current = producer.new.current } }
{
    let mut full = full_before;
    for place in 0..u64::MAX {
        let record = match next_tree(alloc, producer.model(), type_index, reader) {
            Ok(NextTree::Record(record)) => record,
            Ok(NextTree::End) => return Ok(Plain::All(full)),
            Ok(NextTree::Other) => return Ok(Plain::Front(place, full)),
            Err(_) => return Err(RecordFault::Memory),
        };
        full = add_record(producer, type_index, record, full)?;
    }
    // A line has fewer records than that.
    Err(RecordFault::Memory)
}

// Adds the records of a type in a line from a place on behind those before it, and tells whether they all are too many.
fn add_behind(
    alloc: Global,
    producer: &mut Producer,
    type_index: u32,
    line: &RecordLine,
    from: u64,
    full: bool,
) -> Result<bool, RecordFault>
    requires there { (schema : Schema) → slice_get producer.old.schemas type_index ≡ Some schema → from ≤ length (values_under (added_by line.now) schema.name) }
    requires type_in { type_index < length producer.old.schemas }
    requires model { IsModel producer.old.schemas }
    requires open { producer.old.closed ≡ false }
    requires once { HoldsOnce producer.old.previous }
    ensures tells { (schema : Schema) (done : List Entry) → slice_get producer.old.schemas type_index ≡ Some schema
        → AreAdded producer.old.schemas producer.old.previous (done ++ take from (entries_at type_index (values_under (added_by line.now) schema.name))) producer.old.current full
        → TellsAdded producer.old.schemas producer.old.previous (done ++ entries_at type_index (values_under (added_by line.now) schema.name)) producer.new.current result }
    ensures kept { producer.new ≡ record producer.old { current = producer.new.current } }
{
    let mut scratch = Scratch::new(alloc);
    let name = producer.model().schema(type_index).name.text();
    match line.records(&mut scratch, name) {
        Ok(Some(mut reader)) => {
            pass_records(&mut reader, from);
            add_ahead(alloc, producer, type_index, &mut reader, from, full)
        }
        Ok(None) => Ok(full),
        Err(_) => Err(RecordFault::Memory),
    }
}

// Adds the records that are ahead, those from a place on, behind those before it, and tells whether they all are too many.
fn add_ahead(
    alloc: Global,
    producer: &mut Producer,
    type_index: u32,
    reader: &mut Reader<'_>,
    from: u64,
    full_before: bool,
) -> Result<bool, RecordFault>
    requires ahead { (records : List Data) × (rest : List Token) × AreAhead reader.old (drop from records) rest }
    requires type_in { type_index < length producer.old.schemas }
    requires model { IsModel producer.old.schemas }
    requires open { producer.old.closed ≡ false }
    requires once { HoldsOnce producer.old.previous }
    ensures tells { (records : List Data) (rest : List Token) (done : List Entry) → AreAhead reader.old (drop from records) rest
        → AreAdded producer.old.schemas producer.old.previous (done ++ take from (entries_at type_index records)) producer.old.current full_before
        → TellsAdded producer.old.schemas producer.old.previous (done ++ entries_at type_index records) producer.new.current result }
    ensures kept { producer.new ≡ record producer.old { current = producer.new.current } }
{
    let mut full = full_before;
    for place in from..u64::MAX {
        let value = match next_record(alloc, reader) {
            Ok(Some(value)) => value,
            Ok(None) => return Ok(full),
            Err(_) => return Err(RecordFault::Memory),
        };
        full = add_value(alloc, producer, type_index, place, &value, full)?;
    }
    // A line has fewer records than that.
    Err(RecordFault::Memory)
}
