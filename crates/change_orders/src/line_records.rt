//! The records that a change puts are read from its line.
ghost use Rattle.std.specs.Prelude.{◌≡◌, ◌<◌, ◌++◌, IfOk, List, Some, length, map, slice_get};
ghost use Rattle.json.specs.Token.{Token};
ghost use Rattle.serde_json.specs.Data.{Data};
ghost use Rattle.serde_json.specs.View.{view};
ghost use Rattle.record_stream.specs.RecordLine.{added_by};
ghost use Rattle.record_stream.specs.Records.{AreAhead};
ghost use Rattle.schema_model.specs.declared.schema.Schema.{Schema};
ghost use Rattle.hollow_machine.specs.Records.{Entry, entries_at, values_under};
ghost use Rattle.change_orders.specs.Reading.{HaveRead, TellsBehind, TellsFront};

use crate::put_records::read_values;
use hol_incremental::Records;
use json::{Reader, Scratch};
use producer_orders::CycleEnd;
use record_stream::{RecordLine, next_record};
use record_tokens::{NextWhole, next_whole};
use schema_model::Model;
use serde_json::Value;
use std::alloc::{AllocError, Global};

/// The records of a type in a line, behind others: trees straight from their tokens, and values of their own from the first one on of which that cannot
/// be told.
pub(crate) fn read_line(
    alloc: Global,
    model: &Model,
    type_index: u32,
    line: &RecordLine,
    found: &mut Records,
) -> Result<(), CycleEnd>
    requires { type_index < length model.now }
    ensures { (schema : Schema) (before : List Entry) → slice_get model.now type_index ≡ Some schema → HaveRead model.now before found.old
        → TellsBehind model.now (before ++ entries_at type_index (values_under (added_by line.now) schema.name)) found.new result }
{
    match trees_in(alloc, model, type_index, line, found)? {
        Some(place) => {
            let values = values_in(alloc, model, type_index, line)?;
            read_values(alloc, model, type_index, values.as_slice(), place, found)
        }
        None => Ok(()),
    }
}

// The records of a type in a line as trees behind others, up to the first one that is not told to be one: its place, where there is one.
fn trees_in(
    alloc: Global,
    model: &Model,
    type_index: u32,
    line: &RecordLine,
    found: &mut Records,
) -> Result<Option<usize>, AllocError>
    requires { type_index < length model.now }
    ensures { (schema : Schema) (before : List Entry) → slice_get model.now type_index ≡ Some schema → HaveRead model.now before found.old
        → IfOk result (TellsFront model.now before (entries_at type_index (values_under (added_by line.now) schema.name)) found.new) }
{
    let mut scratch = Scratch::new(alloc);
    let name = model.schema(type_index).name.text();
    match line.records(&mut scratch, name) {
        Ok(Some(mut reader)) => trees_ahead(alloc, model, type_index, &mut reader, found),
        Ok(None) => Ok(None),
        Err(_) => Err(AllocError),
    }
}

// The records that are ahead as trees behind others, up to the first one that is not told to be one: its place, where there is one.
fn trees_ahead(
    alloc: Global,
    model: &Model,
    type_index: u32,
    reader: &mut Reader<'_>,
    found: &mut Records,
) -> Result<Option<usize>, AllocError>
    requires { type_index < length model.now }
    ensures { (records : List Data) (rest : List Token) (before : List Entry) → AreAhead reader.old records rest → HaveRead model.now before found.old
        → IfOk result (TellsFront model.now before (entries_at type_index records) found.new) }
{
    for place in 0..usize::MAX {
        match next_whole(alloc, model, type_index, reader) {
            Ok(NextWhole::Tree(tree)) => found.push((type_index, tree))?,
            Ok(NextWhole::End) => return Ok(None),
            Ok(NextWhole::Other) => return Ok(Some(place)),
            Err(_) => return Err(AllocError),
        }
    }
    // A line has fewer records than that.
    Err(AllocError)
}

// The records of a type in a line as values.
fn values_in(
    alloc: Global,
    model: &Model,
    type_index: u32,
    line: &RecordLine,
) -> Result<Vec<Value>, AllocError>
    requires { type_index < length model.now }
    ensures { (schema : Schema) → slice_get model.now type_index ≡ Some schema → IfOk result (λ values. map view values.items ≡ values_under (added_by line.now) schema.name) }
{
    let mut scratch = Scratch::new(alloc);
    let name = model.schema(type_index).name.text();
    match line.records(&mut scratch, name) {
        Ok(Some(mut reader)) => values_ahead(alloc, &mut reader),
        Ok(None) => Ok(Vec::new(alloc)),
        Err(_) => Err(AllocError),
    }
}

// The records that are ahead as values.
fn values_ahead(alloc: Global, reader: &mut Reader<'_>) -> Result<Vec<Value>, AllocError>
    requires { (records : List Data) × (rest : List Token) × AreAhead reader.old records rest }
    ensures { (records : List Data) (rest : List Token) → AreAhead reader.old records rest → IfOk result (λ values. map view values.items ≡ records) }
{
    let mut values = Vec::new(alloc);
    for _ in 0..u64::MAX {
        match next_record(alloc, reader) {
            Ok(Some(value)) => values.push(value)?,
            Ok(None) => return Ok(values),
            Err(_) => return Err(AllocError),
        }
    }
    // A line has fewer records than that.
    Err(AllocError)
}
