//! The records of a cycle are read, and added to the producer.
ghost use Rattle.std.specs.Prelude.{◌≡◌, ◌<◌, ◌++◌, ◌∷◌, [], ℕ, List, Some, false, length, map, slice_get};
ghost use Rattle.serde_json.specs.Data.{Data};
ghost use Rattle.serde_json.specs.View.{view};
ghost use Rattle.row_model.specs.PlainTree.{PlainTree};
ghost use Rattle.record_trees.specs.Tree.{plain};
ghost use Rattle.schema_model.specs.declared.schema.Schema.{Schema};
ghost use Rattle.schema_model.specs.Model.{IsModel};
ghost use Rattle.write_engine.specs.Agreement.{HoldsOnce};
ghost use Rattle.hol_orders.specs.Parts.{added};
ghost use Rattle.hollow_machine.specs.Kept.{IsResting};
ghost use Rattle.hollow_machine.specs.Records.{Entry, entries, entries_at, values_under};
ghost use Rattle.record_trees.specs.Rows.{IsRowOf};
ghost use Rattle.record_tokens.specs.Next.{IsReadAs, IsRecordOf};
ghost use Rattle.producer_orders.specs.Parts.{AreAdded, TellsAdded, TellsRecords};

use crate::line_records::add_from_line;
use crate::record_fault::RecordFault;
use hol_orders::Added;
use json_values::ValueFault;
use ordinal_map::PutRowFault;
use record_json::{laws, tree_from};
use record_tokens::Record;
use record_trees::Tree;
use row_model::Row;
use schema_model::Model;
use serde_json::Value;
use std::alloc::Global;
use write_engine::Producer;

/// Adds the records under the name of each type to a producer whose cycle has no rows, types in model order. `Bad` names the first record that
/// gives no tree. `TooMany` comes where each gives a tree and a row would get the ordinal 2^22. After a refusal the cycle may have rows.
pub(crate) fn add_records(
    alloc: Global,
    producer: &mut Producer,
    add: &Added,
) -> Result<(), RecordFault>
    requires resting { IsResting producer.old }
    ensures tells { TellsRecords producer.old.schemas producer.old.previous (entries producer.old.schemas (added add.now)) producer.new.current result }
    ensures kept { producer.new ≡ record producer.old { current = producer.new.current } }
{
    let _agreeing = producer.current();
    match add_types(alloc, producer, add) {
        Ok(false) => Ok(()),
        Ok(true) => Err(RecordFault::TooMany),
        Err(fault) => Err(fault),
    }
}

// Adds the records of all types, and tells whether they are too many.
fn add_types(alloc: Global, producer: &mut Producer, add: &Added) -> Result<bool, RecordFault>
    requires resting { IsResting producer.old }
    requires once { HoldsOnce producer.old.previous }
    ensures tells { TellsAdded producer.old.schemas producer.old.previous (entries producer.old.schemas (added add.now)) producer.new.current result }
    ensures kept { producer.new ≡ record producer.old { current = producer.new.current } }
{
    let types = producer.model().len();
    let mut full = false;
    for type_index in 0..types {
        full = add_type(alloc, producer, type_index, add, full)?;
    }
    Ok(full)
}

// Adds the records of a type behind others, and tells whether they all are too many.
fn add_type(
    alloc: Global,
    producer: &mut Producer,
    type_index: u32,
    add: &Added,
    full: bool,
) -> Result<bool, RecordFault>
    requires type_in { type_index < length producer.old.schemas }
    requires model { IsModel producer.old.schemas }
    requires open { producer.old.closed ≡ false }
    requires once { HoldsOnce producer.old.previous }
    ensures tells { (schema : Schema) (done : List Entry) → slice_get producer.old.schemas type_index ≡ Some schema
        → AreAdded producer.old.schemas producer.old.previous done producer.old.current full
        → TellsAdded producer.old.schemas producer.old.previous (done ++ entries_at type_index (values_under (added add.now) schema.name)) producer.new.current result }
    ensures kept { producer.new ≡ record producer.old { current = producer.new.current } }
{
    match add {
        Added::Json(json) => {
            let values = values_of(producer.model(), type_index, json);
            add_values(alloc, producer, type_index, values, full)
        }
        Added::Line(line) => add_from_line(alloc, producer, type_index, line, full),
    }
}

// The records of a type.
fn values_of<'a>(model: &Model, type_index: u32, add: &'a Value) -> &'a [Value]
    requires { type_index < length model.now }
    ensures { (schema : Schema) → slice_get model.now type_index ≡ Some schema → map view result.now ≡ values_under (view add.now) schema.name }
{
    match add.get(model.schema(type_index).name.text()) {
        Some(Value::Array(items)) => items.as_slice(),
        _ => &[],
    }
}

// Adds the records of a type behind others, and tells whether they all are too many.
fn add_values(
    alloc: Global,
    producer: &mut Producer,
    type_index: u32,
    values: &[Value],
    full_before: bool,
) -> Result<bool, RecordFault>
    requires type_in { type_index < length producer.old.schemas }
    requires model { IsModel producer.old.schemas }
    requires open { producer.old.closed ≡ false }
    requires once { HoldsOnce producer.old.previous }
    ensures tells { (done : List Entry) → AreAdded producer.old.schemas producer.old.previous done producer.old.current full_before
        → TellsAdded producer.old.schemas producer.old.previous (done ++ entries_at type_index (map view values.now)) producer.new.current result }
    ensures kept { producer.new ≡ record producer.old { current = producer.new.current } }
{
    let mut full = full_before;
    for (place, value) in values.iter().enumerate() {
        full = add_value(alloc, producer, type_index, place as u64, value, full)?;
    }
    Ok(full)
}

/// Reads a record and adds it behind others, but where these are too many already; tells whether they all are too many.
pub(crate) fn add_value(
    alloc: Global,
    producer: &mut Producer,
    type_index: u32,
    place: u64,
    value: &Value,
    full: bool,
) -> Result<bool, RecordFault>
    requires type_in { type_index < length producer.old.schemas }
    requires model { IsModel producer.old.schemas }
    requires open { producer.old.closed ≡ false }
    requires once { HoldsOnce producer.old.previous }
    ensures tells { (done : List Entry) → AreAdded producer.old.schemas producer.old.previous done producer.old.current full
        → TellsAdded producer.old.schemas producer.old.previous (done ++ record { type_index = type_index; place = place; value = view value.now } ∷ []) producer.new.current result }
    ensures kept { producer.new ≡ record producer.old { current = producer.new.current } }
{
    let tree = match tree_from(alloc, producer.model(), type_index, value) {
        Ok(tree) => tree,
        Err(ValueFault::Field(reason)) => {
            return Err(RecordFault::Bad {
                type_index,
                place,
                reason,
            });
        }
        Err(ValueFault::Memory) => return Err(RecordFault::Memory),
    };
    add_tree(producer, type_index, &tree, full)
}

/// Adds a record that was read from its tokens behind others, but where these are too many already; tells whether they all are too many.
pub(crate) fn add_record(
    producer: &mut Producer,
    type_index: u32,
    found: Record,
    full: bool,
) -> Result<bool, RecordFault>
    requires given { (value : Data) × (tree : PlainTree) × IsReadAs producer.old.schemas type_index value tree × IsRecordOf tree found }
    requires model { IsModel producer.old.schemas }
    requires open { producer.old.closed ≡ false }
    requires once { HoldsOnce producer.old.previous }
    ensures tells { (place : ℕ) (value : Data) (tree : PlainTree) (done : List Entry) → IsReadAs producer.old.schemas type_index value tree → IsRecordOf tree found
        → AreAdded producer.old.schemas producer.old.previous done producer.old.current full
        → TellsAdded producer.old.schemas producer.old.previous (done ++ record { type_index = type_index; place = place; value = value } ∷ []) producer.new.current result }
    ensures kept { producer.new ≡ record producer.old { current = producer.new.current } }
{
    match found {
        Record::Row(row) => add_row(producer, type_index, row, full),
        Record::Tree(tree) => add_tree(producer, type_index, &tree, full),
    }
}

// Adds the row of a record that refers to no others behind others, but where these are too many already; tells whether they all are too many.
fn add_row(
    producer: &mut Producer,
    type_index: u32,
    row: Row,
    full: bool,
) -> Result<bool, RecordFault>
    requires given { (value : Data) × (tree : PlainTree) × IsReadAs producer.old.schemas type_index value tree × IsRowOf tree row }
    requires model { IsModel producer.old.schemas }
    requires open { producer.old.closed ≡ false }
    requires once { HoldsOnce producer.old.previous }
    ensures tells { (place : ℕ) (value : Data) (tree : PlainTree) (done : List Entry) → IsReadAs producer.old.schemas type_index value tree → IsRowOf tree row
        → AreAdded producer.old.schemas producer.old.previous done producer.old.current full
        → TellsAdded producer.old.schemas producer.old.previous (done ++ record { type_index = type_index; place = place; value = value } ∷ []) producer.new.current result }
    ensures kept { producer.new ≡ record producer.old { current = producer.new.current } }
{
    if full {
        return Ok(true);
    }
    laws::read_tree_fits();
    match producer.add_row(type_index, row) {
        Ok(_) => Ok(false),
        Err(PutRowFault::TooMany) => Ok(true),
        Err(PutRowFault::Memory) => Err(RecordFault::Memory),
    }
}

// Adds the tree that a record gives behind others, but where these are too many already; tells whether they all are too many.
fn add_tree(
    producer: &mut Producer,
    type_index: u32,
    tree: &Tree,
    full: bool,
) -> Result<bool, RecordFault>
    requires given { (value : Data) × IsReadAs producer.old.schemas type_index value (plain tree.now) }
    requires model { IsModel producer.old.schemas }
    requires open { producer.old.closed ≡ false }
    requires once { HoldsOnce producer.old.previous }
    ensures tells { (place : ℕ) (value : Data) (done : List Entry) → IsReadAs producer.old.schemas type_index value (plain tree.now)
        → AreAdded producer.old.schemas producer.old.previous done producer.old.current full
        → TellsAdded producer.old.schemas producer.old.previous (done ++ record { type_index = type_index; place = place; value = value } ∷ []) producer.new.current result }
    ensures kept { producer.new ≡ record producer.old { current = producer.new.current } }
{
    if full {
        return Ok(true);
    }
    laws::read_tree_fits();
    match producer.add(type_index, tree) {
        Ok(_) => Ok(false),
        Err(PutRowFault::TooMany) => Ok(true),
        Err(PutRowFault::Memory) => Err(RecordFault::Memory),
    }
}
