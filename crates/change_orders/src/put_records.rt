//! The records that a change puts are read.
ghost use Rattle.std.specs.Prelude.{◌≡◌, ◌<◌, ◌++◌, List, Some, length, map, slice_get, take};
ghost use Rattle.serde_json.specs.View.{view};
ghost use Rattle.schema_model.specs.declared.schema.Schema.{Schema};
ghost use Rattle.hol_orders.specs.Parts.{added};
ghost use Rattle.hollow_machine.specs.Records.{Entry, entries, entries_at, values_under};
ghost use Rattle.change_orders.specs.Reading.{HaveRead, TellsBehind, TellsRead};

use crate::line_records::read_line;
use hol_answers::{Refusal, RefusedRecord};
use hol_incremental::Records;
use hol_orders::{Added, OrderStop};
use hol_varint::Duplicate;
use json_values::ValueFault;
use producer_orders::CycleEnd;
use record_json::tree_from;
use schema_model::Model;
use serde_json::Value;
use std::alloc::Global;

/// The records that are put, types in model order, each with the index of its type. `BadRecord` names the first one that gives no tree.
pub(crate) fn put_records(alloc: Global, model: &Model, put: &Added) -> Result<Records, CycleEnd>
    ensures { TellsRead model.now (entries model.now (added put.now)) result }
{
    let mut found = Records::new(alloc);
    for type_index in 0..model.len() {
        read_type(alloc, model, type_index, put, &mut found)?;
    }
    Ok(found)
}

// The records of a type, behind others.
fn read_type(
    alloc: Global,
    model: &Model,
    type_index: u32,
    put: &Added,
    found: &mut Records,
) -> Result<(), CycleEnd>
    requires { type_index < length model.now }
    ensures { (schema : Schema) (before : List Entry) → slice_get model.now type_index ≡ Some schema → HaveRead model.now before found.old
        → TellsBehind model.now (before ++ entries_at type_index (values_under (added put.now) schema.name)) found.new result }
{
    match put {
        Added::Json(json) => {
            let values = values_of(model, type_index, json);
            read_values(alloc, model, type_index, values, 0, found)
        }
        Added::Line(line) => read_line(alloc, model, type_index, line, found),
    }
}

/// What stands under the name of a type.
pub(crate) fn values_of<'a>(model: &Model, type_index: u32, given: &'a Value) -> &'a [Value]
    requires { type_index < length model.now }
    ensures { (schema : Schema) → slice_get model.now type_index ≡ Some schema → map view result.now ≡ values_under (view given.now) schema.name }
{
    match given.get(model.schema(type_index).name.text()) {
        Some(Value::Array(items)) => items.as_slice(),
        _ => &[],
    }
}

/// The records of a type from a place on, behind others and those before it.
pub(crate) fn read_values(
    alloc: Global,
    model: &Model,
    type_index: u32,
    values: &[Value],
    from: usize,
    found: &mut Records,
) -> Result<(), CycleEnd>
    requires { type_index < length model.now }
    ensures { (before : List Entry) → HaveRead model.now (before ++ take from (entries_at type_index (map view values.now))) found.old
        → TellsBehind model.now (before ++ entries_at type_index (map view values.now)) found.new result }
{
    for place in from..values.len() {
        match tree_from(alloc, model, type_index, &values[place]) {
            Ok(tree) => found.push((type_index, tree))?,
            Err(ValueFault::Memory) => return Err(CycleEnd::Stopped(OrderStop::Memory)),
            Err(ValueFault::Field(reason)) => {
                return Err(CycleEnd::Refused(Refusal::BadRecord(RefusedRecord {
                    type_name: model.schema(type_index).name.copy(alloc)?,
                    index: place as u64,
                    reason,
                })));
            }
        }
    }
    Ok(())
}
