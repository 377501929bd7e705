//! The primary keys of the records that a change removes are read.
ghost use Rattle.std.specs.Prelude.{◌≡◌, ◌<◌, ◌⊎◌, ◌++◌, List, [], length, map};
ghost use Rattle.serde_json.specs.View.{view};
ghost use Rattle.schema_model.specs.Model.{IsModel};
ghost use Rattle.hol_incremental.specs.Roots.{AreKeyPaths, IsKeyed};
ghost use Rattle.hollow_machine.specs.Records.{AreKeyedTypes, Entry, entries_at};
ghost use Rattle.change_orders.specs.Reading.{GiveKeys, TellsKeys, TellsKeysBehind};

use crate::put_records::values_of;
use hol_answers::Refusal;
use hol_incremental::{Keys, primary_key};
use hol_orders::OrderStop;
use json_values::{KeyFault, key_from};
use producer_orders::CycleEnd;
use schema_model::{Model, Paths};
use serde_json::Value;
use std::alloc::Global;

/// The keys of the records that are removed, types in model order, each with the index of its type. `BadKey` comes exactly where one is no key of its type.
pub(crate) fn removed_keys(alloc: Global, model: &Model, remove: &Value) -> Result<Keys, CycleEnd>
    requires keyed { AreKeyedTypes model.now (view remove.now) }
    ensures { TellsKeys model.now (view remove.now) result }
{
    let mut found = Keys::new(alloc);
    for type_index in 0..model.len() {
        let values = values_of(model, type_index, remove);
        read_type(alloc, model, type_index, values, &mut found)?;
    }
    Ok(found)
}

// The keys of a type, behind others. There are none of a type without a primary key.
fn read_type(
    alloc: Global,
    model: &Model,
    type_index: u32,
    values: &[Value],
    found: &mut Keys,
) -> Result<(), CycleEnd>
    requires within { type_index < length model.now }
    requires model { IsModel model.now }
    requires keyed { IsKeyed model.now type_index ⊎ (map view values.now ≡ []) }
    ensures { (before : List Entry) → GiveKeys model.now before found.old → TellsKeysBehind model.now (before ++ entries_at type_index (map view values.now)) found.new result }
{
    if values.is_empty() {
        return Ok(());
    }
    match primary_key(alloc, model, type_index)? {
        Some(paths) => read_keys(alloc, model, type_index, &paths, values, found),
        None => Ok(()),
    }
}

// The keys along the paths of a type, behind others.
fn read_keys(
    alloc: Global,
    model: &Model,
    type_index: u32,
    paths: &Paths,
    values: &[Value],
    found: &mut Keys,
) -> Result<(), CycleEnd>
    requires model { IsModel model.now }
    requires resolved { AreKeyPaths model.now type_index paths.now }
    ensures { (before : List Entry) → GiveKeys model.now before found.old → TellsKeysBehind model.now (before ++ entries_at type_index (map view values.now)) found.new result }
{
    for value in values {
        match key_from(alloc, model, paths, value) {
            Ok(key) => found.push((type_index, key))?,
            Err(KeyFault::Shape) => return Err(CycleEnd::Refused(Refusal::BadKey)),
            Err(KeyFault::Memory) => return Err(CycleEnd::Stopped(OrderStop::Memory)),
        }
    }
    Ok(())
}
