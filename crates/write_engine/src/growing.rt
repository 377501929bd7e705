//! The rows of a producer, seen through a model that grows its own one, for a producer that goes on with that model.
ghost use Rattle.std.specs.Prelude.{◌≡◌, ◌+◌, ◌<◌, ◌↔◌, IfOk, IsTrue, OnErr, OnOk, length, slice_index_or};
ghost use Rattle.schema_model.specs.Growth.{Grows};
ghost use Rattle.row_model.specs.declared.row.Value.{Value as RowValue};
ghost use Rattle.write_engine.specs.Cycle.{no_rows};
ghost use Rattle.write_engine.specs.Grown.{AreFresh, HasStayed, MayGrow, padded_row as row_padded, seen_of};
ghost use Rattle.write_engine.specs.Production.{IsProducing, current_of, previous_of};
ghost use Rattle.write_engine.specs.RestoredRows.{HasRowsBelow, HasRowsOf};

use hol_varint::Duplicate;
use ordinal_map::{OrdinalMap, RestoreRowFault};
use row_model::{Row, Value, Values};
use schema_model::Model;
use std::alloc::{AllocError, Global};
use std::mem;

/// Makes the rows of a producer, whose cycle is not open, those that are seen through a model that grows its own. The types that stay keep their maps,
/// and of the others each row is copied once. Where memory is refused all stays.
pub(crate) fn grow_maps(
    alloc: Global,
    model: &Model,
    maps: &mut Vec<OrdinalMap>,
    grown: &Model,
) -> Result<(), AllocError>
    requires producing { IsProducing model.now maps.old.items }
    requires none { current_of maps.old.items ≡ no_rows (length model.now) }
    requires grows { Grows model.now grown.now }
    ensures producing { OnOk result (IsProducing grown.now maps.new.items) }
    ensures previous { OnOk result (previous_of maps.new.items ≡ seen_of model.now grown.now maps.old.items) }
    ensures current { OnOk result (current_of maps.new.items ≡ no_rows (length grown.now)) }
    ensures refused { OnErr result (maps.new.items ≡ maps.old.items) }
{
    let _types = model.len();
    let count = grown.len();
    let mut fresh = fresh_maps(alloc, model, maps.as_slice(), grown, count)?;
    keep_maps(model, maps.as_mut_slice(), grown, fresh.as_mut_slice());
    *maps = fresh;
    Ok(())
}

// A map for each type of the grown model: with its rows, or without any where the type stays.
fn fresh_maps(
    alloc: Global,
    model: &Model,
    maps: &[OrdinalMap],
    grown: &Model,
    count: u32,
) -> Result<Vec<OrdinalMap>, AllocError>
    requires may { MayGrow model.now grown.now maps.now }
    requires all { count ≡ length grown.now }
    ensures { IfOk result (λ fresh. AreFresh model.now grown.now maps.now fresh.items (length grown.now)) }
{
    let mut fresh = Vec::new(alloc);
    for type_index in 0..count {
        let map = fresh_map(alloc, model, maps, grown, type_index)?;
        fresh.push(map)?;
    }
    Ok(fresh)
}

// A map for a type of the grown model: with its rows, or without any where the type stays.
fn fresh_map(
    alloc: Global,
    model: &Model,
    maps: &[OrdinalMap],
    grown: &Model,
    type_index: u32,
) -> Result<OrdinalMap, AllocError>
    requires may { MayGrow model.now grown.now maps.now }
    requires known { type_index < length grown.now }
    ensures { IfOk result (λ map. ¬ HasStayed model.now grown.now type_index → HasRowsOf (seen_of model.now grown.now maps.now) type_index map) }
{
    if type_index >= model.len() || has_stayed(model, grown, type_index) {
        return Ok(OrdinalMap::new(alloc));
    }
    grow_type(alloc, maps, model, grown, type_index)
}

// Whether a type of a model has the same schema in one that grows it: so it is where it has no more fields.
fn has_stayed(model: &Model, grown: &Model, type_index: u32) -> bool
    requires grows { Grows model.now grown.now }
    requires known { type_index < length model.now }
    ensures { IsTrue result ↔ HasStayed model.now grown.now type_index }
{
    let own = model.schema(type_index).shape.fields().len();
    grown.schema(type_index).shape.fields().len() == own
}

// The rows of a type, by rising ordinal, each with null in the fields that it lacked.
fn grow_type(
    alloc: Global,
    maps: &[OrdinalMap],
    model: &Model,
    grown: &Model,
    type_index: u32,
) -> Result<OrdinalMap, AllocError>
    requires may { MayGrow model.now grown.now maps.now }
    requires known { type_index < length model.now }
    ensures { IfOk result (HasRowsOf (seen_of model.now grown.now maps.now) type_index) }
{
    let mut map = OrdinalMap::new(alloc);
    for ordinal in 0..maps[type_index as usize].previous_bound() {
        grow_row(alloc, maps, model, grown, type_index, ordinal, &mut map)?;
    }
    Ok(map)
}

// The row of a type under an ordinal, if there is one, is put behind those under lesser ones. No two rows are equal, as no two were.
fn grow_row(
    alloc: Global,
    maps: &[OrdinalMap],
    model: &Model,
    grown: &Model,
    type_index: u32,
    ordinal: u32,
    map: &mut OrdinalMap,
) -> Result<(), AllocError>
    requires may { MayGrow model.now grown.now maps.now }
    requires known { type_index < length model.now }
    requires below { HasRowsBelow (seen_of model.now grown.now maps.now) type_index ordinal map.old }
    ensures { OnOk result (HasRowsBelow (seen_of model.now grown.now maps.now) type_index (ordinal + 1) map.new) }
{
    let old = &maps[type_index as usize];
    if !old.previous_has(ordinal) {
        return Ok(());
    }
    let fields = grown.schema(type_index).shape.fields().len();
    let row = padded_row(alloc, old.row(ordinal), fields)?;
    match map.restore_row(ordinal, row) {
        Ok(()) => Ok(()),
        Err(RestoreRowFault::Equal(_)) => unreachable!(),
        Err(RestoreRowFault::Memory) => Err(AllocError),
    }
}

// A record with null in each further field, so many in all.
fn padded_row(alloc: Global, row: &Row, count: usize) -> Result<Row, AllocError>
    ensures { IfOk result (λ padded. padded ≡ row_padded count row.now) }
{
    let Row::Object(values) = row else {
        return row.copy(alloc);
    };
    let mut padded = Values::with_capacity(alloc, count)?;
    for place in 0..count {
        padded.push(value_or_null(alloc, values.as_slice(), place)?)?;
    }
    Ok(Row::Object(padded))
}

// A copy of the value at a place, null behind the last one.
#[inline(always)]
fn value_or_null(alloc: Global, values: &[Value], place: usize) -> Result<Value, AllocError>
    ensures { IfOk result (λ value. value ≡ slice_index_or values.now place RowValue.Null) }
{
    match values.get(place) {
        Some(value) => value.copy(alloc),
        None => Ok(Value::Null),
    }
}

// Exchanges the maps of the types that stay: so they have their rows again, and no row is looked at.
fn keep_maps(model: &Model, maps: &mut [OrdinalMap], grown: &Model, fresh: &mut [OrdinalMap])
    requires may { MayGrow model.now grown.now maps.old }
    requires fresh { AreFresh model.now grown.now maps.old fresh.old (length grown.now) }
    ensures producing { IsProducing grown.now fresh.new }
    ensures previous { previous_of fresh.new ≡ seen_of model.now grown.now maps.old }
    ensures current { current_of fresh.new ≡ no_rows (length grown.now) }
{
    for type_index in 0..model.len() {
        if has_stayed(model, grown, type_index) {
            let place = type_index as usize;
            mem::swap(&mut maps[place], &mut fresh[place]);
        }
    }
}
