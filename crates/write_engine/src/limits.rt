//! What is measured of the types of a cycle, and the limit that it passes.
ghost use Rattle.std.specs.Prelude.{◌≡◌, ◌↔◌, IfOk, IsTrue, length};
ghost use Rattle.row_model.specs.Table.{Table};
ghost use Rattle.row_packing.specs.Measured.{AreMeasured};
ghost use Rattle.write_engine.specs.Agreement.{TablesAgree};
ghost use Rattle.write_engine.specs.CycleLimit.{IsToPublish, TellsCycle, TellsTypes};
ghost use Rattle.write_engine.specs.Production.{IsProducing, current_of, previous_of};

use crate::views::{Current, Previous};
use hol_varint::{List, Ordinals};
use ordinal_map::OrdinalMap;
use row_packing::{Measured, limit_of, measure};
use schema_model::{Limit, Model};
use std::alloc::{AllocError, Global};

/// What is measured of each type for a cycle that changes these types; nothing where it is not the first and changes nothing.
pub(crate) fn measure_cycle(
    alloc: Global,
    model: &Model,
    maps: &[OrdinalMap],
    version: u64,
    changed: &Ordinals,
) -> Result<List<Measured>, AllocError>
    requires { IsProducing model.now maps.now }
    ensures { IfOk result (λ measured. IsToPublish version changed.now → AreMeasured model.now (previous_of maps.now) (current_of maps.now) measured) }
{
    if is_to_publish(version, changed) {
        measure_types(alloc, model, maps)
    } else {
        Ok(List::new(alloc))
    }
}

// Whether a cycle that changes these types is to be published: it is the first one, or changes a type.
fn is_to_publish(version: u64, changed: &Ordinals) -> bool
    ensures { IsTrue result ↔ IsToPublish version changed.now }
{
    version == 0 || !changed.is_empty()
}

// What is measured of each type, in model order.
fn measure_types(
    alloc: Global,
    model: &Model,
    maps: &[OrdinalMap],
) -> Result<List<Measured>, AllocError>
    requires { IsProducing model.now maps.now }
    ensures { IfOk result (AreMeasured model.now (previous_of maps.now) (current_of maps.now)) }
{
    let previous = Previous::new(model, maps);
    let current = Current::new(model, maps);
    let mut measured = List::new(alloc);
    for type_index in 0..model.len() {
        measured.push(measure(alloc, &previous, &current, type_index)?)?;
    }
    Ok(measured)
}

/// The limit that a cycle passes which changes these types, by what is measured of each type; none where it is not the first and changes nothing.
pub(crate) fn cycle_limit(
    model: &Model,
    version: u64,
    changed: &Ordinals,
    measured: &[Measured],
) -> Option<Limit>
    requires { IsToPublish version changed.now → length measured.now ≡ length model.now }
    ensures { (previous current : Table) → TablesAgree previous current → (IsToPublish version changed.now → AreMeasured model.now previous current measured.now)
        → TellsCycle model.now previous current version changed.now result }
{
    if is_to_publish(version, changed) {
        first_limit(model, measured)
    } else {
        None
    }
}

// The first limit that a type passes, in model order.
fn first_limit(model: &Model, measured: &[Measured]) -> Option<Limit>
    requires { length measured.now ≡ length model.now }
    ensures { (previous current : Table) → TablesAgree previous current → AreMeasured model.now previous current measured.now → TellsTypes model.now previous current result }
{
    for type_index in 0..model.len() {
        let shape = &model.schema(type_index).shape;
        let limit = limit_of(shape, &measured[type_index as usize]);
        if limit.is_some() {
            return limit;
        }
    }
    None
}
