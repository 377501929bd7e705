//! The rows of all types, each type's in an ordinal map.
ghost use Rattle.std.specs.Prelude.{◌≡◌, ◌<◌, ◌^◌, IfOk, OnErr, OnOk, length, map, replicate};
ghost use Rattle.row_model.specs.Table.{IsLive};
ghost use Rattle.write_engine.specs.Cycle.{no_rows};
ghost use Rattle.write_engine.specs.Production.{AreChanged, advanced, current_of, filled, no_states, previous_of, undone};
ghost use Rattle.write_engine.specs.RowDrops.{without_row};

use hol_varint::Ordinals;
use ordinal_map::OrdinalMap;
use std::alloc::{AllocError, Global};

/// No rows in either state, of so many types.
pub(crate) fn make_states(alloc: Global, count: u32) -> Result<Vec<OrdinalMap>, AllocError>
    ensures { IfOk result (λ maps. maps.items ≡ replicate count no_states) }
{
    let mut maps = Vec::new(alloc);
    for _type in 0..count {
        maps.push(OrdinalMap::new(alloc))?;
    }
    Ok(maps)
}

/// Drops the current state of each type.
pub(crate) fn undo_all(maps: &mut Vec<OrdinalMap>)
    ensures { maps.new.items ≡ map undone maps.old.items }
{
    for rows in maps.iter_mut() {
        rows.undo();
    }
}

/// Makes the current state of each type the previous one.
pub(crate) fn advance_all(maps: &mut Vec<OrdinalMap>)
    ensures { maps.new.items ≡ map advanced maps.old.items }
{
    for rows in maps.iter_mut() {
        rows.advance();
    }
}

/// Puts the rows of each type's previous state into its current one, which has none. Where memory is refused no current state has any.
pub(crate) fn keep_all(maps: &mut Vec<OrdinalMap>) -> Result<(), AllocError>
    requires { current_of maps.old.items ≡ no_rows (length maps.old.items) }
    ensures kept { OnOk result (maps.new.items ≡ map filled maps.old.items) }
    ensures refused { OnErr result (maps.new.items ≡ maps.old.items) }
{
    let kept = keep_some(maps);
    if kept.is_err() {
        undo_all(maps);
    }
    kept
}

// Puts the rows of each type's previous state into its current one, which has none. Where memory is refused some current states may have their rows.
fn keep_some(maps: &mut Vec<OrdinalMap>) -> Result<(), AllocError>
    requires { current_of maps.old.items ≡ no_rows (length maps.old.items) }
    ensures kept { OnOk result (maps.new.items ≡ map filled maps.old.items) }
    ensures refused { OnErr result (map undone maps.new.items ≡ maps.old.items) }
{
    for rows in maps.iter_mut() {
        rows.keep_all()?;
    }
    Ok(())
}

/// Makes room for rows of a type up to an ordinal. Both states of each type stay.
pub(crate) fn reserve(
    maps: &mut [OrdinalMap],
    type_index: u32,
    ordinal: u32,
) -> Result<(), AllocError>
    requires known { type_index < length maps.old }
    requires low { ordinal < 2 ^ 22 }
    ensures previous { previous_of maps.new ≡ previous_of maps.old }
    ensures current { current_of maps.new ≡ current_of maps.old }
{
    maps[type_index as usize].reserve(ordinal)
}

/// Takes a row of a type out of its current state.
pub(crate) fn drop_row(maps: &mut [OrdinalMap], type_index: u32, ordinal: u32)
    requires { IsLive (current_of maps.old) type_index ordinal }
    ensures previous { previous_of maps.new ≡ previous_of maps.old }
    ensures current { current_of maps.new ≡ without_row (current_of maps.old) type_index ordinal }
{
    maps[type_index as usize].drop_row(ordinal);
}

/// The types whose rows differ in the two states.
pub(crate) fn changed_types(
    alloc: Global,
    maps: &[OrdinalMap],
    count: u32,
) -> Result<Ordinals, AllocError>
    requires { length maps.now ≡ count }
    ensures { IfOk result (AreChanged (previous_of maps.now) (current_of maps.now)) }
{
    let mut changed = Ordinals::new(alloc);
    for type_index in 0..count {
        if maps[type_index as usize].is_changed() {
            changed.push(type_index)?;
        }
    }
    Ok(changed)
}
