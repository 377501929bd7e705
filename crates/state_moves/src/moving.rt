//! Moving the types of a state by the parts of a patch, into their next halves.
ghost use Rattle.std.specs.Prelude.{◌≡◌, ◌<◌, ◌^◌, All, IfErr, IfOk, OnOk, false, length, replicate};
ghost use Rattle.type_rows.specs.Patches.{FitsOrdinals, IsReadablePatch, patch_layout};
ghost use Rattle.blob_faults.specs.Judge.{Blames};
ghost use Rattle.blob_faults.specs.Rows.{moves};
ghost use Rattle.state_moves.specs.Judged.{IsFreeMove};
ghost use Rattle.state_moves.specs.Moving.{AreMoved, ComesOf, IsReadableIn, KeepsPatch, MovesState, StaysCurrent, parts_move};
ghost use Rattle.row_model.specs.Before.{no_part};

use crate::moved::{Moved, NamedTypes, none_named};
use crate::past::{PastPart, PastParts, no_past};
use blob_faults::blame_rows;
use blob_frame::BlobFault;
use delta_blob::PatchPart;
use hol_varint::Ordinals;
use std::alloc::{AllocError, Global};
use type_rows::PatchSection;
use type_state::TypeState;

/// Moves the types, of which there are so many, by the parts of a patch, each into its next half, and answers which types they name and what is
/// to be kept of each. The current halves stay as they are. The first part that moves the rows of its type to no rows is at fault.
pub(crate) fn move_types(
    alloc: Global,
    count: u32,
    states: &mut [TypeState],
    parts: &[PatchPart],
) -> Result<Moved, BlobFault>
    requires count { count ≡ length states.old }
    requires readable { All (IsReadableIn states.old) parts.now }
    ensures stays { StaysCurrent states.old states.new }
    ensures moved { IfOk result (λ moved. AreMoved parts.now states.new moved.named moved.past) }
    ensures comes { IfOk result (λ moved. ComesOf parts.now states.old states.new moved.named) }
    ensures blamed { IfErr result (Blames (parts_move states.old parts.now) IsFreeMove) }
{
    let mut named = none_named(alloc, count)?.into_vec();
    let mut past = no_past(alloc, count)?.into_vec();
    move_each(
        alloc,
        states,
        named.as_mut_slice(),
        past.as_mut_slice(),
        parts,
    )?;
    Ok(Moved {
        named: NamedTypes::from_vec(named),
        past: PastParts::from_vec(past),
    })
}

// Moves each type that a part names, and notes that it is named and what is to be kept of it.
fn move_each(
    alloc: Global,
    states: &mut [TypeState],
    named: &mut [bool],
    past: &mut [PastPart],
    parts: &[PatchPart],
) -> Result<(), BlobFault>
    requires unnamed { named.old ≡ replicate (length states.old) false }
    requires none { past.old ≡ replicate (length states.old) no_part }
    requires readable { All (IsReadableIn states.old) parts.now }
    ensures stays { StaysCurrent states.old states.new }
    ensures moved { OnOk result (AreMoved parts.now states.new named.new past.new) }
    ensures comes { OnOk result (ComesOf parts.now states.old states.new named.new) }
    ensures blamed { IfErr result (Blames (parts_move states.old parts.now) IsFreeMove) }
{
    for part in parts {
        let place = part.type_index as usize;
        let moved = move_type(alloc, &mut states[place], part)?;
        named[place] = true;
        past[place] = moved;
    }
    Ok(())
}

// Moves a type by the section of a part.
fn move_type(alloc: Global, state: &mut TypeState, part: &PatchPart) -> Result<PastPart, BlobFault>
    requires { IsReadablePatch state.old.schema.shape part.now.section }
    ensures moved { IfOk result (MovesState part.now.section state.new) }
    ensures blamed { IfErr result (Blames (moves part.now.at state.old.schema part.now.section state.old.current.rows) IsFreeMove) }
    ensures schema { state.new.schema ≡ state.old.schema }
    ensures current { state.new.current ≡ state.old.current }
{
    match state.move_next(&part.section) {
        Ok(()) => Ok(kept_part(alloc, state, &part.section)?),
        Err(fault) => Err(blame_rows(alloc, part.at, &state.schema().name, fault)),
    }
}

// What is kept of a type that a section moves.
fn kept_part(
    alloc: Global,
    state: &TypeState,
    section: &PatchSection,
) -> Result<PastPart, AllocError>
    requires readable { IsReadablePatch state.now.schema.shape section.now }
    requires fits { FitsOrdinals state.now.current.rows (patch_layout section.now) section.now.removed section.now.added }
    ensures { IfOk result (KeepsPatch state.entry.now.current.rows section.now) }
{
    // Each removed ordinal is live, and so below the bound.
    let _bound = state.bound();
    let came = narrowed(alloc, section.added.as_slice())?;
    let gone = narrowed(alloc, section.removed.as_slice())?;
    let rows = state.old_rows(alloc, gone.as_slice())?;
    Ok(PastPart::new(came, gone, rows))
}

// Ordinals that are below 2^32, in 32 bits each.
fn narrowed(alloc: Global, ordinals: &[u64]) -> Result<Ordinals, AllocError>
    requires { All (λ ordinal. ordinal < 2 ^ 32) ordinals.now }
    ensures { IfOk result (λ narrow. narrow ≡ ordinals.now) }
{
    let mut narrow = Ordinals::with_capacity(alloc, ordinals.len())?;
    for ordinal in ordinals {
        narrow.push(*ordinal as u32)?;
    }
    Ok(narrow)
}
