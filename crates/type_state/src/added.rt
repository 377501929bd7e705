//! The test of the places of the rows that a patch adds.
ghost use Rattle.std.specs.Prelude.{◌<◌, All, MatchResult};
ghost use Rattle.std.specs.List.Sorted.{IsStrictlyIncreasing};
ghost use Rattle.object_codec.specs.ObjectPlace.{IsObject};
ghost use Rattle.type_rows.specs.Layout.{places_of};
ghost use Rattle.type_rows.specs.Patches.{IsReadablePatch};
ghost use Rattle.type_state.specs.Differences.{AreSpelled};
ghost use Rattle.type_state.specs.FirstFaults.{FailsAdds};

use object_codec::first_fault;
use row_model::PlaceFault;
use schema_model::{Schema, Shape};
use std::alloc::Global;
use type_rows::{PatchSection, RowFault};

/// Tests that each place spells a record: the fault is that of the first that does not. No row is made.
///
/// It takes memory for the numbers of the places.
fn test_records(alloc: Global, schema: &Schema, patch: &PatchSection) -> Result<(), RowFault>
    requires object { IsObject schema.now.shape }
    requires readable { IsReadablePatch schema.now.shape patch.now }
    requires rising { IsStrictlyIncreasing patch.now.added }
    requires placed { All (λ ordinal. ordinal < places_of patch.now.max) patch.now.added }
    ensures { MatchResult result (λ _. AreSpelled schema.now.shape patch.now) (FailsAdds schema.now.shape patch.now) }
{
    let mut places = Vec::with_capacity(alloc, patch.added.len())?;
    for place in 0..patch.added.len() {
        places.push(place as u32)?;
    }
    let found = first_fault(
        alloc,
        schema.shape.fields(),
        patch.widths.as_slice(),
        patch.first.as_slice(),
        patch.areas.as_slice(),
        places.as_slice(),
    )?;
    match found {
        None => Ok(()),
        Some((place, reason)) => Err(RowFault::At(reason, patch.added.as_slice()[place as usize])),
    }
}

/// Tests that each place spells a row, which is made and dropped: the fault is that of the first that does not.
///
/// The place of each is read, and starts where the one before ends, so that no element or bucket is read twice.
fn test_rows(alloc: Global, schema: &Schema, patch: &PatchSection) -> Result<(), RowFault>
    requires readable { IsReadablePatch schema.now.shape patch.now }
    requires rising { IsStrictlyIncreasing patch.now.added }
    requires placed { All (λ ordinal. ordinal < places_of patch.now.max) patch.now.added }
    ensures { MatchResult result (λ _. AreSpelled schema.now.shape patch.now) (FailsAdds schema.now.shape patch.now) }
{
    for (place, ordinal) in patch.added.as_slice().iter().enumerate() {
        match patch.row_at(alloc, schema, place as u64) {
            Ok(_) => {}
            Err(PlaceFault::Bad(reason)) => return Err(RowFault::At(reason, *ordinal)),
            Err(PlaceFault::Memory) => return Err(RowFault::Memory),
        }
    }
    Ok(())
}

/// Tests that each place of a patch spells a row: the fault is that of the first that does not, and why.
pub(crate) fn test_added(
    alloc: Global,
    schema: &Schema,
    patch: &PatchSection,
) -> Result<(), RowFault>
    requires readable { IsReadablePatch schema.now.shape patch.now }
    requires rising { IsStrictlyIncreasing patch.now.added }
    requires placed { All (λ ordinal. ordinal < places_of patch.now.max) patch.now.added }
    ensures { MatchResult result (λ _. AreSpelled schema.now.shape patch.now) (FailsAdds schema.now.shape patch.now) }
{
    match &schema.shape {
        Shape::Object(_, _) => test_records(alloc, schema, patch),
        _ => test_rows(alloc, schema, patch),
    }
}
