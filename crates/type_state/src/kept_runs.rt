//! Records of OBJECT types that are copied run by run, with the bytes of their STRING and BYTES, and written one by one where the rows differ.
//!
//! A run is copied at once where the widths of both halves are the same, and record by record where they are not.
ghost use Rattle.std.specs.Prelude.{◌≡◌, ◌^◌, ◌<◌, [], IfOk, IsTrue, OnOk, length, replicate, sum};
ghost use Rattle.object_codec.specs.ObjectPlace.{IsObject};
ghost use Rattle.object_codec.specs.Packing.{HasRoom, IsPacked as ArePacked, IsRowPut};
ghost use Rattle.packed_half.specs.Half.{place_words, words_for};
ghost use Rattle.packed_half.specs.LaidOut.{IsLaidOut};
ghost use Rattle.packed_half.specs.Laying.{CanLay, places_in};
ghost use Rattle.schema_model.specs.Parts.{shape_fields};
ghost use Rattle.type_rows.specs.Layout.{places_of};
ghost use Rattle.type_state.specs.Differences.{AreApart, coming_at, rows_with};
ghost use Rattle.type_state.specs.KeptRecords.{AreKept, kept_rows};
ghost use Rattle.type_state.specs.Moved.{IsOfPatch};
ghost use Rattle.type_state.specs.Recorded.{CanCopyRuns};

use crate::copied_rows::are_same;
use crate::differences::Differences;
use crate::kept_records::KeptRecords;
use crate::left_differences::{behind, first_ordinal};
use crate::moving::Move;
use bit_array::total_width;
use hol_varint::Octets;
use object_codec::put_row;
use packed_half::{HalfShape, put_areas};
use record_copies::{RecordPlace, Run, copy_run};
use schema_model::{Schema, Shape};
use std::alloc::{AllocError, Global};
use type_rows::{fixed_words, place_count, words_needed};

/// Whether the records of a half may be copied to another one run by run: those of an OBJECT type, in a half that has places.
pub(crate) fn can_copy_runs(shape: &Shape, before: &HalfShape) -> bool
    ensures { IsTrue result → CanCopyRuns shape.now before.now }
{
    let Shape::Object(_, _) = shape else {
        return false;
    };
    before.max.is_some()
}

/// No bytes for each field of a half, with room for those that the field has there.
pub(crate) fn empty_areas(alloc: Global, lengths: &[u64]) -> Result<Vec<Octets>, AllocError>
    ensures { IfOk result (λ areas. areas.items ≡ replicate (length lengths.now) []) }
{
    let mut areas = Vec::with_capacity(alloc, lengths.len())?;
    for index in 0..lengths.len() {
        areas.push(Octets::with_capacity(alloc, lengths[index] as usize)?)?;
    }
    Ok(areas)
}

/// Writes what the patch brings to a place: the record that it adds there, and else none.
fn put_place(
    alloc: Global,
    schema: &Schema,
    differences: &Differences<'_, '_>,
    here: RecordPlace<'_>,
    first: &mut [u64],
    areas: &mut [Octets],
) -> Result<(), AllocError>
    requires of { differences.now.schema.now.shape ≡ schema.now.shape }
    requires apart { AreApart differences.now }
    requires low { here.place < 2 ^ 32 }
    requires size { here.size ≡ sum here.widths.now }
    requires room { HasRoom schema.now.shape here.widths.now first.old areas.old here.place (coming_at differences.now here.place) }
    ensures { OnOk result (IsRowPut schema.now.shape here.entry.widths.now first.old areas.old first.new areas.new here.entry.place (coming_at differences.now here.entry.place)) }
{
    match differences.place_of(here.place as u32) {
        Some(there) => differences.copy_record(alloc, there, here, first, areas),
        None => put_row(alloc, schema, here.widths, first, areas, here.place, None),
    }
}

/// Writes the records of the rows of a move at their places, in words of zeros, and the bytes of each field behind one another.
///
/// The records between two differences are copied, at once where the widths are the same, and those that come from the patch. A place
/// behind those of the half before has a row only where one comes.
fn put_places(
    alloc: Global,
    schema: &Schema,
    kept: KeptRecords<'_>,
    next: &Move<'_, '_>,
    first: &mut [u64],
    areas: &mut [Octets],
) -> Result<(), AllocError>
    requires kept { AreKept kept }
    requires shape { kept.shape.now ≡ schema.now.shape }
    requires copies { CanCopyRuns schema.now.shape kept.half.now }
    requires of { IsOfPatch schema.now.shape next.now }
    requires apart { AreApart next.now.differences }
    requires can { CanLay schema.now.shape next.now.half (rows_with (kept_rows kept) next.now.differences) }
    requires zeros { first.old ≡ replicate (place_words schema.now.shape next.now.half) 0 }
    requires none { areas.old ≡ replicate (length (shape_fields schema.now.shape)) [] }
    ensures { OnOk result (ArePacked schema.now.shape next.now.half.widths (places_in (rows_with (kept_rows kept.entry) next.now.differences) (places_of next.now.half.max)) first.new areas.new) }
{
    let widths = next.half.widths.as_slice();
    let widths_there = kept.half.widths.as_slice();
    let alike = are_same(widths, widths_there);
    let size = total_width(widths) as u64;
    let size_there = total_width(widths_there) as u64;
    let places = place_count(next.half.max);
    let stable = place_count(kept.half.max).min(places);
    let mut removed = next.differences.patch.removed.as_slice();
    let mut added = next.differences.patch.added.as_slice();
    let mut place = 0;
    while place < places {
        let gone = first_ordinal(removed);
        let come = first_ordinal(added);
        let end = gone.min(come).min(stable);
        if place < end {
            if alike {
                let run = Run { place, end };
                copy_run(alloc, schema, widths, &kept.records, run, first, areas)?;
                place = end;
                continue;
            }
            let here = RecordPlace {
                widths,
                size,
                place,
            };
            kept.copy_place(alloc, schema, size_there, here, first, areas)?;
            place += 1;
            continue;
        }
        let here = RecordPlace {
            widths,
            size,
            place,
        };
        put_place(alloc, schema, &next.differences, here, first, areas)?;
        removed = behind(removed, place);
        added = behind(added, place);
        place += 1;
    }
    Ok(())
}

/// Lays the rows of a move out in words of zeros. Memory is taken for the bytes of the fields.
pub(crate) fn lay_by_runs(
    alloc: Global,
    schema: &Schema,
    kept: KeptRecords<'_>,
    next: &Move<'_, '_>,
    words: &mut [u64],
) -> Result<(), AllocError>
    requires kept { AreKept kept }
    requires shape { kept.shape.now ≡ schema.now.shape }
    requires copies { CanCopyRuns schema.now.shape kept.half.now }
    requires of { IsOfPatch schema.now.shape next.now }
    requires apart { AreApart next.now.differences }
    requires can { CanLay schema.now.shape next.now.half (rows_with (kept_rows kept) next.now.differences) }
    requires zeros { words.old ≡ replicate (words_for schema.now.shape next.now.half) 0 }
    ensures { OnOk result (IsLaidOut schema.now.shape next.now.half words.new (rows_with (kept_rows kept.entry) next.now.differences)) }
{
    let half = &next.half;
    let widths = half.widths.as_slice();
    let places = words_needed(&schema.shape, half.max, widths) as usize;
    let items = fixed_words(&schema.shape, None, widths, half.total) as usize;
    let (first, behind) = words.split_at_mut(places);
    let (_second, bytes) = behind.split_at_mut(items);
    let mut areas = empty_areas(alloc, half.lengths.as_slice())?;
    put_places(alloc, schema, kept, next, first, areas.as_mut_slice())?;
    put_areas(bytes, areas.as_slice());
    Ok(())
}
