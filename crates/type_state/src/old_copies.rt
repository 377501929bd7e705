//! Records that a type had, copied one by one from their half, the bytes of their STRING and BYTES with them.
ghost use Rattle.std.specs.Prelude.{◌≡◌, ◌*◌, [], All, IfOk, IsSome, IsTrue, OnOk, length, replicate, sum};
ghost use Rattle.std.specs.FinMap.{get};
ghost use Rattle.std.specs.List.Sorted.{IsStrictlyIncreasing};
ghost use Rattle.bit_array.specs.Element.{words_of};
ghost use Rattle.schema_model.specs.Parts.{shape_fields};
ghost use Rattle.object_codec.specs.Packing.{IsPacked as ArePacked};
ghost use Rattle.type_state.specs.Kept.{IsHalf, half_rows};
ghost use Rattle.type_state.specs.KeptRecords.{AreKept, kept_rows};
ghost use Rattle.type_state.specs.OldRecords.{CanCopyEach, rows_under};

use crate::field_bytes::bytes_of_fields;
use crate::kept_records::KeptRecords;
use crate::old_records::{FEWEST, zeros};
use bit_array::total_width;
use hol_varint::Octets;
use packed_half::{HalfRows, HalfShape};
use record_copies::RecordPlace;
use row_model::{Areas, Packed, Words};
use schema_model::{Schema, Shape};
use std::alloc::{AllocError, Global};

/// Whether ordinals rise.
fn rise(ordinals: &[u32]) -> bool
    ensures { IsTrue result → IsStrictlyIncreasing ordinals.now }
{
    for index in 1..ordinals.len() {
        if ordinals[index - 1] >= ordinals[index] {
            return false;
        }
    }
    true
}

/// Whether the rows of a half under some ordinals may be copied one by one, and are enough for it.
pub(crate) fn can_copy_each(shape: &Shape, half: &HalfShape, ordinals: &[u32]) -> bool
    ensures { IsTrue result → CanCopyEach shape.now half.now ordinals.now }
{
    let Shape::Object(_, _) = shape else {
        return false;
    };
    ordinals.len() >= FEWEST
        && u32::try_from(ordinals.len()).is_ok()
        && half.max.is_some()
        && rise(ordinals)
}

/// Copies the records under some ordinals to the places of words of zeros, one behind the other at the widths of their half, and their bytes behind
/// those of the fields. Memory is taken for the bytes alone.
fn copy_each_record(
    alloc: Global,
    schema: &Schema,
    kept: KeptRecords<'_>,
    ordinals: &[u32],
    first: &mut [u64],
    areas: &mut [Octets],
) -> Result<(), AllocError>
    requires kept { AreKept kept }
    requires shape { kept.shape.now ≡ schema.now.shape }
    requires can { CanCopyEach schema.now.shape kept.half.now ordinals.now }
    requires live { All (λ ordinal. IsSome (get (kept_rows kept) ordinal)) ordinals.now }
    requires zeros { first.old ≡ replicate (words_of (length ordinals.now * sum kept.half.now.widths)) 0 }
    requires none { areas.old ≡ replicate (length (shape_fields schema.now.shape)) [] }
    ensures { OnOk result (ArePacked schema.now.shape kept.entry.half.now.widths (rows_under (kept_rows kept.entry) ordinals.now) first.new areas.new) }
{
    let widths = kept.half.widths.as_slice();
    let size = total_width(widths) as u64;
    for (place, ordinal) in ordinals.iter().enumerate() {
        let here = RecordPlace {
            widths,
            size,
            place: place as u64,
        };
        kept.copy_to(alloc, schema, size, here, first, areas, *ordinal)?;
    }
    Ok(())
}

/// No bytes for each of so many fields.
fn no_bytes(alloc: Global, fields: usize) -> Result<Vec<Octets>, AllocError>
    ensures { IfOk result (λ areas. areas.items ≡ replicate fields []) }
{
    let mut areas = Vec::with_capacity(alloc, fields)?;
    for _ in 0..fields {
        areas.push(Octets::new(alloc))?;
    }
    Ok(areas)
}

/// The records of a half under some live ordinals, one behind the other at the widths of the half, and their bytes.
pub(crate) fn copies_of_records(
    alloc: Global,
    schema: &Schema,
    current: HalfRows<'_>,
    ordinals: &[u32],
) -> Result<Packed, AllocError>
    requires shape { current.shape.now ≡ schema.now.shape }
    requires kept { IsHalf schema.now.shape current.half.now current.words.now }
    requires can { CanCopyEach schema.now.shape current.half.now ordinals.now }
    requires live { All (λ ordinal. IsSome (get (half_rows schema.now.shape current.half.now current.words.now) ordinal)) ordinals.now }
    ensures { IfOk result (λ packed. ArePacked schema.now.shape current.entry.half.now.widths (rows_under (half_rows schema.now.shape current.entry.half.now current.entry.words.now) ordinals.now) packed.first packed.areas) }
{
    let size = total_width(current.half.widths.as_slice()) as u64;
    let bytes = bytes_of_fields(alloc, current.bytes(), current.half.lengths.as_slice())?;
    let kept = KeptRecords::new(&current, bytes.as_slice());
    let mut first = zeros(alloc, ordinals.len() as u64 * size)?;
    let mut areas = no_bytes(alloc, schema.shape.fields().len())?;
    copy_each_record(
        alloc,
        schema,
        kept,
        ordinals,
        first.as_mut_slice(),
        areas.as_mut_slice(),
    )?;
    Ok(Packed {
        first: Words::from_vec(first),
        second: Words::new(alloc),
        areas: Areas::from_vec(areas),
    })
}
