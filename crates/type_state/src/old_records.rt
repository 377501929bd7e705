//! Records that a type had, packed one behind the other at the widths at which they stood.
ghost use Rattle.std.specs.Prelude.{◌≡◌, ◌<◌, ◌≤◌, ◌+◌, ◌*◌, ◌^◌, ℕ, [], All, IfOk, IsSome, IsTrue, Some, length, replicate, slice_get};
ghost use Rattle.std.specs.FinMap.{get};
ghost use Rattle.std.specs.List.{AllZip};
ghost use Rattle.bit_array.specs.Element.{element_of, words_of};
ghost use Rattle.type_state.specs.Kept.{IsHalf, half_rows};
ghost use Rattle.type_state.specs.OldRecords.{AreCopies, CanCopyEach, CanPack, HasCopies, HoldsEach};

use crate::kept_runs::empty_areas;
use crate::old_copies::copies_of_records;
use bit_array::{copy_bits, total_width, words_for};
use hol_varint::Duplicate;
use packed_half::{HalfRows, HalfShape};
use record_copies::is_fixed;
use row_model::{Areas, Packed, PlaceFault, Row, Widths, Words};
use schema_model::{Schema, Shape};
use std::alloc::{AllocError, Global};
use std::marker::Model;

/// How many records are packed at least: for fewer a copy of the schema takes more than their rows.
pub(crate) const FEWEST: usize = 64;

/// Records that a type had. Contracts see the list of their rows.
#[derive(Drop)]
pub(crate) struct OldRecords {
    schema: Schema,
    widths: Widths,
    packed: Packed,
    count: usize,
}

impl Model for OldRecords {
    ghost use Rattle.std.specs.Prelude.{List as Items};
    ghost use Rattle.row_model.specs.declared.row.Row.{Row as StoredRow};
    ghost use Rattle.type_state.specs.OldRecords.{AreSpelled, record_rows, rows_code};

    ghost Value = { Items StoredRow };

    ghost coded = { rows_code };

    ghost view = { λ old. record_rows old.schema.shape old.widths old.packed.first old.packed.areas old.count };

    ghost invariant = { λ old. AreSpelled old.schema.shape old.widths old.packed.first old.packed.areas old.count };
}

/// Whether so many rows of a half may be packed, and are enough for it.
pub(crate) fn can_pack(shape: &Shape, half: &HalfShape, count: usize) -> bool
    ensures { IsTrue result → CanPack shape.now half.now count }
{
    let Shape::Object(_, fields) = shape else {
        return false;
    };
    count >= FEWEST
        && u32::try_from(count).is_ok()
        && half.max.is_some()
        && is_fixed(fields.as_slice())
}

/// As many words of zeros as so many bits take.
pub(crate) fn zeros(alloc: Global, bits: u64) -> Result<Vec<u64>, AllocError>
    ensures { IfOk result (λ words. words.items ≡ replicate (words_of bits) 0) }
{
    vec![in alloc; 0; words_for(bits) as usize]
}

/// Copies the records of a size that stand under some ordinals to the places of other words, one behind the other.
fn copy_each(from: &[u64], ordinals: &[u32], size: u64, to: &mut [u64])
    requires source { HoldsEach from.now size ordinals.now }
    requires inside { length ordinals.now * size ≤ 64 * length to.old }
    requires counted { length ordinals.now * size < 2 ^ 64 }
    ensures { HasCopies from.now size ordinals.now to.new }
{
    for (place, ordinal) in ordinals.iter().enumerate() {
        let at = u64::from(*ordinal) * size;
        copy_bits(from, at, to, place as u64 * size, size);
    }
}

/// The records of a size that stand under some ordinals, one behind the other in words of their own.
fn copies_of(alloc: Global, from: &[u64], ordinals: &[u32], size: u64) -> Result<Words, AllocError>
    requires source { HoldsEach from.now size ordinals.now }
    requires counted { length ordinals.now * size < 2 ^ 64 }
    ensures { IfOk result (AreCopies from.now size ordinals.now) }
{
    let mut words = zeros(alloc, ordinals.len() as u64 * size)?;
    copy_each(from, ordinals, size, words.as_mut_slice());
    Ok(Words::from_vec(words))
}

impl OldRecords {
    /// The records of a half under live ordinals.
    pub(crate) fn of(
        alloc: Global,
        schema: &Schema,
        current: HalfRows<'_>,
        ordinals: &[u32],
    ) -> Result<OldRecords, AllocError>
        requires shape { current.shape.now ≡ schema.now.shape }
        requires kept { IsHalf schema.now.shape current.half.now current.words.now }
        requires can { CanPack schema.now.shape current.half.now (length ordinals.now) }
        requires live { All (λ ordinal. IsSome (get (half_rows schema.now.shape current.half.now current.words.now) ordinal)) ordinals.now }
        ensures { IfOk result (AllZip (λ ordinal row. get (half_rows schema.now.shape current.entry.half.now current.entry.words.now) ordinal ≡ Some row) ordinals.now) }
    {
        let size = total_width(current.half.widths.as_slice()) as u64;
        let first = copies_of(alloc, current.places(), ordinals, size)?;
        let areas = empty_areas(alloc, current.half.lengths.as_slice())?;
        Ok(OldRecords {
            schema: schema.copy(alloc)?,
            widths: current.half.widths.copy(alloc)?,
            packed: Packed {
                first,
                second: Words::new(alloc),
                areas: Areas::from_vec(areas),
            },
            count: ordinals.len(),
        })
    }

    /// The records of a half under live ordinals, which rise, each copied with its bytes.
    pub(crate) fn copied(
        alloc: Global,
        schema: &Schema,
        current: HalfRows<'_>,
        ordinals: &[u32],
    ) -> Result<OldRecords, AllocError>
        requires shape { current.shape.now ≡ schema.now.shape }
        requires kept { IsHalf schema.now.shape current.half.now current.words.now }
        requires can { CanCopyEach schema.now.shape current.half.now ordinals.now }
        requires live { All (λ ordinal. IsSome (get (half_rows schema.now.shape current.half.now current.words.now) ordinal)) ordinals.now }
        ensures { IfOk result (AllZip (λ ordinal row. get (half_rows schema.now.shape current.entry.half.now current.entry.words.now) ordinal ≡ Some row) ordinals.now) }
    {
        Ok(OldRecords {
            schema: schema.copy(alloc)?,
            widths: current.half.widths.copy(alloc)?,
            packed: copies_of_records(alloc, schema, current, ordinals)?,
            count: ordinals.len(),
        })
    }

    /// The row of the record at a place.
    pub(crate) fn row(&self, alloc: Global, place: usize) -> Result<Row, AllocError>
        requires { place < length self.now }
        ensures { IfOk result (λ row. slice_get self.now place ≡ Some row) }
    {
        match object_codec::read(
            alloc,
            &self.schema,
            &self.widths,
            0,
            &self.packed,
            place as u64,
        ) {
            Ok(row) => Ok(row),
            Err(PlaceFault::Memory) => Err(AllocError),
            Err(PlaceFault::Bad(_)) => unreachable!(),
        }
    }
}
