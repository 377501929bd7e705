//! Records of OBJECT types without STRING and BYTES, kept for the next state: copied as they stand, and written and cleared where rows came or left.
ghost use Rattle.std.specs.Prelude.{◌≡◌, ◌*◌, ◌^◌, ◌<◌, ◌≤◌, ◌↔◌, ℕ, List, Contains, IfOk, IsTrue, OnOk, length, sum};
ghost use Rattle.row_model.specs.Table.{IsLive};
ghost use Rattle.ordinal_set.specs.Ordinals.{lacking};
ghost use Rattle.row_packing.specs.Chosen.{IsGreatestOrdinal, shape_at};
ghost use Rattle.row_packing.specs.Packs.{CanPackPlaces};
ghost use Rattle.row_packing.specs.Places.{Agree, snapshot_places};
ghost use Rattle.kept_sections.specs.Moved.{AreCopied, AreReplaced, AreWritten, CanMove, HaveRoom, IsClear, IsPlaceIn, SpellsRowUnder};
ghost use Rattle.kept_sections.specs.Sections.{IsPackedOf, IsSection};

use crate::section::PackedSection;
use bit_array::{total_width, zeros};
use hol_varint::Duplicate;
use ordinal_set::OrdinalSet;
use record_copies::{clear_record, copy_records, is_fixed, put_record};
use row_model::{Packed, Rows, Words};
use row_packing::{Chosen, OrdinalRows};
use schema_model::Shape;
use std::alloc::{AllocError, Global};
use type_rows::place_count;

/// Whether the records that were packed by the one choice are taken up by the other one: they have no variable bytes, and their widths stay.
pub(crate) fn can_move(shape: &Shape, before: &Chosen, chosen: &Chosen) -> bool
    ensures { IsTrue result → CanMove shape.now before.now chosen.now }
{
    let Shape::Object(_, fields) = shape else {
        return false;
    };
    is_fixed(fields.as_slice()) && before.widths.as_slice() == chosen.widths.as_slice()
}

/// The records of a new state, of which those that stay are copied from the section of the old one.
pub(crate) fn moved_records<A: OrdinalRows, B: OrdinalRows>(
    alloc: Global,
    kept: &PackedSection,
    old: &A,
    new: &B,
    type_index: u32,
    chosen: &Chosen,
) -> Result<Packed, AllocError>
    requires model { A.schemas old.now ≡ B.schemas new.now }
    requires known { type_index < length (B.schemas new.now) }
    requires agree { Agree (A.table old.now) (B.table new.now) type_index }
    requires greatest { IsGreatestOrdinal (A.table old.now) (B.table new.now) type_index chosen.now.max }
    requires room { CanPackPlaces (shape_at (B.schemas new.now) type_index) chosen.now.widths (snapshot_places (B.table new.now) type_index chosen.now.max) }
    requires kept { IsPackedOf (shape_at (B.schemas new.now) type_index) (A.table old.now) type_index kept.now }
    requires can { CanMove (shape_at (B.schemas new.now) type_index) kept.now.chosen chosen.now }
    ensures { IfOk result (IsSection (shape_at (B.schemas new.now) type_index) (B.table new.now) type_index chosen.now) }
{
    let widths = chosen.widths.as_slice();
    let areas = kept.packed.areas.copy(alloc)?;
    let mut first = copied_words(
        alloc,
        widths,
        kept.packed.first.as_slice(),
        place_count(kept.chosen.max),
        place_count(chosen.max),
    )?;
    replace_records(alloc, widths, first.as_mut_slice(), old, new, type_index)?;
    Ok(Packed {
        first: Words::from_vec(first),
        second: Words::new(alloc),
        areas,
    })
}

/// Changes the records of an old state's rows to those of a new one's, each at the place of its ordinal: what both have stays as it stands.
fn replace_records<A: OrdinalRows, B: OrdinalRows>(
    alloc: Global,
    widths: &[u32],
    first: &mut [u64],
    old: &A,
    new: &B,
    type_index: u32,
) -> Result<(), AllocError>
    requires model { A.schemas old.now ≡ B.schemas new.now }
    requires known { type_index < length (B.schemas new.now) }
    requires places { (ordinal : ℕ) → IsLive (A.table old.now) type_index ordinal → IsPlaceIn widths.now first.old ordinal }
    requires room { HaveRoom (shape_at (B.schemas new.now) type_index) (B.table new.now) type_index widths.now first.old }
    ensures { OnOk result (AreReplaced (shape_at (B.schemas new.now) type_index) (A.table old.now) (B.table new.now) type_index widths.now first.old first.new) }
{
    let before = old.ordinals(type_index);
    clear_gone(widths, first, before, new.ordinals(type_index));
    put_come(alloc, widths, first, before, new, type_index)
}

/// The records of the first places of other words, in words for so many places.
fn copied_words(
    alloc: Global,
    widths: &[u32],
    from: &[u64],
    before: u64,
    places: u64,
) -> Result<Vec<u64>, AllocError>
    requires source { before * sum widths.now ≤ 64 * length from.now }
    requires counted { before * sum widths.now < 2 ^ 64 }
    requires room { places * sum widths.now < 2 ^ 64 }
    ensures { IfOk result (λ first. AreCopied widths.now from.now before places first.items) }
{
    let bits = (u128::from(places) * total_width(widths)) as u64;
    let mut first = zeros(alloc, bits)?;
    copy_records(widths, from, before, first.as_mut_slice(), places);
    Ok(first)
}

/// Clears the places of the ordinals that the old state has and the new one lacks.
fn clear_gone(widths: &[u32], first: &mut [u64], old: &OrdinalSet, new: &OrdinalSet)
    requires { (ordinal : ℕ) → Contains old.now ordinal → IsPlaceIn widths.now first.old ordinal }
    ensures { AreWritten (IsClear widths.now) widths.now first.old first.new (lacking old.now new.now) }
{
    let mut from = 0;
    while let Some(ordinal) = old.first_beside(new, from) {
        clear_record(widths, first, u64::from(ordinal));
        from = ordinal + 1;
    }
}

/// Writes the rows of a state under ordinals that the old state lacks.
fn put_come<R: OrdinalRows>(
    alloc: Global,
    widths: &[u32],
    first: &mut [u64],
    old: &OrdinalSet,
    rows: &R,
    type_index: u32,
) -> Result<(), AllocError>
    requires known { type_index < length (R.schemas rows.now) }
    requires room { HaveRoom (shape_at (R.schemas rows.now) type_index) (R.table rows.now) type_index widths.now first.old }
    ensures { OnOk result ((live : List ℕ) × ((ordinal : ℕ) → Contains live ordinal ↔ IsLive (R.table rows.now) type_index ordinal)
        × AreWritten (SpellsRowUnder (shape_at (R.schemas rows.now) type_index) (R.table rows.now) type_index widths.now) widths.now first.old first.new (lacking live old.now)) }
{
    let schema = rows.model().schema(type_index);
    let live = rows.ordinals(type_index);
    let mut from = 0;
    while let Some(ordinal) = live.first_beside(old, from) {
        let lent = rows.lend(alloc, type_index, ordinal)?;
        put_record(schema, widths, first, u64::from(ordinal), lent.row());
        from = ordinal + 1;
    }
    Ok(())
}
