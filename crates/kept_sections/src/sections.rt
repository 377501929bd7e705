//! The sections of a state, by those of the state before it.
ghost use Rattle.std.specs.Prelude.{◌≡◌, ◌<◌, IfOk, IfSome, length, option_and_then, option_copied, slice_get};
ghost use Rattle.row_packing.specs.Chosen.{IsChosen, KeepsCounts, shape_at};
ghost use Rattle.row_packing.specs.Measured.{AreMeasured};
ghost use Rattle.row_packing.specs.Places.{Agree};
ghost use Rattle.row_packing.specs.States.{AreWritable};
ghost use Rattle.kept_sections.specs.Sections.{AreSections, AreSectionsFor, IsPackedOf, IsSection};

use crate::moved::{can_move, moved_records};
use crate::section::{PackedSection, PackedSections};
use hol_varint::{Duplicate, List};
use row_model::Packed;
use row_packing::{Chosen, Measured, OrdinalRows, snapshot_rows};
use std::alloc::{AllocError, Global};

/// The rows of a type of a new state, packed for a snapshot as `row_packing::snapshot_rows` packs them, by the kept section of an old state of the same model.
///
/// Where the type is an OBJECT without STRING and BYTES and its widths stay, the words are copied and the places of the rows that left or came are written; no
/// other row is looked at. Else all rows are packed. The states agree, and what was chosen is for both, within the limits.
pub fn section_of<A: OrdinalRows, B: OrdinalRows>(
    alloc: Global,
    kept: Option<&PackedSection>,
    old: &A,
    new: &B,
    type_index: u32,
    chosen: &Chosen,
) -> Result<Packed, AllocError>
    requires model { A.schemas old.now ≡ B.schemas new.now }
    requires known { type_index < length (B.schemas new.now) }
    requires agree { Agree (A.table old.now) (B.table new.now) type_index }
    requires keeps { KeepsCounts (shape_at (B.schemas new.now) type_index) (A.table old.now) (B.table new.now) type_index }
    requires chosen { IsChosen (shape_at (B.schemas new.now) type_index) (A.table old.now) (B.table new.now) type_index chosen.now }
    requires kept { IfSome (option_copied kept) (IsPackedOf (shape_at (B.schemas new.now) type_index) (A.table old.now) type_index) }
    ensures { IfOk result (IsSection (shape_at (B.schemas new.now) type_index) (B.table new.now) type_index chosen.now) }
{
    row_packing::laws::either_way();
    let shape = &new.model().schema(type_index).shape;
    match kept {
        Some(section) if can_move(shape, &section.chosen, chosen) => {
            moved_records(alloc, section, old, new, type_index, chosen)
        }
        _ => snapshot_rows(alloc, new, type_index, chosen),
    }
}

/// The sections of a new state, by what was measured of each type over it and an old state of the same model, and by the sections of the old state where there are
/// such. Each is made as `section_of` makes it.
///
/// The states agree, and keep the limits on ordinals, items and bytes.
pub fn sections_of<A: OrdinalRows, B: OrdinalRows>(
    alloc: Global,
    kept: Option<&PackedSections>,
    old: &A,
    new: &B,
    measured: &[Measured],
) -> Result<PackedSections, AllocError>
    requires model { A.schemas old.now ≡ B.schemas new.now }
    requires states { AreWritable (B.schemas new.now) (A.table old.now) (B.table new.now) }
    requires measured { AreMeasured (B.schemas new.now) (A.table old.now) (B.table new.now) measured.now }
    requires kept { IfSome (option_copied kept) (AreSections (B.schemas new.now) (A.table old.now)) }
    ensures { IfOk result (AreSectionsFor (B.schemas new.now) (A.table old.now) (B.table new.now)) }
{
    let mut sections = List::new(alloc);
    for type_index in 0..new.model().len() {
        let chosen = &measured[type_index as usize].chosen;
        let before = kept_of(kept, type_index);
        let packed = section_of(alloc, before, old, new, type_index, chosen)?;
        sections.push(PackedSection {
            chosen: chosen.copy(alloc)?,
            packed,
        })?;
    }
    Ok(sections)
}

// The kept section of a type, where there are kept ones.
fn kept_of(kept: Option<&PackedSections>, type_index: u32) -> Option<&PackedSection>
    requires { IfSome (option_copied kept) (λ sections. type_index < length sections) }
    ensures { option_copied result ≡ option_and_then (λ sections. slice_get sections type_index) (option_copied kept.entry) }
{
    match kept {
        Some(sections) => Some(sections.get(type_index as usize)),
        None => None,
    }
}
