//! From a section of a snapshot to the words of a half.
ghost use Rattle.std.specs.Prelude.{◌≡◌, [], IfErr, MatchResult, OnErr, OnOk, replicate};
ghost use Rattle.row_model.specs.Table.{RowMap};
ghost use Rattle.type_rows.specs.Loads.{IsLoadFault, Loads, RefusesLoad, layout_of};
ghost use Rattle.type_rows.specs.WellFormed.{IsReadable};
ghost use Rattle.type_rows.specs.LoadFault.{FailsLoad};
ghost use Rattle.packed_half.specs.Half.{layout_in, words_for};
ghost use Rattle.packed_half.specs.LaidOut.{IsLaidOut};
ghost use Rattle.packed_half.specs.Laying.{CanLay};

use crate::copied_rows::{copy_rows, stand_alike};
use crate::section_rows::SectionRows;
use crate::turning::clear_next;
use hol_varint::Duplicate;
use packed_half::{HalfShape, lay_out, words_of_half};
use raw_words::{Halves, TwinWords};
use schema_model::Schema;
use std::alloc::{AllocError, Global};
use type_rows::{RowFault, Section, Sums, test_section};

/// What the half of a section's rows is to be, where the section loads rows.
pub(crate) fn half_of_section(
    alloc: Global,
    schema: &Schema,
    section: &Section,
) -> Result<HalfShape, RowFault>
    requires { IsReadable schema.now.shape section.now }
    ensures tells { MatchResult result (λ half. (rows : RowMap) × Loads schema.now.shape section.now rows × CanLay schema.now.shape half rows × (layout_in half ≡ layout_of section.now)) (RefusesLoad schema.now.shape section.now) }
    ensures kind { IfErr result IsLoadFault }
    ensures fault { IfErr result (FailsLoad schema.now.shape section.now) }
{
    let Sums { items, lengths } = test_section(alloc, schema, section)?;
    let live = section.live.copy(alloc)?;
    Ok(HalfShape {
        max: section.max,
        widths: section.widths.copy(alloc)?,
        total: items,
        lengths,
        live,
    })
}

/// Lays out the rows of a section in the next half of two, in the words that it takes. Where memory is refused the next half has no words.
#[tactic(auto, using(crate::proofs::Fitting::words_fit))]
pub(crate) fn lay_section_next(
    alloc: Global,
    schema: &Schema,
    section: &Section,
    half: &HalfShape,
    twin: &mut TwinWords,
) -> Result<(), AllocError>
    requires readable { IsReadable schema.now.shape section.now }
    requires loads { (rows : RowMap) × Loads schema.now.shape section.now rows × CanLay schema.now.shape half.now rows }
    ensures current { twin.new.current ≡ twin.old.current }
    ensures lost { OnErr result (twin.new.other ≡ []) }
    ensures laid { OnOk result ((rows : RowMap) → Loads schema.now.shape section.now rows → IsLaidOut schema.now.shape half.now twin.new.other rows) }
{
    clear_next(twin);
    twin.reserve_next(words_of_half(&schema.shape, half) as usize)?;
    let Halves { from: _, to } = twin.split();
    match lay_section(alloc, schema, section, half, to) {
        Ok(()) => Ok(()),
        Err(refused) => {
            clear_next(twin);
            Err(refused)
        }
    }
}

/// Lays out the rows of a section in the words of a half.
pub(crate) fn lay_section(
    alloc: Global,
    schema: &Schema,
    section: &Section,
    half: &HalfShape,
    words: &mut [u64],
) -> Result<(), AllocError>
    requires readable { IsReadable schema.now.shape section.now }
    requires loads { (rows : RowMap) × Loads schema.now.shape section.now rows × CanLay schema.now.shape half.now rows }
    requires zeros { words.old ≡ replicate (words_for schema.now.shape half.now) 0 }
    ensures { OnOk result ((rows : RowMap) → Loads schema.now.shape section.now rows → IsLaidOut schema.now.shape half.now words.new rows) }
{
    if stand_alike(&schema.shape, section, half) {
        copy_rows(&schema.shape, section, half, words);
        return Ok(());
    }
    let rows = SectionRows::new(schema, section);
    lay_out(alloc, schema, half, &rows, words)
}
