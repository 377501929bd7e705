//! From the current half of a type and a patch to the next half.
ghost use Rattle.std.specs.Prelude.{◌≡◌, ◌-◌, ◌^◌, IfErr, IfOk, MatchResult, OnOk, replicate};
ghost use Rattle.std.specs.FinMap.{keys};
ghost use Rattle.packed_half.specs.Half.{layout_in, words_for};
ghost use Rattle.packed_half.specs.LaidOut.{IsLaidOut};
ghost use Rattle.packed_half.specs.Laying.{CanLay};
ghost use Rattle.type_rows.specs.Loads.{IsLoadFault};
ghost use Rattle.type_rows.specs.MoveFault.{FailsMove};
ghost use Rattle.type_rows.specs.Outline.{layout_at};
ghost use Rattle.type_rows.specs.Patches.{IsReadablePatch, RefusesMove, patch_layout};
ghost use Rattle.type_state.specs.Differences.{AreApart, AreBelow, rows_with, added_of};
ghost use Rattle.type_state.specs.Kept.{IsHalf, half_rows};
ghost use Rattle.type_state.specs.Live.{live_with as live_ordinals};
ghost use Rattle.type_state.specs.Moved.{IsMoveOf, IsOfPatch};

use crate::differences::Differences;
use crate::field_bytes::bytes_of_fields;
use crate::kept_records::KeptRecords;
use crate::kept_runs::{can_copy_runs, lay_by_runs};
use crate::live::live_with;
use crate::moved_rows::MovedRows;
use crate::packed_rows::PackedRows;
use crate::planning::{CountedPlan, Plan, planned};
use ordinal_set::OrdinalSet;
use packed_half::{HalfRows, HalfShape, lay_out};
use row_model::Words;
use schema_model::Schema;
use std::alloc::{AllocError, Global};
use type_rows::{Ends, Outline, PatchSection, RowFault, Totals};

/// The half that a patch moves the current one to, before its words are laid out, and in what its rows differ from the current ones.
#[derive(Drop)]
pub(crate) struct Move<'s, 'p> {
    /// What describes the words of the half.
    pub(crate) half: HalfShape,
    /// The differences from the current rows.
    pub(crate) differences: Differences<'s, 'p>,
}

/// The half at an outline, whose rows end there and have these ordinals.
fn half_at(outline: Outline, ends: Ends, live: OrdinalSet) -> HalfShape
    ensures layout { layout_in result ≡ layout_at outline }
    ensures total { result.total ≡ ends.items }
    ensures lengths { result.lengths ≡ ends.offsets.items }
    ensures live { result.live ≡ live }
{
    let Outline {
        max,
        widths,
        bound: _,
    } = outline;
    let Ends { offsets, items } = ends;
    HalfShape {
        max,
        widths,
        total: items,
        lengths: Words::from_vec(offsets),
        live,
    }
}

/// The numbers of bytes of the fields of a half. The pattern names each field: nothing else is kept of a half.
fn lengths_of(half: &HalfShape) -> &[u64]
    ensures { result.now ≡ half.now.lengths }
{
    let HalfShape {
        max: _,
        widths: _,
        total: _,
        lengths,
        live: _,
    } = half;
    lengths.as_slice()
}

/// The half of a plan, whose rows add up to these totals.
fn half_of<'s, 'p>(
    alloc: Global,
    rows: &PackedRows<'_>,
    counted: CountedPlan<'s, 'p>,
) -> Result<Move<'s, 'p>, AllocError>
    requires { AreApart counted.plan.differences }
    ensures differences { IfOk result (λ next. next.differences ≡ counted.entry.plan.differences) }
    ensures layout { IfOk result (λ next. layout_in next.half ≡ layout_at counted.entry.plan.outline) }
    ensures total { IfOk result (λ next. next.half.total ≡ counted.entry.totals.ends.items) }
    ensures lengths { IfOk result (λ next. next.half.lengths ≡ counted.entry.totals.ends.offsets.items) }
    ensures live { IfOk result (λ next. next.half.live ≡ live_ordinals (keys rows.now.rows) counted.entry.plan.differences) }
{
    let live = live_with(alloc, rows.live(), &counted.plan.differences)?;
    let CountedPlan { plan, totals } = counted;
    let Plan {
        outline,
        own: _,
        differences,
    } = plan;
    let Totals { ends, bytes: _ } = totals;
    let half = half_at(outline, ends, live);
    Ok(Move { half, differences })
}

/// The half that a patch moves the current one to, at the patch's layout, which holds its rows within the limits.
///
/// Each fault but out of memory is the first of the patch, as `TypeState::move_next` tells of it.
pub(crate) fn moved<'s, 'p>(
    alloc: Global,
    schema: &'s Schema,
    current: HalfRows<'_>,
    patch: &'p PatchSection,
) -> Result<Move<'s, 'p>, RowFault>
    requires readable { IsReadablePatch schema.now.shape patch.now }
    requires shape { current.shape.now ≡ schema.now.shape }
    requires kept { IsHalf schema.now.shape current.half.now current.words.now }
    ensures tells { MatchResult result (IsMoveOf schema.now.shape patch.now (half_rows schema.now.shape current.entry.half.now current.entry.words.now)) (RefusesMove schema.now.shape patch.now (half_rows schema.now.shape current.entry.half.now current.entry.words.now)) }
    ensures layout { IfOk result (λ next. layout_in next.half ≡ patch_layout patch.now) }
    ensures kind { IfErr result IsLoadFault }
    ensures fault { IfErr result (FailsMove schema.now.shape patch.now (half_rows schema.now.shape current.entry.half.now current.entry.words.now)) }
{
    let rows = PackedRows::new(schema, current.half, current.words);
    let counted = planned(alloc, schema, &rows, patch)?;
    Ok(half_of(alloc, &rows, counted)?)
}

/// Lays the rows that a patch moves others to out in the words of their half. The words are zeros, as many as the half takes; where memory is
/// refused they may hold anything.
///
/// Records and lists are copied, from where they stay or from the patch, and no row is made of one: the records run by run. Rows of the
/// other kinds are made anew.
pub(crate) fn lay_moved<'a>(
    alloc: Global,
    schema: &'a Schema,
    current: HalfRows<'a>,
    next: &Move<'a, 'a>,
    words: &mut [u64],
) -> Result<(), AllocError>
    requires shape { current.shape.now ≡ schema.now.shape }
    requires kept { IsHalf schema.now.shape current.half.now current.words.now }
    requires of { IsOfPatch schema.now.shape next.now }
    requires apart { AreApart next.now.differences }
    requires can { CanLay schema.now.shape next.now.half (rows_with (half_rows schema.now.shape current.half.now current.words.now) next.now.differences) }
    requires zeros { words.old ≡ replicate (words_for schema.now.shape next.now.half) 0 }
    ensures { OnOk result (IsLaidOut schema.now.shape next.now.half words.new (rows_with (half_rows schema.now.shape current.entry.half.now current.entry.words.now) next.now.differences)) }
{
    let areas = bytes_of_fields(alloc, current.bytes(), lengths_of(current.half))?;
    let records = KeptRecords::new(&current, areas.as_slice());
    if can_copy_runs(&schema.shape, current.half) {
        return lay_by_runs(alloc, schema, records, next, words);
    }
    let rows = PackedRows::new(schema, current.half, current.words);
    let moved = MovedRows::new(&rows, records, next.differences);
    lay_out(alloc, schema, &next.half, &moved, words)
}
