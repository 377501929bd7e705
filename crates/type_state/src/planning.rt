//! From the current rows of a type and a patch to its next rows: their layout, the differences, and what the rows add up to.
ghost use Rattle.std.specs.Prelude.{◌≡◌, ◌<◌, ◌≤◌, ◌-◌, ◌^◌, [], None, All, IfOk, MatchResult, length, map};
ghost use Rattle.std.specs.FinMap.{keys, values};
ghost use Rattle.ordinal_set.specs.Ordinals.{bound_of};
ghost use Rattle.schema_model.specs.Parts.{shape_fields};
ghost use Rattle.type_rows.specs.Holds.{HoldsRows};
ghost use Rattle.type_rows.specs.Patches.{IsMovedBy, IsReadablePatch, patch_layout};
ghost use Rattle.type_rows.specs.Ends.{AreOfKind};
ghost use Rattle.type_rows.specs.Outline.{layout_at};
ghost use Rattle.type_rows.specs.Totals.{AreTotals};
ghost use Rattle.type_rows.specs.MoveFault.{FailsMove};
ghost use Rattle.type_state.specs.Differences.{AreApart, AreBelow, removal, rows_with, added_of, removed_of};
ghost use Rattle.type_state.specs.Moving.{IsDifferent, IsMoved};

use crate::added::test_added;
use crate::differences::Differences;
use crate::held::test_held;
use crate::packed_rows::PackedRows;
use column_rows::TypeRows;
use hol_varint::Duplicate;
use schema_model::{Reason, Schema};
use std::alloc::Global;
use type_rows::{Outline, PatchSection, RowFault, Totals, first_bad_ordinal};

/// The rows that a patch moves others to, as differences from these, and their layout.
#[derive(Drop)]
pub(crate) struct Plan<'s, 'p> {
    pub(crate) outline: Outline,
    /// How many bits of the record of an OBJECT the limit on words counts.
    pub(crate) own: u32,
    pub(crate) differences: Differences<'s, 'p>,
}

/// A plan whose layout holds the new rows, and what these add up to.
#[derive(Drop)]
pub(crate) struct CountedPlan<'s, 'p> {
    pub(crate) plan: Plan<'s, 'p>,
    pub(crate) totals: Totals,
}

/// A number above each ordinal that has a row with the differences, by one above those that had one before.
fn first_bound(bound: u32, differences: &Differences<'_, '_>) -> u32
    requires apart { AreApart differences.now }
    ensures before { bound ≤ result }
    ensures added { AreBelow result (added_of differences.now) }
{
    match differences.patch.added.as_slice().last() {
        Some(last) => bound.max(*last as u32 + 1),
        None => bound,
    }
}

/// The place before, where a greater ordinal stands at a place, or none does.
fn place_back(removed: &[u64], place: usize, ordinal: u32) -> usize {
    match removed.get(place) {
        Some(removed) if *removed <= u64::from(ordinal) => place,
        _ => place.saturating_sub(1),
    }
}

/// One past the greatest ordinal that has a row with the differences. Those that are removed are gone through beside the ordinals, from the last one.
fn bound_with(rows: &PackedRows<'_>, differences: &Differences<'_, '_>) -> u32
    requires apart { AreApart differences.now }
    requires removed { AreBelow (bound_of (keys rows.now.rows)) (removed_of differences.now) }
    ensures { result ≡ bound_of (keys (rows_with rows.now.rows differences.now)) }
{
    let removed = differences.patch.removed.as_slice();
    let mut above = first_bound(rows.bound(), differences);
    let mut place = removed.len();
    while above > 0 {
        place = place_back(removed, place, above - 1);
        if differences.is_live_at(rows, place, above - 1) {
            return above;
        }
        above -= 1;
    }
    0
}

/// The differences of the rows that a patch moves others to, or its first fault: its ordinals are tried, then the places of the added ones.
/// The removed ordinals are live, and so below the bound.
fn differences_of<'s, 'p>(
    alloc: Global,
    schema: &'s Schema,
    rows: &PackedRows<'_>,
    patch: &'p PatchSection,
) -> Result<Differences<'s, 'p>, RowFault>
    requires { IsReadablePatch schema.now.shape patch.now }
    ensures { MatchResult result (IsDifferent schema.now.shape patch.now rows.now.rows) (FailsMove schema.now.shape patch.now rows.now.rows) }
{
    let _bound = rows.bound();
    if let Some(ordinal) = first_bad_ordinal(rows.live(), patch) {
        return Err(RowFault::At(Reason::BadOrdinals, ordinal));
    }
    test_added(alloc, schema, patch)?;
    Ok(Differences { schema, patch })
}

/// The rows that a patch moves others to, at its layout, where each has a place, or the first fault of its ordinals and places.
fn differing<'s, 'p>(
    alloc: Global,
    schema: &'s Schema,
    rows: &PackedRows<'_>,
    patch: &'p PatchSection,
) -> Result<Plan<'s, 'p>, RowFault>
    requires { IsReadablePatch schema.now.shape patch.now }
    ensures tells { MatchResult result (λ next. IsMoved schema.now.shape patch.now rows.now.rows (rows_with rows.now.rows next.differences)) (FailsMove schema.now.shape patch.now rows.now.rows) }
    ensures layout { IfOk result (λ next. layout_at next.outline ≡ patch_layout patch.now) }
    ensures own { IfOk result (λ next. next.own ≡ patch.now.own) }
    ensures bound { IfOk result (λ next. next.outline.bound ≡ bound_of (keys (rows_with rows.now.rows next.differences))) }
    ensures apart { IfOk result (λ next. AreApart next.differences) }
    ensures known { IfOk result (λ next. IsDifferent schema.now.shape patch.now rows.now.rows next.differences) }
{
    let differences = differences_of(alloc, schema, rows, patch)?;
    let next_bound = bound_with(rows, &differences);
    let outline = Outline {
        max: patch.max,
        widths: patch.widths.copy(alloc)?,
        bound: next_bound,
    };
    Ok(Plan {
        outline,
        own: patch.own,
        differences,
    })
}

/// The rows that a patch moves others to, at its layout, which holds them within the limits, with what they add up to; or the patch's first fault.
pub(crate) fn planned<'s, 'p>(
    alloc: Global,
    schema: &'s Schema,
    rows: &PackedRows<'_>,
    patch: &'p PatchSection,
) -> Result<CountedPlan<'s, 'p>, RowFault>
    requires readable { IsReadablePatch schema.now.shape patch.now }
    requires kinds { AreOfKind schema.now.shape rows.now.rows }
    requires held { HoldsRows schema.now.shape rows.now.widths [] (values rows.now.rows) }
    ensures tells { MatchResult result (λ counted. IsMovedBy schema.now.shape patch.now rows.now.rows (rows_with rows.now.rows counted.plan.differences)) (FailsMove schema.now.shape patch.now rows.now.rows) }
    ensures kinds { IfOk result (λ counted. AreOfKind schema.now.shape (rows_with rows.now.rows counted.plan.differences)) }
    ensures layout { IfOk result (λ counted. layout_at counted.plan.outline ≡ patch_layout patch.now) }
    ensures known { IfOk result (λ counted. IsDifferent schema.now.shape patch.now rows.now.rows counted.plan.differences) }
    ensures totals { IfOk result (λ counted. AreTotals (values (rows_with rows.now.rows counted.plan.differences)) counted.totals) }
    ensures long { IfOk result (λ counted. length counted.totals.ends.offsets.items ≡ length (shape_fields schema.now.shape)) }
{
    let plan = differing(alloc, schema, rows, patch)?;
    let totals = test_held(alloc, &plan, rows)?;
    Ok(CountedPlan { plan, totals })
}
