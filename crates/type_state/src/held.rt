//! Whether a layout holds its rows, and whether they keep the limits.
ghost use Rattle.std.specs.Prelude.{◌≡◌, ◌≤◌, ℕ, [], IfOk, MatchResult, Some, length, slice_index};
ghost use Rattle.std.specs.FinMap.{keys, values};
ghost use Rattle.ordinal_set.specs.Ordinals.{bound_of};
ghost use Rattle.row_model.specs.declared.row.Row.{Row as StoredRow};
ghost use Rattle.schema_model.specs.Parts.{shape_fields};
ghost use Rattle.type_rows.specs.Layout.{width_count};
ghost use Rattle.type_rows.specs.Holds.{HoldsRows};
ghost use Rattle.type_rows.specs.Ends.{AreOfKind, IsOfKind};
ghost use Rattle.type_rows.specs.Outline.{layout_at};
ghost use Rattle.type_rows.specs.Patches.{patch_layout};
ghost use Rattle.type_rows.specs.Totals.{AreTotals};
ghost use Rattle.type_state.specs.Counted.{AreFree};
ghost use Rattle.type_state.specs.Differences.{AreApart, rows_with};
ghost use Rattle.type_state.specs.FirstFaults.{FailsHeld, FailsSlot};
ghost use Rattle.type_state.specs.Moving.{AreLaidOut, IsHeld, LaysSlot};

use crate::change::totals_by_change;
use crate::packed_rows::PackedRows;
use crate::planning::Plan;
use row_model::Row;
use schema_model::{Limit, MAX_BYTES, MAX_WORDS, Reason, Shape};
use std::alloc::Global;
use type_rows::{Ends, MOST_ITEMS, RowFault, Totals, counted_words, row_len};

/// Lays out what stands under an ordinal, if a row does, and tests that each part of it fits its width; gives its bytes. The fault names the ordinal.
fn lay_slot(
    shape: &Shape,
    widths: &[u32],
    ordinal: u32,
    slot: &Option<Row>,
    ends: &mut Ends,
) -> Result<u64, RowFault>
    requires widths { length widths.now ≡ width_count shape.now }
    requires narrow { (part : ℕ) → slice_index widths.now part ≤ 64 }
    requires long { length ends.old.offsets.items ≡ length (shape_fields shape.now) }
    requires kind { (row : StoredRow) → slot.now ≡ Some row → IsOfKind shape.now row }
    ensures { MatchResult result (LaysSlot shape.now widths.now slot.now ends.old ends.new) (FailsSlot shape.now widths.now ordinal slot.now ends.old) }
{
    let Some(row) = slot else {
        return Ok(0);
    };
    if !ends.add(shape, widths, row) {
        return Err(RowFault::At(Reason::BadWidth, u64::from(ordinal)));
    }
    Ok(row_len(row))
}

/// Lays out rows one behind the other, tests that each part of them fits its width, and counts their bytes; the ends are at 0. The fault is that
/// of the first row that does not fit.
fn lay_out(
    alloc: Global,
    next: &Plan<'_, '_>,
    rows: &PackedRows<'_>,
    ends: &mut Ends,
) -> Result<u64, RowFault>
    requires widths { length next.now.outline.widths ≡ width_count next.now.differences.schema.now.shape }
    requires narrow { (part : ℕ) → slice_index next.now.outline.widths part ≤ 64 }
    requires kinds { AreOfKind next.now.differences.schema.now.shape (rows_with rows.now.rows next.now.differences) }
    requires apart { AreApart next.now.differences }
    requires bound { next.now.outline.bound ≡ bound_of (keys (rows_with rows.now.rows next.now.differences)) }
    requires zero { (field : ℕ) → slice_index ends.old.offsets.items field ≡ 0 }
    requires long { length ends.old.offsets.items ≡ length (shape_fields next.now.differences.schema.now.shape) }
    requires none { ends.old.items ≡ 0 }
    ensures { MatchResult result (AreLaidOut next.now.differences.schema.now.shape next.now.outline.widths (values (rows_with rows.now.rows next.now.differences)) ends.new.offsets.items ends.new.items) (FailsHeld next.now.differences.schema.now.shape next.now.own (layout_at next.now.outline) (rows_with rows.now.rows next.now.differences)) }
{
    let mut bytes: u64 = 0;
    for ordinal in 0..next.outline.bound {
        let slot = next.differences.find(alloc, rows, ordinal)?;
        let more = lay_slot(
            &next.differences.schema.shape,
            next.outline.widths.as_slice(),
            ordinal,
            &slot,
            ends,
        )?;
        bytes = bytes.saturating_add(more);
    }
    Ok(bytes)
}

/// Tests that the layout of a half holds its rows, laid out one behind the other, and that they keep the limit on words, then that on bytes;
/// gives what they add up to. `Memory` comes also where they do, and have more than `MOST_ITEMS` elements, which then have no bits.
fn test_all(alloc: Global, next: &Plan<'_, '_>, rows: &PackedRows<'_>) -> Result<Totals, RowFault>
    requires widths { length next.now.outline.widths ≡ width_count next.now.differences.schema.now.shape }
    requires narrow { (part : ℕ) → slice_index next.now.outline.widths part ≤ 64 }
    requires kinds { AreOfKind next.now.differences.schema.now.shape (rows_with rows.now.rows next.now.differences) }
    requires apart { AreApart next.now.differences }
    requires bound { next.now.outline.bound ≡ bound_of (keys (rows_with rows.now.rows next.now.differences)) }
    ensures tells { MatchResult result (λ _. IsHeld next.now.differences.schema.now.shape next.now.own (layout_at next.now.outline) (rows_with rows.now.rows next.now.differences)) (FailsHeld next.now.differences.schema.now.shape next.now.own (layout_at next.now.outline) (rows_with rows.now.rows next.now.differences)) }
    ensures totals { IfOk result (AreTotals (values (rows_with rows.now.rows next.now.differences))) }
    ensures long { IfOk result (λ sums. length sums.ends.offsets.items ≡ length (shape_fields next.now.differences.schema.now.shape)) }
{
    let mut ends = Ends::new(alloc, &next.differences.schema.shape)?;
    let bytes = lay_out(alloc, next, rows, &mut ends)?;
    let words = counted_words(
        &next.differences.schema.shape,
        next.own,
        next.outline.max,
        next.outline.widths.as_slice(),
        ends.items,
    );
    if words > u128::from(MAX_WORDS) {
        return Err(RowFault::Limit(Limit::Words));
    }
    if bytes > MAX_BYTES {
        return Err(RowFault::Limit(Limit::Bytes));
    }
    if ends.items > MOST_ITEMS {
        return Err(RowFault::Memory);
    }
    Ok(Totals { ends, bytes })
}

/// Tests that the layout of a half holds its rows, and that they keep the limit on words, then that on bytes; gives what they add up to. The current rows are
/// held by their widths: all rows are walked only where it is not told by those that come and go.
pub(crate) fn test_held(
    alloc: Global,
    next: &Plan<'_, '_>,
    rows: &PackedRows<'_>,
) -> Result<Totals, RowFault>
    requires widths { length next.now.outline.widths ≡ width_count next.now.differences.schema.now.shape }
    requires narrow { (part : ℕ) → slice_index next.now.outline.widths part ≤ 64 }
    requires before { AreOfKind next.now.differences.schema.now.shape rows.now.rows }
    requires kinds { AreOfKind next.now.differences.schema.now.shape (rows_with rows.now.rows next.now.differences) }
    requires apart { AreApart next.now.differences }
    requires free { AreFree rows.now.rows next.now.differences.patch.now.added }
    requires layout { layout_at next.now.outline ≡ patch_layout next.now.differences.patch.now }
    requires bound { next.now.outline.bound ≡ bound_of (keys (rows_with rows.now.rows next.now.differences)) }
    requires held { HoldsRows next.now.differences.schema.now.shape rows.now.widths [] (values rows.now.rows) }
    ensures tells { MatchResult result (λ _. IsHeld next.now.differences.schema.now.shape next.now.own (layout_at next.now.outline) (rows_with rows.now.rows next.now.differences)) (FailsHeld next.now.differences.schema.now.shape next.now.own (layout_at next.now.outline) (rows_with rows.now.rows next.now.differences)) }
    ensures totals { IfOk result (AreTotals (values (rows_with rows.now.rows next.now.differences))) }
    ensures long { IfOk result (λ sums. length sums.ends.offsets.items ≡ length (shape_fields next.now.differences.schema.now.shape)) }
{
    match totals_by_change(alloc, next, rows)? {
        Some(sums) => Ok(sums),
        None => test_all(alloc, next, rows),
    }
}
