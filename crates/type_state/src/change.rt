//! What the rows that others are moved to add up to, where that is told by the rows that come and go.
ghost use Rattle.std.specs.Prelude.{◌≡◌, ◌≤◌, ℕ, [], IfOk, IfSome, IsTrue, length, slice_index};
ghost use Rattle.std.specs.FinMap.{values};
ghost use Rattle.schema_model.specs.Parts.{shape_fields};
ghost use Rattle.type_rows.specs.Ends.{AreOfKind};
ghost use Rattle.type_rows.specs.Holds.{HoldsRows};
ghost use Rattle.type_rows.specs.Layout.{width_count};
ghost use Rattle.type_rows.specs.Outline.{layout_at};
ghost use Rattle.type_rows.specs.Patches.{patch_layout};
ghost use Rattle.type_rows.specs.Totals.{AreTotals};
ghost use Rattle.type_state.specs.Differences.{AreApart, rows_with};
ghost use Rattle.type_state.specs.Moving.{IsHeld};
ghost use Rattle.type_state.specs.Counted.{AreEndsHeld, AreFree, AreOffsetsHeld, ComeFitting, HoldsSums};
ghost use Rattle.type_state.specs.Leaving.{AreStanding};

use crate::coming::{holds_end, holds_items};
use crate::counting::{add_rows, take_rows};
use crate::leaving::{Leaving, leaving_of};
use crate::packed_rows::PackedRows;
use crate::planning::Plan;
use crate::staying::stay_fitting;
use schema_model::{Field, MAX_BYTES, MAX_WORDS, Shape};
use std::alloc::{AllocError, Global};
use type_rows::{Ends, MOST_ITEMS, Outline, Totals, counted_words};

/// Counts the rows that come and go, and tells whether each part of those that come fits its width and the bytes keep the limit. It takes no memory.
fn count_change(
    totals: &mut Totals,
    next: &Plan<'_, '_>,
    leaving: &Leaving<'_>,
    rows: &PackedRows<'_>,
) -> bool
    requires long { length totals.old.ends.offsets.items ≡ length (shape_fields next.now.differences.schema.now.shape) }
    requires standing { AreStanding rows.now.rows leaving.now }
    requires enough { length leaving.now.columns.items ≤ length (shape_fields next.now.differences.schema.now.shape) }
    requires apart { AreApart next.now.differences }
    requires free { AreFree rows.now.rows next.now.differences.patch.now.added }
    requires layout { layout_at next.now.outline ≡ patch_layout next.now.differences.patch.now }
    requires totals { AreTotals (values rows.now.rows) totals.old }
    ensures totals { IsTrue result → AreTotals (values (rows_with rows.now.rows next.now.differences)) totals.new }
    ensures fits { IsTrue result → ComeFitting next.now.differences.schema.now.shape next.now.outline.widths next.now.differences }
    ensures long { IsTrue result → length totals.new.ends.offsets.items ≡ length (shape_fields next.now.differences.schema.now.shape) }
{
    let removed = next.differences.patch.removed.as_slice();
    take_rows(totals, leaving, rows, removed);
    add_rows(totals, &next.differences)
}

/// Whether the elements of each field hold this end offset of theirs.
fn hold_offsets(fields: &[Field], widths: &[u32], ends: &[u64]) -> bool
    requires widths { length widths.now ≡ length fields.now }
    requires ends { length ends.now ≡ length fields.now }
    requires narrow { (field : ℕ) → slice_index widths.now field ≤ 64 }
    ensures { IsTrue result → AreOffsetsHeld fields.now widths.now ends.now (length fields.now) }
{
    for (index, field) in fields.iter().enumerate() {
        if !holds_end(&field.kind, widths[index], ends[index]) {
            return false;
        }
    }
    true
}

/// Whether the widths hold where rows end: the end offset of each field, or the items of the other kinds.
fn hold_ends(shape: &Shape, widths: &[u32], ends: &Ends) -> bool
    requires widths { length widths.now ≡ width_count shape.now }
    requires narrow { (part : ℕ) → slice_index widths.now part ≤ 64 }
    requires long { length ends.now.offsets.items ≡ length (shape_fields shape.now) }
    ensures { IsTrue result → AreEndsHeld shape.now widths.now ends.now.offsets.items ends.now.items }
{
    match shape {
        Shape::Object(_, fields) => {
            hold_offsets(fields.as_slice(), widths, ends.offsets.as_slice())
        }
        _ => holds_items(widths[0], u128::from(ends.items)),
    }
}

/// Whether a layout holds the ends of rows that add up to these, and they keep the limits.
fn holds_sums(sums: &Totals, shape: &Shape, own: u32, outline: &Outline) -> bool
    requires widths { length outline.now.widths ≡ width_count shape.now }
    requires narrow { (part : ℕ) → slice_index outline.now.widths part ≤ 64 }
    requires long { length sums.now.ends.offsets.items ≡ length (shape_fields shape.now) }
    ensures { IsTrue result → HoldsSums shape.now own (layout_at outline.now) sums.now }
{
    let widths = outline.widths.as_slice();
    if !hold_ends(shape, widths, &sums.ends) {
        return false;
    }
    let items = sums.ends.items;
    let words = counted_words(shape, own, outline.max, widths, items);
    items <= MOST_ITEMS && words <= u128::from(MAX_WORDS) && sums.bytes <= MAX_BYTES
}

/// What the rows that others are moved to add up to, where it is told by the narrower fields of the rows that stay, by the rows that come and by
/// where all rows end that the layout holds them within the limits. None tells nothing.
///
/// The end offsets and the pointers are greatest at the last row; of a row that stays, all else fits as it did, or is tried where it stands, and of
/// one that comes it fits, as the patch has these widths.
pub(crate) fn totals_by_change(
    alloc: Global,
    next: &Plan<'_, '_>,
    rows: &PackedRows<'_>,
) -> Result<Option<Totals>, AllocError>
    requires widths { length next.now.outline.widths ≡ width_count next.now.differences.schema.now.shape }
    requires narrow { (part : ℕ) → slice_index next.now.outline.widths part ≤ 64 }
    requires before { AreOfKind next.now.differences.schema.now.shape rows.now.rows }
    requires apart { AreApart next.now.differences }
    requires free { AreFree rows.now.rows next.now.differences.patch.now.added }
    requires layout { layout_at next.now.outline ≡ patch_layout next.now.differences.patch.now }
    requires held { HoldsRows next.now.differences.schema.now.shape rows.now.widths [] (values rows.now.rows) }
    ensures held { IfOk result (λ told. IfSome told (λ sums. IsHeld next.now.differences.schema.now.shape next.now.own (layout_at next.now.outline) (rows_with rows.now.rows next.now.differences))) }
    ensures totals { IfOk result (λ told. IfSome told (AreTotals (values (rows_with rows.now.rows next.now.differences)))) }
    ensures long { IfOk result (λ told. IfSome told (λ sums. length sums.ends.offsets.items ≡ length (shape_fields next.now.differences.schema.now.shape))) }
{
    if next.outline.bound == 0 {
        return Ok(None);
    }
    let shape = &next.differences.schema.shape;
    let widths = next.outline.widths.as_slice();
    let removed = next.differences.patch.removed.as_slice();
    if !stay_fitting(rows, shape, widths, removed) {
        return Ok(None);
    }
    let Some(leaving) = leaving_of(alloc, rows, shape)? else {
        return Ok(None);
    };
    let mut sums = rows.totals(alloc)?;
    if sums.ends.offsets.len() != shape.fields().len() {
        return Ok(None);
    }
    if !count_change(&mut sums, next, &leaving, rows) {
        return Ok(None);
    }
    if !holds_sums(&sums, shape, next.own, &next.outline) {
        return Ok(None);
    }
    Ok(Some(sums))
}
