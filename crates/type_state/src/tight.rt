//! Whether the rows of a section stand with nothing between them, each in the room that it takes.
ghost use Rattle.std.specs.Prelude.{◌≡◌, ◌-◌, ◌*◌, ◌^◌, ◌<◌, ◌≤◌, ℕ, IsTrue, None, Some, sum};
ghost use Rattle.row_model.specs.declared.row.Row.{Row};
ghost use Rattle.bucket_codec.specs.BucketCount.{bucket_count};
ghost use Rattle.bucket_codec.specs.BucketPlace.{end_at, size_at, start_at};
ghost use Rattle.bucket_codec.specs.BucketRows.{HoldsAt, IsSpanAt};
ghost use Rattle.list_codec.specs.ListRows.{HasElementsAt, HoldsAt as HoldsListAt};
ghost use Rattle.object_codec.specs.ObjectPlace.{IsObject};
ghost use Rattle.packed_half.specs.LaidOut.{IsTight};
ghost use Rattle.record_copies.specs.Fixed.{AreFixed};
ghost use Rattle.schema_model.specs.Parts.{shape_fields};
ghost use Rattle.type_rows.specs.RunItems.{AreListsOf, IsOfSection};
ghost use Rattle.type_rows.specs.Layout.{places_of};
ghost use Rattle.type_rows.specs.Loads.{Spells};
ghost use Rattle.type_rows.specs.WellFormed.{IsReadable};
ghost use Rattle.type_state.specs.SectionRows.{IsTightThere, IsWithin, with_total};

use bit_array::total_width;
use bucket_codec::{BucketRows, buckets_for};
use list_codec::ListRows;
use record_copies::{are_clear, is_fixed, is_gap};
use schema_model::Shape;
use type_rows::{Section, place_count};

/// The lists of a section, with another total.
fn list_rows(section: &Section, total: u64) -> ListRows<'_>
    ensures { AreListsOf (with_total section.now total) result }
{
    ListRows {
        widths: section.widths.as_slice(),
        total,
        first: section.first.as_slice(),
        second: section.second.as_slice(),
    }
}

/// The sets or maps of a section, with another total.
fn bucket_rows(section: &Section, total: u64) -> BucketRows<'_>
    ensures { IsOfSection (with_total section.now total) result }
{
    BucketRows {
        widths: section.widths.as_slice(),
        total,
        first: section.first.as_slice(),
        second: section.second.as_slice(),
    }
}

/// Whether the run of a place is within the total, and has as many buckets as a writer makes for its size.
fn has_its_buckets(rows: &BucketRows<'_>, place: u64) -> bool
    requires { HoldsAt rows.now place }
    ensures span { IsTrue result → IsSpanAt rows.now place }
    ensures buckets { IsTrue result → end_at rows.now.widths.now rows.now.first.now place - start_at rows.now.widths.now rows.now.first.now place ≡ bucket_count (size_at rows.now.widths.now rows.now.first.now place) }
{
    let Some(buckets) = rows.buckets(place) else {
        return false;
    };
    let size = rows.size(place);
    if size > u64::from(u32::MAX) {
        return false;
    }
    if buckets.len != buckets_for(size as u32) {
        return false;
    }
    true
}

/// Whether the run of a place has no buckets, and the size 0.
fn has_no_buckets(rows: &BucketRows<'_>, place: u64) -> bool
    requires { HoldsAt rows.now place }
    ensures { IsTrue result → (end_at rows.now.widths.now rows.now.first.now place ≡ start_at rows.now.widths.now rows.now.first.now place) × (size_at rows.now.widths.now rows.now.first.now place ≡ 0) }
{
    let Some(_) = rows.buckets(place) else {
        return false;
    };
    if rows.size(place) != 0 {
        return false;
    }
    rows.run_length(place) == 0
}

/// Whether the elements of a place are within the total.
fn is_within(rows: &ListRows<'_>, place: u64) -> bool
    requires { HoldsListAt rows.now place }
    ensures { IsTrue result → HasElementsAt rows.now place }
{
    rows.elements(place).is_some()
}

/// Whether a place takes no more than the row that it spells, within so many items: the run of a set or map has as many buckets as a writer makes.
fn is_row_tight(shape: &Shape, section: &Section, total: u64, place: u64) -> bool
    requires readable { IsReadable shape.now section.now }
    requires few { total ≤ section.now.total }
    requires inside { place < places_of section.now.max }
    ensures { IsTrue result → (row : Row) → Spells shape.now section.now place row → IsWithin shape.now section.now total place row }
{
    match shape {
        Shape::Object(_, _) => true,
        Shape::List(_) => is_within(&list_rows(section, total), place),
        _ => has_its_buckets(&bucket_rows(section, total), place),
    }
}

/// Whether a place takes nothing, as where there is no row.
fn is_free(shape: &Shape, section: &Section, place: u64) -> bool
    requires readable { IsReadable shape.now section.now }
    requires inside { place < places_of section.now.max }
    ensures { IsTrue result → IsTight shape.now section.now place None }
{
    match shape {
        Shape::Object(_, fields) => is_gap(
            fields.as_slice(),
            section.widths.as_slice(),
            section.first.as_slice(),
            place,
        ),
        Shape::List(_) => list_rows(section, section.total).is_empty(place),
        _ => has_no_buckets(&bucket_rows(section, section.total), place),
    }
}

/// Whether a place takes no more than its row, within so many items, and nothing without one.
fn is_tight_at(shape: &Shape, section: &Section, total: u64, place: u64) -> bool
    requires readable { IsReadable shape.now section.now }
    requires few { total ≤ section.now.total }
    requires inside { place < places_of section.now.max }
    requires ordinals { places_of section.now.max ≤ 2 ^ 32 }
    ensures { IsTrue result → IsTightThere shape.now section.now total place }
{
    if section.live.contains(place as u32) {
        is_row_tight(shape, section, total, place)
    } else {
        is_free(shape, section, place)
    }
}

/// Whether the place of a record takes nothing, as where there is no row; where no field is a STRING or BYTES its bits are zero then.
fn is_record_free(shape: &Shape, section: &Section, fixed: bool, size: u64, place: u64) -> bool
    requires object { IsObject shape.now }
    requires readable { IsReadable shape.now section.now }
    requires inside { place < places_of section.now.max }
    requires fixed { IsTrue fixed → AreFixed (shape_fields shape.now) }
    requires size { size ≡ sum section.now.widths }
    ensures { IsTrue result → IsTight shape.now section.now place None }
{
    if !fixed {
        return is_free(shape, section, place);
    }
    are_clear(section.first.as_slice(), place * size, size)
}

/// Whether the place of a record takes no more than its row, which any place with one does, and nothing without one.
#[inline(always)]
fn is_record_tight(shape: &Shape, section: &Section, fixed: bool, size: u64, place: u64) -> bool
    requires object { IsObject shape.now }
    requires readable { IsReadable shape.now section.now }
    requires inside { place < places_of section.now.max }
    requires ordinals { places_of section.now.max ≤ 2 ^ 32 }
    requires fixed { IsTrue fixed → AreFixed (shape_fields shape.now) }
    requires size { size ≡ sum section.now.widths }
    ensures { IsTrue result → (total : ℕ) → IsTightThere shape.now section.now total place }
{
    if section.live.contains(place as u32) {
        return true;
    }
    is_record_free(shape, section, fixed, size, place)
}

/// Whether each place of the records of a section takes no more than its row, and nothing without one.
fn are_records_tight(shape: &Shape, section: &Section) -> bool
    requires object { IsObject shape.now }
    requires readable { IsReadable shape.now section.now }
    ensures { IsTrue result → (total place : ℕ) → place < places_of section.now.max → IsTightThere shape.now section.now total place }
{
    let fixed = is_fixed(shape.fields());
    let size = total_width(section.widths.as_slice()) as u64;
    for place in 0..place_count(section.max) {
        if !is_record_tight(shape, section, fixed, size, place) {
            return false;
        }
    }
    true
}

/// Whether each place of a section takes no more than its row, within so many items, and nothing without one.
fn are_runs_tight(shape: &Shape, section: &Section, total: u64) -> bool
    requires readable { IsReadable shape.now section.now }
    requires few { total ≤ section.now.total }
    ensures { IsTrue result → (place : ℕ) → place < places_of section.now.max → IsTightThere shape.now section.now total place }
{
    for place in 0..place_count(section.max) {
        if !is_tight_at(shape, section, total, place) {
            return false;
        }
    }
    true
}

/// Whether each place of a section takes no more than its row, within so many items, and nothing without one. It takes no memory.
pub(crate) fn is_tight(shape: &Shape, section: &Section, total: u64) -> bool
    requires readable { IsReadable shape.now section.now }
    requires few { total ≤ section.now.total }
    ensures { IsTrue result → (place : ℕ) → place < places_of section.now.max → IsTightThere shape.now section.now total place }
{
    match shape {
        Shape::Object(_, _) => are_records_tight(shape, section),
        _ => are_runs_tight(shape, section, total),
    }
}
