//! Lists, sets and maps, tested where they stand.
ghost use Rattle.std.specs.Prelude.{◌≡◌, ◌+◌, ◌-◌, ◌*◌, ◌^◌, ◌<◌, ◌≤◌, ℕ, [], Err, IfOk, MatchOption, MatchResult, length, slice_index};
ghost use Rattle.type_rows.specs.declared.fault.RowFault.{RowFault};
ghost use Rattle.std.specs.FinMap.{values};
ghost use Rattle.std.specs.List.Sorted.{IsStrictlyIncreasing};
ghost use Rattle.schema_model.specs.Parts.{shape_fields};
ghost use Rattle.row_model.specs.Table.{RowMap};
ghost use Rattle.list_codec.specs.ListPlace.{IsList};
ghost use Rattle.bucket_codec.specs.Buckets.{IsBucketShape};
ghost use Rattle.type_rows.specs.Layout.{places_of};
ghost use Rattle.type_rows.specs.Loads.{SectionIs};
ghost use Rattle.type_rows.specs.WellFormed.{IsReadable};
ghost use Rattle.type_rows.specs.LoadFault.{FailsLoad};
ghost use Rattle.type_rows.specs.Ordinals.{HasNoPlace, HoldsNowhere};
ghost use Rattle.type_rows.specs.Places.{SpellsSome};
ghost use Rattle.type_rows.specs.RunItems.{HasRuns, AreListsOf, IsOfSection, MayLackMemory, items_at};
ghost use Rattle.type_rows.specs.Sums.{AreLaid, IsLaidOut, IsOfRows};

use crate::{MOST_ITEMS, RowFault, Section, Sums};
use bucket_codec::{BucketRows, buckets_for};
use list_codec::{ListRows, Lists};
use row_model::Words;
use schema_model::{Reason, Schema, Shape};
use std::alloc::Global;

/// Tests the places of the live ordinals of a LIST by rising ordinal: the fault is that of the first that spells no row. It takes memory only where
/// lists share elements of more than 32 bits.
fn test_lists(alloc: Global, shape: &Shape, section: &Section, live: &[u32]) -> Result<(), RowFault>
    requires list { IsList shape.now }
    requires readable { IsReadable shape.now section.now }
    requires placed { HoldsNowhere (HasNoPlace section.now.live (places_of section.now.max)) }
    requires live { live.now ≡ section.now.live }
    requires rising { IsStrictlyIncreasing live.now }
    ensures tells { MatchResult result (λ _. IsOfRows shape.now section.now) (FailsLoad shape.now section.now) }
    ensures memory { result ≡ Err RowFault.Memory → 32 < slice_index section.now.widths 1 }
{
    let mut lists = Lists::new(alloc, list_rows(section));
    for ordinal in live {
        let place = u64::from(*ordinal);
        if let Some(reason) = lists.fault(alloc, place)? {
            return Err(RowFault::At(reason, place));
        }
    }
    Ok(())
}

/// Tests the places of the live ordinals of a SET or MAP by rising ordinal.
///
/// The fault is that of the first place that spells no row. `Memory` comes where more than `MOST_ITEMS` buckets would be walked.
fn test_sets(alloc: Global, shape: &Shape, section: &Section, live: &[u32]) -> Result<(), RowFault>
    requires buckets { IsBucketShape shape.now }
    requires readable { IsReadable shape.now section.now }
    requires placed { HoldsNowhere (HasNoPlace section.now.live (places_of section.now.max)) }
    requires live { live.now ≡ section.now.live }
    requires rising { IsStrictlyIncreasing live.now }
    ensures { MatchResult result (λ _. IsOfRows shape.now section.now) (FailsLoad shape.now section.now) }
{
    let rows = bucket_rows(section);
    let mut walked: u64 = 0;
    for ordinal in live {
        let place = u64::from(*ordinal);
        if let Some(fault) = rows.fault(alloc, place)? {
            return Err(RowFault::At(fault, place));
        }
        walked = walked.saturating_add(rows.run_length(place));
        if walked > MOST_ITEMS {
            return Err(RowFault::Memory);
        }
    }
    Ok(())
}

/// Tests the places of the live ordinals of a LIST, SET or MAP by rising ordinal: the fault is that of the first that spells no row.
pub(crate) fn test_runs(
    alloc: Global,
    schema: &Schema,
    section: &Section,
    live: &[u32],
) -> Result<(), RowFault>
    requires runs { HasRuns schema.now.shape }
    requires readable { IsReadable schema.now.shape section.now }
    requires placed { HoldsNowhere (HasNoPlace section.now.live (places_of section.now.max)) }
    requires live { live.now ≡ section.now.live }
    requires rising { IsStrictlyIncreasing live.now }
    ensures tells { MatchResult result (λ _. IsOfRows schema.now.shape section.now) (FailsLoad schema.now.shape section.now) }
    ensures memory { result ≡ Err RowFault.Memory → MayLackMemory schema.now.shape section.now }
{
    match &schema.shape {
        Shape::List(_) => test_lists(alloc, &schema.shape, section, live),
        _ => test_sets(alloc, &schema.shape, section, live),
    }
}

/// The lists of a section.
fn list_rows(section: &Section) -> ListRows<'_>
    ensures { AreListsOf section.now result }
{
    ListRows {
        widths: section.widths.as_slice(),
        total: section.total,
        first: section.first.as_slice(),
        second: section.second.as_slice(),
    }
}

/// The sets or maps of a section.
fn bucket_rows(section: &Section) -> BucketRows<'_>
    ensures { IsOfSection section.now result }
{
    BucketRows {
        widths: section.widths.as_slice(),
        total: section.total,
        first: section.first.as_slice(),
        second: section.second.as_slice(),
    }
}

/// The items of the row at a place that spells one: elements of a list, and the buckets that the writer makes for a set or map.
fn items_of(shape: &Shape, section: &Section, place: u64) -> u64
    requires readable { IsReadable shape.now section.now }
    requires place { place < places_of section.now.max }
    requires spelled { SpellsSome shape.now section.now place }
    ensures { result ≡ items_at shape.now section.now place }
{
    match shape {
        Shape::Object(_, _) => 0,
        Shape::List(_) => list_rows(section).length(place),
        _ => buckets_for(bucket_rows(section).size(place) as u32),
    }
}

/// Items with more behind them; none where a pointer of this width does not hold their end.
fn items_with(items: u64, more: u64, width: u32) -> Option<u64>
    requires { width ≤ 64 }
    ensures { MatchOption result (2 ^ width ≤ items + more) (λ end. (end ≡ items + more) × (end < 2 ^ width)) }
{
    let end = u128::from(items) + u128::from(more);
    if end >= 1 << width {
        return None;
    }
    Some(end as u64)
}

/// The items of the rows of a LIST, SET or MAP, laid out one behind the other: the fault is that of the first whose end the pointers do not hold.
pub(crate) fn lay_out_runs(shape: &Shape, section: &Section, live: &[u32]) -> Result<u64, RowFault>
    requires runs { HasRuns shape.now }
    requires readable { IsReadable shape.now section.now }
    requires leads { IsOfRows shape.now section.now }
    requires live { live.now ≡ section.now.live }
    ensures tells { MatchResult result (λ items. (rows : RowMap) → SectionIs shape.now section.now rows → AreLaid shape.now section.now.widths (values rows) items [] 0) (FailsLoad shape.now section.now) }
    ensures never { result ≡ Err RowFault.Memory → ⊥ }
{
    let width = section.widths.as_slice()[0];
    let mut items: u64 = 0;
    for ordinal in live {
        let place = u64::from(*ordinal);
        match items_with(items, items_of(shape, section, place), width) {
            Some(end) => items = end,
            None => return Err(RowFault::At(Reason::BadWidth, place)),
        }
    }
    Ok(items)
}

/// Tests the places of a LIST, SET or MAP, lays its rows out, and tells what they add up to, and that they have no variable bytes.
pub(crate) fn lay_out(
    alloc: Global,
    schema: &Schema,
    section: &Section,
    live: &[u32],
) -> Result<(Sums, u64), RowFault>
    requires runs { HasRuns schema.now.shape }
    requires readable { IsReadable schema.now.shape section.now }
    requires placed { HoldsNowhere (HasNoPlace section.now.live (places_of section.now.max)) }
    requires live { live.now ≡ section.now.live }
    requires rising { IsStrictlyIncreasing live.now }
    ensures tells { MatchResult result (λ laid. IsLaidOut schema.now.shape section.now laid.0 laid.1) (FailsLoad schema.now.shape section.now) }
    ensures long { IfOk result (λ laid. length laid.0.lengths ≡ length (shape_fields schema.now.shape)) }
    ensures memory { result ≡ Err RowFault.Memory → MayLackMemory schema.now.shape section.now }
{
    test_runs(alloc, schema, section, live)?;
    let items = lay_out_runs(&schema.shape, section, live)?;
    let lengths = Words::new(alloc);
    Ok((Sums { items, lengths }, 0))
}
