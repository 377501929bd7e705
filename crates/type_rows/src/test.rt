//! The test of a section of a snapshot: its first fault, or what its rows add up to. No row is made.
ghost use Rattle.std.specs.Prelude.{◌≡◌, ◌<◌, Err, IfOk, MatchResult, length};
ghost use Rattle.std.specs.List.Sorted.{IsStrictlyIncreasing};
ghost use Rattle.schema_model.specs.Parts.{shape_fields};
ghost use Rattle.type_rows.specs.declared.fault.RowFault.{RowFault};
ghost use Rattle.type_rows.specs.Layout.{item_bits, places_of};
ghost use Rattle.type_rows.specs.WellFormed.{IsReadable};
ghost use Rattle.type_rows.specs.LoadFault.{FailsLoad};
ghost use Rattle.type_rows.specs.Ordinals.{HasNoPlace, HoldsNowhere};
ghost use Rattle.type_rows.specs.Sums.{IsLaidOut, TellsTest};

use crate::ordinals::first_without_place;
use crate::{MOST_ITEMS, RowFault, Section, Sums, fixed_words, place_count, records, runs};
use schema_model::{Limit, MAX_BYTES, MAX_WORDS, Reason, Schema, Shape};
use std::alloc::Global;

/// What the rows of a section add up to, or its first fault: of its ordinals, its places, its widths, the limit on words and the limit on
/// bytes, tried one after the other. No row is made: it takes memory for the list of the live ordinals and a number a field.
///
/// `At` names an ordinal: `BadOrdinals` the least that has no place, `BadPointers`, `BadText`, `BadValue` and `BadBuckets` the first whose place
/// spells no row, `BadWidth` the first whose row the widths cannot hold when the live rows are laid out with no place between them. `Limit`
/// names the limit on words or bytes that the rows pass. `Memory` comes also where more than `MOST_ITEMS` buckets would be walked, and
/// where the section has no other fault and its rows more than `MOST_ITEMS` elements of no bits.
pub fn test_section(alloc: Global, schema: &Schema, section: &Section) -> Result<Sums, RowFault>
    requires { IsReadable schema.now.shape section.now }
    ensures tells { TellsTest schema.now.shape section.now result }
    ensures long { IfOk result (λ sums. length sums.lengths ≡ length (shape_fields schema.now.shape)) }
{
    let places = place_count(section.max) as u32;
    match first_without_place(&section.live, places) {
        Some(ordinal) => Err(RowFault::At(Reason::BadOrdinals, u64::from(ordinal))),
        None => test_live(alloc, schema, section),
    }
}

/// What the rows of a section add up to, or its first fault, as `test_section` tells of it; each live ordinal has a place.
fn test_live(alloc: Global, schema: &Schema, section: &Section) -> Result<Sums, RowFault>
    requires readable { IsReadable schema.now.shape section.now }
    requires placed { HoldsNowhere (HasNoPlace section.now.live (places_of section.now.max)) }
    requires rising { IsStrictlyIncreasing section.now.live }
    ensures tells { TellsTest schema.now.shape section.now result }
    ensures long { IfOk result (λ sums. length sums.lengths ≡ length (shape_fields schema.now.shape)) }
{
    if let Some(sums) = records::sums_by_widths(alloc, &schema.shape, section)? {
        return within_limits(&schema.shape, section, sums, 0);
    }
    let ordinals = section.live.ordinals(alloc)?;
    let (sums, bytes) = lay_out(alloc, schema, section, ordinals.as_slice())?;
    within_limits(&schema.shape, section, sums, bytes)
}

/// The rows of a section tested and laid out, and what they add up to, by kind; the number is that of their variable bytes.
fn lay_out(
    alloc: Global,
    schema: &Schema,
    section: &Section,
    live: &[u32],
) -> Result<(Sums, u64), RowFault>
    requires readable { IsReadable schema.now.shape section.now }
    requires placed { HoldsNowhere (HasNoPlace section.now.live (places_of section.now.max)) }
    requires live { live.now ≡ section.now.live }
    requires rising { IsStrictlyIncreasing live.now }
    ensures tells { MatchResult result (λ laid. IsLaidOut schema.now.shape section.now laid.0 laid.1) (FailsLoad schema.now.shape section.now) }
    ensures long { IfOk result (λ laid. length laid.0.lengths ≡ length (shape_fields schema.now.shape)) }
{
    match &schema.shape {
        Shape::Object(_, _) => records::lay_out(alloc, &schema.shape, section, live),
        _ => runs::lay_out(alloc, schema, section, live),
    }
}

/// The sums of rows that are laid out, where they keep the limits on words and bytes.
///
/// `Memory` comes where there are more than `MOST_ITEMS` items, which is within the limits only if they have no bits.
fn within_limits(shape: &Shape, section: &Section, sums: Sums, bytes: u64) -> Result<Sums, RowFault>
    requires { IsLaidOut shape.now section.now sums bytes }
    ensures tells { TellsTest shape.now section.now result }
    ensures same { IfOk result (λ same. same ≡ sums) }
    ensures memory { result ≡ Err RowFault.Memory → (item_bits shape.now section.now.widths ≡ 0) × (MOST_ITEMS < sums.items) }
{
    let widths = section.widths.as_slice();
    let words = fixed_words(shape, section.max, widths, sums.items);
    if words > u128::from(MAX_WORDS) {
        return Err(RowFault::Limit(Limit::Words));
    }
    if bytes > MAX_BYTES {
        return Err(RowFault::Limit(Limit::Bytes));
    }
    if sums.items > MOST_ITEMS {
        return Err(RowFault::Memory);
    }
    Ok(sums)
}
