//! Records, tested where they stand.
ghost use Rattle.std.specs.Prelude.{◌≡◌, ◌↔◌, ◌+◌, ◌-◌, ◌*◌, ◌^◌, ◌<◌, ◌≤◌, ℕ, List, IfOk, IfSome, IsTrue, MatchOption, MatchResult, length, min, slice_index, sum, take};
ghost use Rattle.std.specs.FinMap.{values};
ghost use Rattle.std.specs.List.Sorted.{IsStrictlyIncreasing};
ghost use Rattle.schema_model.specs.Parts.{shape_fields};
ghost use Rattle.row_model.specs.Table.{RowMap};
ghost use Rattle.row_model.specs.declared.row.Value.{Value};
ghost use Rattle.object_codec.specs.Part.{SpellsValue};
ghost use Rattle.object_codec.specs.ObjectPlace.{HoldsPlace, IsKindWidth, IsObject, SpellsObject, part_at};
ghost use Rattle.type_rows.specs.Ends.{end_after};
ghost use Rattle.type_rows.specs.Holds.{FitsWidths};
ghost use Rattle.type_rows.specs.Layout.{places_of};
ghost use Rattle.type_rows.specs.Loads.{SectionIs};
ghost use Rattle.type_rows.specs.WellFormed.{IsReadable};
ghost use Rattle.type_rows.specs.WordsHeld.{field_bytes, value_bytes};
ghost use Rattle.type_rows.specs.LoadFault.{FailsLoad};
ghost use Rattle.type_rows.specs.Ordinals.{HasNoPlace, HoldsNowhere};
ghost use Rattle.type_rows.specs.Free.{AreFree, IsFree};
ghost use Rattle.type_rows.specs.FieldEnds.{AddsRecord, AreLengths, EndFits, EndsFit, run_bytes};
ghost use Rattle.type_rows.specs.Sums.{AreLaid, IsLaidOut, IsOfRows};

use crate::{RowFault, Section, Sums};
use bit_array::total_width;
use hol_varint::Octets;
use object_codec::{EndOffset, Part, first_fault, has_bytes, is_free, read_part};
use row_model::{Words, area_size};
use schema_model::{Field, FieldKind, Reason, Shape};
use std::alloc::{AllocError, Global};

/// Tests the places of the live ordinals of an OBJECT: the fault is that of the first that spells no record. It takes memory only where spans of
/// a STRING's bytes overlap.
fn test_records(
    alloc: Global,
    shape: &Shape,
    section: &Section,
    live: &[u32],
) -> Result<(), RowFault>
    requires object { IsObject shape.now }
    requires readable { IsReadable shape.now section.now }
    requires placed { HoldsNowhere (HasNoPlace section.now.live (places_of section.now.max)) }
    requires live { live.now ≡ section.now.live }
    requires rising { IsStrictlyIncreasing live.now }
    ensures { MatchResult result (λ _. IsOfRows shape.now section.now) (FailsLoad shape.now section.now) }
{
    let widths = section.widths.as_slice();
    let first = section.first.as_slice();
    let areas = section.areas.as_slice();
    let found = first_fault(alloc, shape.fields(), widths, first, areas, live)?;
    match found {
        None => Ok(()),
        Some((place, reason)) => Err(RowFault::At(reason, u64::from(place))),
    }
}

/// Whether each element of this width has a value in a field of this kind, as far as that is told by the width alone, and no variable bytes.
fn is_field_free(kind: &FieldKind, width: u32) -> bool
    ensures { IsTrue result → IsFree kind.now width }
{
    !has_bytes(kind) && is_free(kind, width)
}

/// Whether that is so in each of these fields.
fn are_free(fields: &[Field], widths: &[u32]) -> bool
    requires { length widths.now ≡ length fields.now }
    ensures { IsTrue result → AreFree fields.now widths.now (length fields.now) }
{
    for (index, field) in fields.iter().enumerate() {
        if !is_field_free(&field.kind, widths[index]) {
            return false;
        }
    }
    true
}

/// What the records of an OBJECT add up to where its widths alone tell that each place spells one, and there are no variable bytes: then no
/// place is looked at. None where that is not told.
pub(crate) fn sums_by_widths(
    alloc: Global,
    shape: &Shape,
    section: &Section,
) -> Result<Option<Sums>, AllocError>
    requires readable { IsReadable shape.now section.now }
    requires placed { HoldsNowhere (HasNoPlace section.now.live (places_of section.now.max)) }
    requires rising { IsStrictlyIncreasing section.now.live }
    ensures laid { IfOk result (λ found. IfSome found (λ sums. IsLaidOut shape.now section.now sums 0)) }
    ensures long { IfOk result (λ found. IfSome found (λ sums. length sums.lengths ≡ length (shape_fields shape.now))) }
{
    let Shape::Object(_, fields) = shape else {
        return Ok(None);
    };
    if !are_free(fields.as_slice(), section.widths.as_slice()) {
        return Ok(None);
    }
    let lengths = Words::from_vec(vec![in alloc; 0u64; fields.len()]?);
    Ok(Some(Sums { items: 0, lengths }))
}

/// How many variable bytes a part has; 0 for one of a fixed kind, and for null.
#[inline(always)]
fn run_length(part: Part) -> u64
    ensures { result ≡ run_bytes part }
{
    match part {
        Part::Run(start, end) => end.saturating_sub(start),
        _ => 0,
    }
}

/// How many variable bytes the value of a field has whose element begins at bit `at` of the words, in records of `size` bits, and which spells
/// one; the field has `bytes` bytes.
#[inline(always)]
fn value_length(kind: &FieldKind, first: &[u64], at: u64, width: u32, size: u64, bytes: u64) -> u64
    requires narrow { width ≤ 64 }
    requires wide { IsKindWidth kind.now width }
    requires inside { at + width ≤ 64 * length first.now }
    ensures { (place before : ℕ) (area : List ℕ) (value : Value) → at ≡ place * size + before → before + width ≤ size → bytes ≡ length area → SpellsValue kind.now (part_at first.now size place before width area) value → result ≡ value_bytes value }
{
    if !has_bytes(kind) {
        return 0;
    }
    match read_part(first, kind, at, width, size, bytes) {
        Ok(part) => run_length(part),
        Err(_) => 0,
    }
}

/// Whether the element of a field of this kind holds this end offset, where its values have variable bytes.
#[inline(always)]
fn holds_end(kind: &FieldKind, width: u32, end: u64) -> bool
    requires { width ≤ 64 }
    ensures { IsTrue result ↔ EndFits kind.now width end }
{
    !has_bytes(kind) || EndOffset::fits(end, width)
}

/// Lays out one record more, that of a place: adds the bytes of each of its fields to those before, and answers how many they are; none where an
/// element does not hold its end offset.
fn add_record(
    fields: &[Field],
    widths: &[u32],
    first: &[u64],
    areas: &[Octets],
    place: u64,
    lengths: &mut [u64],
) -> Option<u64>
    requires holds { HoldsPlace fields.now widths.now first.now areas.now place }
    requires long { length lengths.old ≡ length fields.now }
    ensures tells { (record_values : List Value) → SpellsObject fields.now widths.now first.now areas.now place record_values → MatchOption result (FitsWidths fields.now widths.now (end_after lengths.old record_values) record_values → ⊥) (AddsRecord fields.now widths.now lengths.old record_values lengths.new) }
    ensures long { length lengths.new ≡ length lengths.old }
{
    let size = total_width(widths) as u64;
    let mut at = place * size;
    let mut bytes: u64 = 0;
    for (index, field) in fields.iter().enumerate() {
        let width = widths[index];
        let area = areas[index].as_slice();
        let length = value_length(&field.kind, first, at, width, size, area.len() as u64);
        let end = lengths[index].saturating_add(length);
        if !holds_end(&field.kind, width, end) {
            return None;
        }
        lengths[index] = end;
        bytes = bytes.saturating_add(length);
        at += u64::from(width);
    }
    Some(bytes)
}

/// The variable bytes of each field, and of all fields, of the records of an OBJECT, laid out one behind the other: the fault is that of the
/// first whose elements do not hold its end offsets.
fn lay_out_records(
    alloc: Global,
    shape: &Shape,
    section: &Section,
    live: &[u32],
) -> Result<(Vec<u64>, u64), RowFault>
    requires object { IsObject shape.now }
    requires readable { IsReadable shape.now section.now }
    requires placed { HoldsNowhere (HasNoPlace section.now.live (places_of section.now.max)) }
    requires leads { IsOfRows shape.now section.now }
    requires live { live.now ≡ section.now.live }
    ensures tells { MatchResult result (λ laid. (rows : RowMap) → SectionIs shape.now section.now rows → AreLaid shape.now section.now.widths (values rows) 0 laid.0.items laid.1) (FailsLoad shape.now section.now) }
    ensures long { IfOk result (λ laid. length laid.0.items ≡ length (shape_fields shape.now)) }
{
    let fields = shape.fields();
    let widths = section.widths.as_slice();
    let first = section.first.as_slice();
    let areas = section.areas.as_slice();
    let mut lengths = vec![in alloc; 0u64; fields.len()]?;
    let mut bytes: u64 = 0;
    for ordinal in live {
        let place = u64::from(*ordinal);
        match add_record(fields, widths, first, areas, place, &mut lengths) {
            Some(more) => bytes = bytes.saturating_add(more),
            None => return Err(RowFault::At(Reason::BadWidth, place)),
        }
    }
    Ok((lengths, bytes))
}

/// How many variable bytes a field has in the records of an OBJECT; the greatest number where they are more. The widths of the fields before it
/// are `before` together.
fn column_length(shape: &Shape, section: &Section, index: usize, before: u64, live: &[u32]) -> u64
    requires object { IsObject shape.now }
    requires readable { IsReadable shape.now section.now }
    requires placed { HoldsNowhere (HasNoPlace section.now.live (places_of section.now.max)) }
    requires live { live.now ≡ section.now.live }
    requires inside { index < length (shape_fields shape.now) }
    requires before { before ≡ sum (take index section.now.widths) }
    ensures { (rows : RowMap) → SectionIs shape.now section.now rows → result ≡ min (field_bytes index (values rows)) (2 ^ 64 - 1) }
{
    let fields = shape.fields();
    let field = &fields[index];
    if !has_bytes(&field.kind) {
        return 0;
    }
    let first = section.first.as_slice();
    let widths = section.widths.as_slice();
    let size = total_width(widths) as u64;
    let width = widths[index];
    let bytes = area_size(&section.areas, index as u32);
    let mut length: u64 = 0;
    for ordinal in live {
        let at = u64::from(*ordinal) * size + before;
        length = length.saturating_add(value_length(&field.kind, first, at, width, size, bytes));
    }
    length
}

/// How many variable bytes each field has in the records of an OBJECT; the greatest number where they are more.
fn column_lengths(
    alloc: Global,
    shape: &Shape,
    section: &Section,
    live: &[u32],
) -> Result<Words, AllocError>
    requires object { IsObject shape.now }
    requires readable { IsReadable shape.now section.now }
    requires placed { HoldsNowhere (HasNoPlace section.now.live (places_of section.now.max)) }
    requires live { live.now ≡ section.now.live }
    ensures long { IfOk result (λ lengths. length lengths ≡ length (shape_fields shape.now)) }
    ensures lengths { IfOk result (λ lengths. AreLengths shape.now section.now lengths (length (shape_fields shape.now))) }
{
    let widths = section.widths.as_slice();
    let many = shape.fields().len();
    let mut lengths = Words::with_capacity(alloc, many)?;
    let mut before: u64 = 0;
    for index in 0..many {
        lengths.push(column_length(shape, section, index, before, live))?;
        before += u64::from(widths[index]);
    }
    Ok(lengths)
}

/// Whether the elements of each field hold this end offset of theirs, and none is the greatest number.
fn hold_ends(fields: &[Field], widths: &[u32], ends: &[u64]) -> bool
    requires widths { length widths.now ≡ length fields.now }
    requires ends { length ends.now ≡ length fields.now }
    requires narrow { (field : ℕ) → slice_index widths.now field ≤ 64 }
    ensures { IsTrue result → EndsFit fields.now widths.now ends.now (length fields.now) }
{
    for (index, field) in fields.iter().enumerate() {
        if ends[index] == u64::MAX || !holds_end(&field.kind, widths[index], ends[index]) {
            return false;
        }
    }
    true
}

/// The sum of some numbers; the greatest number where it is more.
fn total(numbers: &[u64]) -> u64
    ensures { result ≡ min (sum numbers.now) (2 ^ 64 - 1) }
{
    let mut total: u64 = 0;
    for number in numbers {
        total = total.saturating_add(*number);
    }
    total
}

/// Tests the places of an OBJECT, lays its records out, and tells what they add up to, and how many variable bytes they have.
///
/// Field by field it tells that all records fit, which is quick; only where they do not are they laid out one by one.
pub(crate) fn lay_out(
    alloc: Global,
    shape: &Shape,
    section: &Section,
    live: &[u32],
) -> Result<(Sums, u64), RowFault>
    requires object { IsObject shape.now }
    requires readable { IsReadable shape.now section.now }
    requires placed { HoldsNowhere (HasNoPlace section.now.live (places_of section.now.max)) }
    requires live { live.now ≡ section.now.live }
    requires rising { IsStrictlyIncreasing live.now }
    ensures tells { MatchResult result (λ laid. IsLaidOut shape.now section.now laid.0 laid.1) (FailsLoad shape.now section.now) }
    ensures long { IfOk result (λ laid. length laid.0.lengths ≡ length (shape_fields shape.now)) }
{
    test_records(alloc, shape, section, live)?;
    let lengths = column_lengths(alloc, shape, section, live)?;
    if hold_ends(
        shape.fields(),
        section.widths.as_slice(),
        lengths.as_slice(),
    ) {
        let bytes = total(lengths.as_slice());
        return Ok((Sums { items: 0, lengths }, bytes));
    }
    let (ends, bytes) = lay_out_records(alloc, shape, section, live)?;
    let lengths = Words::from_vec(ends);
    Ok((Sums { items: 0, lengths }, bytes))
}
