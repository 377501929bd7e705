//! What the rows that a patch adds add to totals, told where they stand in it: no row is made, and no memory is taken.
ghost use Rattle.std.specs.Prelude.{◌≡◌, ◌↔◌, ◌+◌, ◌*◌, ◌^◌, ◌<◌, ◌≤◌, ℕ, List, IfSome, IsTrue, length};
ghost use Rattle.schema_model.specs.Parts.{shape_fields};
ghost use Rattle.row_model.specs.declared.row.Row.{Row as StoredRow};
ghost use Rattle.row_model.specs.declared.row.Value.{Value};
ghost use Rattle.object_codec.specs.Part.{SpellsValue};
ghost use Rattle.object_codec.specs.ObjectPlace.{HoldsPlace, IsKindWidth, IsObject, SpellsObject, part_at};
ghost use Rattle.type_rows.specs.FieldEnds.{AddsRecord, EndFits, run_bytes};
ghost use Rattle.type_rows.specs.Loads.{Spells, parts_up_to};
ghost use Rattle.type_rows.specs.Patches.{places_in};
ghost use Rattle.type_rows.specs.Places.{SpellsSome};
ghost use Rattle.type_rows.specs.Rows.{row_in};
ghost use Rattle.type_rows.specs.RunItems.{AreListsOf, HasRuns, IsOfSection, items_at};
ghost use Rattle.type_rows.specs.WellFormed.{IsReadable};
ghost use Rattle.type_rows.specs.WordsHeld.{value_bytes};
ghost use Rattle.type_state.specs.Counted.{Comes};
ghost use Rattle.type_state.specs.Differences.{AreApart};

use crate::differences::Differences;
use bit_array::total_width;
use bucket_codec::{BucketRows, buckets_for};
use hol_varint::Octets;
use list_codec::ListRows;
use object_codec::{EndOffset, Part, has_bytes, read_part};
use schema_model::{Field, FieldKind, MAX_BYTES, Shape};
use type_rows::{PatchSection, Totals};

/// How many variable bytes a part has; 0 for one of a fixed kind, and for null.
#[inline(always)]
fn run_length(part: Part) -> u64
    ensures { result ≡ run_bytes part }
{
    match part {
        Part::Run(start, end) => end.saturating_sub(start),
        _ => 0,
    }
}

/// How many variable bytes the value of a field has whose element begins at bit `at` of the words, in records of `size` bits, and which spells
/// one; the field has `bytes` bytes.
#[inline(always)]
fn value_length(kind: &FieldKind, first: &[u64], at: u64, width: u32, size: u64, bytes: u64) -> u64
    requires narrow { width ≤ 64 }
    requires wide { IsKindWidth kind.now width }
    requires inside { at + width ≤ 64 * length first.now }
    ensures { (place before : ℕ) (area : List ℕ) (value : Value) → at ≡ place * size + before → before + width ≤ size → bytes ≡ length area → SpellsValue kind.now (part_at first.now size place before width area) value → result ≡ value_bytes value }
{
    if !has_bytes(kind) {
        return 0;
    }
    match read_part(first, kind, at, width, size, bytes) {
        Ok(part) => run_length(part),
        Err(_) => 0,
    }
}

/// Whether the element of a field of this kind holds this end offset, where its values have variable bytes.
#[inline(always)]
pub(crate) fn holds_end(kind: &FieldKind, width: u32, end: u64) -> bool
    requires { width ≤ 64 }
    ensures { IsTrue result ↔ EndFits kind.now width end }
{
    !has_bytes(kind) || EndOffset::fits(end, width)
}

/// Adds the bytes of each field of the record of a place to the end offset of the field, and answers how many these bytes are; none where an
/// element does not hold its end offset.
fn add_record(
    fields: &[Field],
    widths: &[u32],
    first: &[u64],
    areas: &[Octets],
    place: u64,
    ends: &mut [u64],
) -> Option<u64>
    requires holds { HoldsPlace fields.now widths.now first.now areas.now place }
    requires long { length ends.old ≡ length fields.now }
    ensures { IfSome result (λ bytes. (values : List Value) → SpellsObject fields.now widths.now first.now areas.now place values → AddsRecord fields.now widths.now ends.old values ends.new bytes) }
{
    let size = total_width(widths) as u64;
    let mut at = place * size;
    let mut bytes: u64 = 0;
    for (index, field) in fields.iter().enumerate() {
        let width = widths[index];
        let area = areas[index].as_slice();
        let length = value_length(&field.kind, first, at, width, size, area.len() as u64);
        let end = ends[index].saturating_add(length);
        if !holds_end(&field.kind, width, end) {
            return None;
        }
        ends[index] = end;
        bytes = bytes.saturating_add(length);
        at += u64::from(width);
    }
    Some(bytes)
}

/// Adds the record of a place to totals. It tells whether the elements hold its end offsets and the bytes keep the limit.
fn add_object(totals: &mut Totals, shape: &Shape, patch: &PatchSection, place: u64) -> bool
    requires object { IsObject shape.now }
    requires holds { HoldsPlace (shape_fields shape.now) patch.now.widths patch.now.first patch.now.areas place }
    requires long { length totals.old.ends.offsets.items ≡ length (shape_fields shape.now) }
    ensures { IsTrue result → (row : StoredRow) → Spells shape.now (places_in patch.now) place row → Comes shape.now patch.now.widths row totals.old totals.new }
{
    let fields = shape.fields();
    let widths = patch.widths.as_slice();
    let first = patch.first.as_slice();
    let areas = patch.areas.as_slice();
    match add_record(
        fields,
        widths,
        first,
        areas,
        place,
        &mut totals.ends.offsets,
    ) {
        Some(bytes) => {
            totals.bytes = totals.bytes.saturating_add(bytes);
            totals.bytes <= MAX_BYTES
        }
        None => false,
    }
}

/// The lists of a patch.
fn list_rows(patch: &PatchSection) -> ListRows<'_>
    ensures { AreListsOf (places_in patch.now) result }
{
    ListRows {
        widths: patch.widths.as_slice(),
        total: patch.total,
        first: patch.first.as_slice(),
        second: patch.second.as_slice(),
    }
}

/// The sets or maps of a patch.
fn bucket_rows(patch: &PatchSection) -> BucketRows<'_>
    ensures { IsOfSection (places_in patch.now) result }
{
    BucketRows {
        widths: patch.widths.as_slice(),
        total: patch.total,
        first: patch.first.as_slice(),
        second: patch.second.as_slice(),
    }
}

/// The items of the row of a place: elements of a list, and the buckets that the writer makes for a set or map.
fn items_in(shape: &Shape, patch: &PatchSection, place: u64) -> u64
    requires readable { IsReadable shape.now (parts_up_to patch.now.widths patch.now.total patch.now.first patch.now.second patch.now.areas place) }
    requires spelled { SpellsSome shape.now (places_in patch.now) place }
    ensures { result ≡ items_at shape.now (places_in patch.now) place }
{
    match shape {
        Shape::Object(_, _) => 0,
        Shape::List(_) => list_rows(patch).length(place),
        _ => buckets_for(bucket_rows(patch).size(place) as u32),
    }
}

/// Whether a pointer of this width holds an end.
pub(crate) fn holds_items(width: u32, items: u128) -> bool
    requires { width ≤ 64 }
    ensures { IsTrue result → items < 2 ^ width }
{
    items < 1 << width
}

/// Adds the items of the list, set or map of a place to totals. It tells whether the pointers hold their end.
fn add_run(totals: &mut Totals, shape: &Shape, patch: &PatchSection, place: u64) -> bool
    requires runs { HasRuns shape.now }
    requires readable { IsReadable shape.now (parts_up_to patch.now.widths patch.now.total patch.now.first patch.now.second patch.now.areas place) }
    requires spelled { SpellsSome shape.now (places_in patch.now) place }
    ensures { IsTrue result → (row : StoredRow) → Spells shape.now (places_in patch.now) place row → Comes shape.now patch.now.widths row totals.old totals.new }
{
    let width = patch.widths.as_slice()[0];
    let items = items_in(shape, patch, place);
    let end = u128::from(totals.ends.items) + u128::from(items);
    if !holds_items(width, end) {
        return false;
    }
    totals.ends.items = end as u64;
    true
}

/// Adds the row of a place of a patch to totals. It tells whether each part of it fits its width behind the rows before, and the bytes keep the
/// limit: only its ends are tried.
pub(crate) fn add_row(totals: &mut Totals, differences: &Differences<'_, '_>, place: u64) -> bool
    requires apart { AreApart differences.now }
    requires inside { place < length differences.now.patch.now.added }
    requires long { length totals.old.ends.offsets.items ≡ length (shape_fields differences.now.schema.now.shape) }
    ensures { IsTrue result → Comes differences.now.schema.now.shape differences.now.patch.now.widths (row_in differences.now.schema.now.shape (places_in differences.now.patch.now) place) totals.old totals.new }
{
    let shape = &differences.schema.shape;
    match shape {
        Shape::Object(_, _) => add_object(totals, shape, differences.patch, place),
        _ => add_run(totals, shape, differences.patch, place),
    }
}
