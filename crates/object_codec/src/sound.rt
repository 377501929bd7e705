//! Whether the places of some ordinals all spell records, tried field by field.
ghost use Rattle.std.specs.Prelude.{ℕ, List, ◌≡◌, ◌↔◌, ◌+◌, ◌*◌, ◌^◌, ◌<◌, ◌≤◌, length, slice_index, IfErr, IfOk, IsTrue, MatchBool, MatchOption, OnOk};
ghost use Rattle.schema_model.specs.declared.schema.FieldKind.TheVariants.{Text};
ghost use Rattle.row_model.specs.declared.row.Value.{Value};
ghost use Rattle.object_codec.specs.Cell.{IsWithin};
ghost use Rattle.object_codec.specs.Part.{FieldPart, SpellsValue, FailsValue};
ghost use Rattle.object_codec.specs.ObjectPlace.{part_at, IsKindWidth, HoldsPlace, SpellsObject};
ghost use Rattle.object_codec.specs.Sound.{ArePlain, HavePlain, IsToldByParts, TellsColumn, IsFirstFault, SpellSome, parts_in};
ghost use Rattle.object_codec.specs.Texts.{AreReaches};

use crate::part::{Part, read_part};
use crate::spans::Spans;
use bit_array::total_width;
use hol_varint::Octets;
use schema_model::{Field, FieldKind, Reason};
use std::alloc::{AllocError, Global};

/// The first of these places that spells no record, and why; none where each spells one.
///
/// It goes field by field over the places before the fault that it knows. It takes memory only where spans of a STRING's bytes overlap, that are
/// not all below 128: a number for each 64 of the bytes; where all bytes are below 128 it cannot fail.
pub fn first_fault(
    alloc: Global,
    fields: &[Field],
    widths: &[u32],
    first: &[u64],
    areas: &[Octets],
    places: &[u32],
) -> Result<Option<(u32, Reason)>, AllocError>
    requires { (index : ℕ) → index < length places.now → HoldsPlace fields.now widths.now first.now areas.now (slice_index places.now index) }
    ensures tells { IfOk result (λ found. MatchOption found (SpellSome fields.now widths.now first.now areas.now places.now (length places.now)) (IsFirstFault fields.now widths.now first.now areas.now places.now)) }
    ensures plain { HavePlain areas.now → IfErr result (λ error. ⊥) }
{
    if places.is_empty() {
        return Ok(None);
    }
    first_by_field(alloc, fields, widths, first, areas, places)
}

/// The first of these places, of which there is one at least, that spells no record, and why; none where each spells one.
fn first_by_field(
    alloc: Global,
    fields: &[Field],
    widths: &[u32],
    first: &[u64],
    areas: &[Octets],
    places: &[u32],
) -> Result<Option<(u32, Reason)>, AllocError>
    requires some { 0 < length places.now }
    requires holds { (index : ℕ) → index < length places.now → HoldsPlace fields.now widths.now first.now areas.now (slice_index places.now index) }
    ensures tells { IfOk result (λ found. MatchOption found (SpellSome fields.now widths.now first.now areas.now places.now (length places.now)) (IsFirstFault fields.now widths.now first.now areas.now places.now)) }
    ensures plain { HavePlain areas.now → IfErr result (λ error. ⊥) }
{
    let size = total_width(widths) as u64;
    let mut before = 0;
    let mut left = places.len();
    let mut found = None;
    for (index, field) in fields.iter().enumerate() {
        let width = widths[index];
        let area = areas[index].as_slice();
        let some = &places[..left];
        if let Some((at, reason)) = first_in_field(
            alloc,
            &field.kind,
            first,
            before,
            width,
            size,
            area,
            some,
        )? {
            left = at;
            found = Some((places[at], reason));
        }
        before += u64::from(width);
    }
    Ok(found)
}

/// The first of these places at which a field has no value, by its index, and why.
fn first_in_field(
    alloc: Global,
    kind: &FieldKind,
    first: &[u64],
    before: u64,
    width: u32,
    size: u64,
    area: &[u8],
    places: &[u32],
) -> Result<Option<(usize, Reason)>, AllocError>
    requires wide { IsKindWidth kind.now width }
    requires within { (index : ℕ) → index < length places.now → IsWithin first.now size (slice_index places.now index) before width }
    ensures tells { IfOk result (TellsColumn kind.now (parts_in first.now size before width area.now) places.now) }
    ensures plain { ArePlain area.now → IfErr result (λ error. ⊥) }
{
    if is_free(kind, width) {
        return Ok(None);
    }
    if is_decoded(kind, area) {
        return first_bad_text(alloc, first, before, width, size, area, places);
    }
    Ok(first_bad_part(kind, first, before, width, size, area, places))
}

/// Whether each element of this width has a value in a field of this kind, as far as that is told by the width alone.
pub fn is_free(kind: &FieldKind, width: u32) -> bool
    ensures { IsTrue result → (part : FieldPart) → part.width ≡ width → part.element < 2 ^ part.width → (value : Value) × SpellsValue kind.now part value }
{
    match kind {
        FieldKind::Reference(_) => width <= 32,
        FieldKind::Int => width <= 32,
        FieldKind::Long => true,
        _ => false,
    }
}

/// Whether the bytes of a field are to be decoded: those of a STRING, where they are not all below 128.
fn is_decoded(kind: &FieldKind, area: &[u8]) -> bool
    ensures told { MatchBool result (kind.now ≡ Text) (IsToldByParts kind.now area.now) }
    ensures plain { ArePlain area.now → IsTrue result → ⊥ }
{
    match kind {
        FieldKind::Text => !is_plain(area),
        _ => false,
    }
}

/// Whether each byte is below 128: then each is a unit by itself, and any run of them the bytes of a STRING.
fn is_plain(bytes: &[u8]) -> bool
    ensures { IsTrue result ↔ ArePlain bytes.now }
{
    let mut greatest: u8 = 0;
    for byte in bytes {
        greatest = greatest.max(*byte);
    }
    greatest < 0x80
}

/// The first of these places at which a field has no value whose bytes are not decoded, by its index, and why.
fn first_bad_part(
    kind: &FieldKind,
    first: &[u64],
    before: u64,
    width: u32,
    size: u64,
    area: &[u8],
    places: &[u32],
) -> Option<(usize, Reason)>
    requires told { IsToldByParts kind.now area.now }
    requires wide { IsKindWidth kind.now width }
    requires within { (index : ℕ) → index < length places.now → IsWithin first.now size (slice_index places.now index) before width }
    ensures { TellsColumn kind.now (parts_in first.now size before width area.now) places.now result }
{
    for (index, place) in places.iter().enumerate() {
        let at = u64::from(*place) * size + before;
        if let Err(reason) = read_part(first, kind, at, width, size, area.len() as u64) {
            return Some((index, reason));
        }
    }
    None
}

/// The first of these places at which a STRING has no value, by its index, and why.
fn first_bad_text(
    alloc: Global,
    first: &[u64],
    before: u64,
    width: u32,
    size: u64,
    area: &[u8],
    places: &[u32],
) -> Result<Option<(usize, Reason)>, AllocError>
    requires wide { 1 ≤ width }
    requires within { (index : ℕ) → index < length places.now → IsWithin first.now size (slice_index places.now index) before width }
    ensures { IfOk result (TellsColumn Text (parts_in first.now size before width area.now) places.now) }
{
    let mut spans = Spans::new(alloc);
    for (index, place) in places.iter().enumerate() {
        let at = u64::from(*place) * size + before;
        if let Some(reason) = text_fault(alloc, &mut spans, first, at, width, size, area)? {
            return Ok(Some((index, reason)));
        }
    }
    Ok(None)
}

/// Why a STRING has no value whose element begins at a bit of the words; none where it has one.
fn text_fault(
    alloc: Global,
    spans: &mut Spans,
    first: &[u64],
    at: u64,
    width: u32,
    size: u64,
    area: &[u8],
) -> Result<Option<Reason>, AllocError>
    requires narrow { width ≤ 64 }
    requires wide { 1 ≤ width }
    requires inside { at + width ≤ 64 * length first.now }
    requires reaches { AreReaches area.now spans.old.reaches.items }
    ensures tells { IfOk result (λ found. (place before : ℕ) → at ≡ place * size + before → before + width ≤ size → MatchOption found ((value : Value) × SpellsValue Text (part_at first.now size place before width area.now) value) (FailsValue Text (part_at first.now size place before width area.now))) }
    ensures reaches { OnOk result (AreReaches area.now spans.new.reaches.items) }
{
    let part = match read_part(first, &FieldKind::Text, at, width, size, area.len() as u64) {
        Ok(part) => part,
        Err(reason) => return Ok(Some(reason)),
    };
    let Part::Run(start, end) = part else {
        return Ok(None);
    };
    if spans.are_units(alloc, area, start as usize, end as usize)? {
        return Ok(None);
    }
    Ok(Some(Reason::BadText))
}
