//! The part of one field, copied into an element of another width and behind other bytes.
ghost use Rattle.std.specs.Prelude.{◌≡◌, ◌+◌, ◌-◌, ◌^◌, ◌<◌, ◌≤◌, length, IfOk, Some};
ghost use Rattle.row_model.specs.Areas.{area_of};
ghost use Rattle.row_model.specs.declared.row.Value.{Value};
ghost use Rattle.object_codec.specs.Cell.{IsWithin};
ghost use Rattle.object_codec.specs.Encoded.{IsTaken};
ghost use Rattle.object_codec.specs.ObjectPlace.{IsKindWidth, part_at};
ghost use Rattle.object_codec.specs.Part.{IsSpan, end_of};
ghost use Rattle.record_copies.specs.Parts.{HasRoomFor, IsRunTaken, widened};

use crate::cell::Cell;
use crate::source::RecordSource;
use bit_array::all_ones;
use hol_varint::Octets;
use object_codec::EndOffset;
use schema_model::FieldKind;
use std::alloc::{AllocError, Global};

/// Adds the bytes of a field's part to others, and answers the element of the width that holds its value behind them.
#[inline(always)]
pub(crate) fn take_part<S: RecordSource>(
    alloc: Global,
    kind: &FieldKind,
    from: &S,
    cell: Cell,
    width: u32,
    area: &mut Octets,
) -> Result<u64, AllocError>
    requires narrow { width ≤ 64 }
    requires wide { IsKindWidth kind.now width }
    requires wide_there { IsKindWidth kind.now cell.width }
    requires within { IsWithin (S.record_words from.now) cell.size cell.place cell.before cell.width }
    requires room { (value : Value) × HasRoomFor kind.now (part_at (S.record_words from.now) cell.size cell.place cell.before cell.width (area_of (S.field_bytes from.now) cell.field)) width area.old value }
    ensures { IfOk result (λ element. (value : Value) → HasRoomFor kind.now (part_at (S.record_words from.now) cell.size cell.place cell.before cell.width (area_of (S.field_bytes from.now) cell.field)) width area.old value
        → IsTaken kind.now width element area.old area.new (Some value)) }
{
    match kind {
        FieldKind::Text => take_run(alloc, from, cell, width, area),
        FieldKind::Bytes => take_run(alloc, from, cell, width, area),
        _ => Ok(number(cell.width, width, cell.element(from.words()))),
    }
}

/// Adds the bytes of a STRING or BYTES to others, and answers the element of the width: where they end then, with the null bit for a null.
fn take_run<S: RecordSource>(
    alloc: Global,
    from: &S,
    cell: Cell,
    width: u32,
    area: &mut Octets,
) -> Result<u64, AllocError>
    requires some { 1 ≤ width }
    requires narrow { width ≤ 64 }
    requires some_there { 1 ≤ cell.width }
    requires within { IsWithin (S.record_words from.now) cell.size cell.place cell.before cell.width }
    requires span { IsSpan (part_at (S.record_words from.now) cell.size cell.place cell.before cell.width (area_of (S.field_bytes from.now) cell.field)) }
    requires end { length area.old + (end_of (part_at (S.record_words from.now) cell.size cell.place cell.before cell.width (area_of (S.field_bytes from.now) cell.field))
        - (part_at (S.record_words from.now) cell.size cell.place cell.before cell.width (area_of (S.field_bytes from.now) cell.field)).start) < 2 ^ (width - 1) }
    ensures { IfOk result (λ element. IsRunTaken (part_at (S.record_words from.now) cell.size cell.place cell.before cell.width (area_of (S.field_bytes from.now) cell.field)) width element area.old area.new) }
{
    let there = EndOffset::of(cell.element(from.words()), cell.width);
    let start = cell.start(from.words());
    from.push_run(alloc, cell.field, start, there.end, area)?;
    let moved = EndOffset {
        end: area.len() as u64,
        ..there
    };
    Ok(moved.element(width))
}

/// The element of a number in another width: all ones, which is null, stays all ones.
#[inline(always)]
fn number(width_there: u32, width: u32, element: u64) -> u64
    requires narrow_there { width_there ≤ 64 }
    requires narrow { width ≤ 64 }
    ensures { result ≡ widened width_there width element }
{
    if element == all_ones(width_there) {
        return all_ones(width);
    }
    element
}
