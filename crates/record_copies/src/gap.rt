//! Whether a place is as where there is no row.
ghost use Rattle.std.specs.Prelude.{ℕ, List, ◌≡◌, ◌+◌, ◌*◌, ◌^◌, ◌<◌, ◌≤◌, IsTrue, length};
ghost use Rattle.std.specs.List.{AllZip};
ghost use Rattle.bit_array.specs.Element.{element_of};
ghost use Rattle.object_codec.specs.Cell.{IsWithin};
ghost use Rattle.object_codec.specs.ObjectPlace.{HoldsPlace, IsKindWidth, part_at, parts_of};
ghost use Rattle.object_codec.specs.Packing.{IsGap};

use crate::cell::Cell;
use bit_array::{element, total_width};
use schema_model::{Field, FieldKind};

/// Whether a place is as where there is no row: it has no bit, but that each STRING and BYTES has the offset of the place before. It takes no memory.
pub fn is_gap(fields: &[Field], widths: &[u32], first: &[u64], place: u64) -> bool
    requires { (areas : List (List ℕ)) × HoldsPlace fields.now widths.now first.now areas place }
    ensures { IsTrue result → (areas : List (List ℕ)) → length areas ≡ length fields.now → AllZip (λ field part. IsGap field.kind part) fields.now (parts_of widths.now first.now areas place) }
{
    let size = total_width(widths) as u64;
    let mut before = 0;
    for (index, field) in fields.iter().enumerate() {
        let cell = Cell {
            place,
            size,
            before,
            width: widths[index],
            field: index as u32,
        };
        if !is_gap_at(&field.kind, cell, first) {
            return false;
        }
        before += u64::from(cell.width);
    }
    true
}

/// Whether the element of a field is as where there is no row: 0, and of a STRING or BYTES the offset of the place before.
#[inline(always)]
fn is_gap_at(kind: &FieldKind, cell: Cell, first: &[u64]) -> bool
    requires wide { IsKindWidth kind.now cell.width }
    requires within { IsWithin first.now cell.size cell.place cell.before cell.width }
    ensures { IsTrue result → (area : List ℕ) → IsGap kind.now (part_at first.now cell.size cell.place cell.before cell.width area) }
{
    let element = cell.element(first);
    match kind {
        FieldKind::Text => element == cell.start(first),
        FieldKind::Bytes => element == cell.start(first),
        _ => element == 0,
    }
}

/// Whether so many bits, from a bit on, are zero. It takes no memory.
pub fn are_clear(first: &[u64], start: u64, size: u64) -> bool
    requires inside { start + size ≤ 64 * length first.now }
    requires counted { start + size < 2 ^ 64 }
    ensures { IsTrue result → element_of first.now start size ≡ 0 }
{
    let mut done = 0;
    while done < size {
        let width = (size - done).min(64);
        if element(first, start + done, width as u32) != 0 {
            return false;
        }
        done += width;
    }
    true
}
