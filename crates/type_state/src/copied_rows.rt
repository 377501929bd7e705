//! The rows of a section, copied as they stand into the words of a half.
ghost use Rattle.std.specs.Prelude.{◌≡◌, ◌↔◌, ◌*◌, ◌^◌, ◌<◌, ◌≤◌, ℕ, List, IsTrue, length, map, replicate};
ghost use Rattle.packed_half.specs.Half.{item_words, layout_in, place_words, words_for};
ghost use Rattle.packed_half.specs.LaidOut.{IsLaidOut};
ghost use Rattle.packed_half.specs.Laying.{CanLay};
ghost use Rattle.row_model.specs.Table.{RowMap};
ghost use Rattle.type_rows.specs.Loads.{Loads, layout_of};
ghost use Rattle.type_rows.specs.WellFormed.{IsReadable};
ghost use Rattle.type_state.specs.SectionRows.{StandAlike};

use crate::tight::is_tight;
use bit_array::copy_bits;
use hol_varint::Octets;
use packed_half::{HalfShape, put_areas};
use schema_model::Shape;
use type_rows::{Section, fixed_words, words_needed};

/// Whether two rows of widths are the same.
pub(crate) fn are_same(widths: &[u32], others: &[u32]) -> bool
    ensures { IsTrue result ↔ (widths.now ≡ others.now) }
{
    widths == others
}

/// Whether a half has the layout of a section.
fn has_layout(half: &HalfShape, section: &Section) -> bool
    ensures { IsTrue result → layout_in half.now ≡ layout_of section.now }
{
    half.max == section.max && are_same(half.widths.as_slice(), section.widths.as_slice())
}

/// Whether fields have so many bytes.
fn have_lengths(areas: &[Octets], lengths: &[u64]) -> bool
    ensures { IsTrue result → map (λ (area : List ℕ). length area) areas.now ≡ lengths.now }
{
    if areas.len() != lengths.len() {
        return false;
    }
    for field in 0..areas.len() {
        if areas[field].len() as u64 != lengths[field] {
            return false;
        }
    }
    true
}

/// Whether a section has as many words as the places of a half take, and no fewer than its items take.
fn has_words(shape: &Shape, section: &Section, half: &HalfShape) -> bool
    ensures first { IsTrue result → length section.now.first ≡ place_words shape.now half.now }
    ensures second { IsTrue result → item_words shape.now half.now ≤ length section.now.second }
{
    let widths = half.widths.as_slice();
    section.first.len() as u128 == words_needed(shape, half.max, widths)
        && section.second.len() as u128 >= fixed_words(shape, None, widths, half.total)
}

/// Whether the rows of a section stand in a half as they stand in the section.
pub(crate) fn stand_alike(shape: &Shape, section: &Section, half: &HalfShape) -> bool
    requires { IsReadable shape.now section.now }
    ensures { IsTrue result → StandAlike shape.now section.now half.now }
{
    has_layout(half, section)
        && half.total <= section.total
        && has_words(shape, section, half)
        && have_lengths(section.areas.as_slice(), half.lengths.as_slice())
        && is_tight(shape, section, half.total)
}

/// Lays out the rows of a section, as they stand there, in the words of a half.
pub(crate) fn copy_rows(shape: &Shape, section: &Section, half: &HalfShape, words: &mut [u64])
    requires alike { StandAlike shape.now section.now half.now }
    requires loads { (rows : RowMap) × Loads shape.now section.now rows × CanLay shape.now half.now rows }
    requires zeros { words.old ≡ replicate (words_for shape.now half.now) 0 }
    ensures { (rows : RowMap) → Loads shape.now section.now rows → IsLaidOut shape.now half.now words.new rows }
{
    let widths = half.widths.as_slice();
    let places = words_needed(shape, half.max, widths) as usize;
    let items = fixed_words(shape, None, widths, half.total) as usize;
    let (first, behind) = words.split_at_mut(places);
    let (second, bytes) = behind.split_at_mut(items);
    first.copy_from_slice(section.first.as_slice());
    copy_bits(section.second.as_slice(), 0, second, 0, 64 * items as u64);
    put_areas(bytes, section.areas.as_slice());
}
