//! Records of OBJECT types without STRING and BYTES that are copied as they stand, and written and cleared where they differ.
ghost use Rattle.std.specs.Prelude.{◌≡◌, ◌*◌, ◌^◌, ◌<◌, ℕ, IsTrue, length, map, sum};
ghost use Rattle.row_model.specs.Table.{RowMap};
ghost use Rattle.schema_model.specs.Parts.{shape_fields};
ghost use Rattle.packed_half.specs.LaidOut.{IsLaidOut};
ghost use Rattle.packed_half.specs.Laying.{CanLay};
ghost use Rattle.object_codec.specs.ObjectPlace.{IsObject};
ghost use Rattle.record_copies.specs.Fixed.{AreFixed, HasFront, whole_words};
ghost use Rattle.type_rows.specs.Patches.{places_in};
ghost use Rattle.type_rows.specs.Rows.{row_in};
ghost use Rattle.type_rows.specs.Layout.{places_of};
ghost use Rattle.type_state.specs.Differences.{AreApart, added_of, differing, removal, rows_with};
ghost use Rattle.type_state.specs.Kept.{IsPacked, half_rows};
ghost use Rattle.type_state.specs.Moved.{IsOfPatch};
ghost use Rattle.type_state.specs.Recorded.{AreRecorded, CanCopy, HasPlaces, IsStored, copied_words, kept_words};

use crate::differences::Differences;
use crate::moving::Move;
use bit_array::{copy_bits, total_width};
use packed_half::{HalfRows, HalfShape};
use record_copies::{clear_record, copy_rest, is_fixed, whole_words};
use schema_model::{Schema, Shape};
use type_rows::{place_count, words_needed};

/// Clears the place of each of some ordinals; one without a place is passed over.
fn clear_records(shape: &Shape, widths: &[u32], first: &mut [u64], places: u64, removed: &[u64])
    requires { HasPlaces shape.now widths.now first.old places }
    ensures { (rows : RowMap) → AreRecorded shape.now widths.now first.old places rows → AreRecorded shape.now widths.now first.new places (differing rows (map removal removed.now)) }
{
    for ordinal in removed {
        if *ordinal < places {
            clear_record(widths, first, *ordinal);
        }
    }
}

/// Copies the records of a patch to the places of the ordinals that it adds, at the same widths. An ordinal without a place is passed
/// over.
fn bring_records(differences: &Differences<'_, '_>, widths: &[u32], first: &mut [u64], places: u64)
    requires apart { AreApart differences.now }
    requires widths { widths.now ≡ differences.now.patch.now.widths }
    requires stored { (place : ℕ) → place < length differences.now.patch.now.added → IsStored (row_in differences.now.schema.now.shape (places_in differences.now.patch.now) place) }
    requires held { HasPlaces differences.now.schema.now.shape widths.now first.old places }
    ensures { (rows : RowMap) → AreRecorded differences.now.schema.now.shape widths.now first.old places rows → AreRecorded differences.now.schema.now.shape widths.now first.new places (differing rows (added_of differences.now)) }
{
    let size = total_width(widths) as u64;
    let from = differences.patch.first.as_slice();
    for (place, ordinal) in differences.patch.added.as_slice().iter().enumerate() {
        if *ordinal < places {
            copy_bits(from, place as u64 * size, first, *ordinal * size, size);
        }
    }
}

/// How many words are copied from a half to another one, at its widths: those that the records of both fill.
pub(crate) fn kept_words(before: &HalfShape, after: &HalfShape) -> u64
    requires { places_of before.now.max * sum after.now.widths < 2 ^ 64 }
    ensures { result ≡ kept_words before.now after.now }
{
    whole_words(
        after.widths.as_slice(),
        place_count(before.max),
        place_count(after.max),
    )
}

/// Copies what the records of a half have behind their whole words, which stand before as many places already.
fn copy_places(current: HalfRows<'_>, widths: &[u32], first: &mut [u64], places: u64)
    requires kept { IsPacked current.shape.now current.half.now current.words.now }
    requires widths { widths.now ≡ current.half.now.widths }
    requires held { HasPlaces current.shape.now widths.now first.old places }
    requires front { HasFront (whole_words widths.now (places_of current.half.now.max) places) current.words.now first.old }
    ensures { AreRecorded current.entry.shape.now widths.now first.new places (half_rows current.entry.shape.now current.entry.half.now current.entry.words.now) }
{
    copy_rest(
        widths,
        current.places(),
        place_count(current.half.max),
        first,
        places,
    );
}

/// Whether the records of a half may be copied as they stand to another one, where they are changed in place.
pub(crate) fn can_copy(shape: &Shape, before: &HalfShape, after: &HalfShape) -> bool
    ensures { IsTrue result → CanCopy shape.now before.now after.now }
{
    let Shape::Object(_, fields) = shape else {
        return false;
    };
    before.max.is_some()
        && is_fixed(fields.as_slice())
        && before.widths.as_slice() == after.widths.as_slice()
}

/// Lays the rows of a move out in the words of its half, at the widths of the current half, whose words stand there already, as many as the records of
/// both fill, with zeros behind them. It takes no memory.
pub(crate) fn lay_fixed(
    schema: &Schema,
    current: HalfRows<'_>,
    next: &Move<'_, '_>,
    words: &mut [u64],
)
    requires kept { IsPacked schema.now.shape current.half.now current.words.now }
    requires object { IsObject schema.now.shape }
    requires fixed { AreFixed (shape_fields schema.now.shape) }
    requires widths { next.now.half.widths ≡ current.half.now.widths }
    requires of { IsOfPatch schema.now.shape next.now }
    requires apart { AreApart next.now.differences }
    requires can { CanLay schema.now.shape next.now.half (rows_with (half_rows schema.now.shape current.half.now current.words.now) next.now.differences) }
    requires front { words.old ≡ copied_words schema.now.shape current.half.now next.now.half current.words.now }
    ensures { IsLaidOut schema.now.shape next.now.half words.new (rows_with (half_rows schema.now.shape current.entry.half.now current.entry.words.now) next.now.differences) }
{
    let half = &next.half;
    let widths = half.widths.as_slice();
    let places = place_count(half.max);
    let (first, _) = words.split_at_mut(words_needed(&schema.shape, half.max, widths) as usize);
    let standing = HalfRows {
        shape: &schema.shape,
        half: current.half,
        words: current.words,
    };
    copy_places(standing, widths, first, places);
    let removed = next.differences.patch.removed.as_slice();
    clear_records(&schema.shape, widths, first, places, removed);
    bring_records(&next.differences, widths, first, places);
}
