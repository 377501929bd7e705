//! What a codec reads: the packed words and bytes of a type, wherever they stand.
ghost use Rattle.std.specs.Prelude.{List, ℕ, ◌≡◌, ◌<◌, length, slice_index};
ghost use Rattle.row_model.specs.Areas.{area_of};

use crate::{Areas, Packed};

/// The packed words and bytes of one type, wherever they stand.
pub trait Parts {
    /// The words of the records of an OBJECT, else those of the pointers.
    ghost first_words: { Self → List ℕ };

    /// The words of the elements or buckets.
    ghost second_words: { Self → List ℕ };

    /// The variable bytes of each field.
    ghost area_bytes: { Self → List (List ℕ) };

    /// The words of the records of an OBJECT, else those of the pointers.
    fn first(&self) -> &[u64]
        ensures { result.now ≡ first_words self.now };

    /// The words of the elements or buckets; none for an OBJECT.
    fn second(&self) -> &[u64]
        ensures { result.now ≡ second_words self.now };

    /// How many bytes a field's area has; none where the field has no area.
    fn area(&self, field: u32) -> u64
        ensures { result ≡ length (area_of (area_bytes self.now) field) };

    /// A byte of a field's area.
    fn byte(&self, field: u32, at: u64) -> u8
        requires { at < length (area_of (area_bytes self.now) field) }
        ensures { result ≡ slice_index (area_of (area_bytes self.now) field) at };
}

/// How many bytes a field's area has; none where the field has no area.
pub fn area_size(areas: &Areas, field: u32) -> u64
    ensures { result ≡ length (area_of areas.now field) }
{
    match areas.as_slice().get(field as usize) {
        Some(area) => area.len() as u64,
        None => 0,
    }
}

/// A byte of a field's area.
pub fn area_byte(areas: &Areas, field: u32, at: u64) -> u8
    requires { at < length (area_of areas.now field) }
    ensures { result ≡ slice_index (area_of areas.now field) at }
{
    let area = areas.get(field as usize);
    *area.get(at as usize)
}

impl Parts for Packed {
    ghost first_words = { λ packed. packed.first };

    ghost second_words = { λ packed. packed.second };

    ghost area_bytes = { λ packed. packed.areas };

    fn first(&self) -> &[u64] {
        self.first.as_slice()
    }

    fn second(&self) -> &[u64] {
        self.second.as_slice()
    }

    fn area(&self, field: u32) -> u64 {
        area_size(&self.areas, field)
    }

    fn byte(&self, field: u32, at: u64) -> u8 {
        area_byte(&self.areas, field, at)
    }
}
