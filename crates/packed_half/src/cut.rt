//! The words of a half, cut once into those of its places, of its elements or buckets, and of its bytes.
ghost use Rattle.std.specs.Prelude.{◌≡◌, take, drop};
ghost use Rattle.packed_half.specs.Half.{place_words, item_words, areas_in, behind_places, behind_items};

use crate::HalfRows;
use crate::bytes::byte_at;
use crate::half::{byte_words, item_words, place_words};
use row_model::Parts;

/// The parts of a half, as the codecs read them.
#[derive(Clone, Copy)]
pub(crate) struct CutWords<'a> {
    pub(crate) first: &'a [u64],
    pub(crate) second: &'a [u64],
    pub(crate) bytes: &'a [u64],
    pub(crate) lengths: &'a [u64],
}

impl<'a> HalfRows<'a> {
    /// The parts: the words of the places, those of the elements or buckets, those of the bytes, and how many bytes each field has.
    pub(crate) fn cut(&self) -> CutWords<'a>
        ensures first { result.first.now ≡ take (place_words self.now.shape.now self.now.half.now) self.now.words.now }
        ensures second { result.second.now ≡ take (item_words self.now.shape.now self.now.half.now) (behind_places self.now.shape.now self.now.half.now self.now.words.now) }
        ensures bytes { result.bytes.now ≡ behind_items self.now.shape.now self.now.half.now self.now.words.now }
        ensures lengths { result.lengths.now ≡ self.now.half.now.lengths }
    {
        let places = place_words(self.shape, self.half);
        let items = item_words(self.shape, self.half);
        let rest = behind(self.words, places);
        CutWords {
            first: front(self.words, places),
            second: front(rest, items),
            bytes: behind(rest, items),
            lengths: self.half.lengths.as_slice(),
        }
    }
}

/// The first words, or all where they are fewer.
#[inline(always)]
fn front(words: &[u64], count: u128) -> &[u64]
    ensures { result.now ≡ take count words.now }
{
    let count = count.min(words.len() as u128) as usize;
    &words[..count]
}

/// The words behind the first ones, none where they are fewer.
#[inline(always)]
fn behind(words: &[u64], count: u128) -> &[u64]
    ensures { result.now ≡ drop count words.now }
{
    let count = count.min(words.len() as u128) as usize;
    &words[count..]
}

impl Parts for CutWords<'_> {
    ghost use Rattle.packed_half.specs.Half.{areas_in};

    ghost first_words = { λ cut. cut.first.now };

    ghost second_words = { λ cut. cut.second.now };

    ghost area_bytes = { λ cut. areas_in cut.bytes.now cut.lengths.now };

    fn first(&self) -> &[u64] {
        self.first
    }

    fn second(&self) -> &[u64] {
        self.second
    }

    fn area(&self, field: u32) -> u64 {
        let field = field as usize;
        if field < self.lengths.len() {
            self.lengths[field]
        } else {
            0
        }
    }

    fn byte(&self, field: u32, at: u64) -> u8 {
        let before = byte_words(&self.lengths[..field as usize]);
        byte_at(behind(self.bytes, before), at)
    }
}
