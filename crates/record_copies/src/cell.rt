//! Where the element of a field stands in the words that are copied from.
ghost use Rattle.std.specs.Prelude.{◌≡◌, ◌+◌, ◌-◌, ◌*◌, ◌^◌, ◌<◌, ◌≤◌};
ghost use Rattle.object_codec.specs.Cell.{IsWithin};
ghost use Rattle.object_codec.specs.ObjectPlace.{element_at, start_at};

use crate::column::Column;
use bit_array::element;

/// Where the element of a field stands: at a place, in records of a size, behind the bits of the fields before it.
#[derive(Clone, Copy)]
pub(crate) struct Cell {
    /// The place of the record.
    pub(crate) place: u64,
    /// The width of a record, in bits.
    pub(crate) size: u64,
    /// The widths of the fields before this one, in bits.
    pub(crate) before: u64,
    /// The width of the element, in bits.
    pub(crate) width: u32,
    /// The index of the field.
    pub(crate) field: u32,
}

impl Cell {
    /// The element that stands there in these words.
    #[tactic(auto, using(object_codec::proofs::FieldWidths::element_below))]
    #[inline(always)]
    pub(crate) fn element(self, words: &[u64]) -> u64
        requires { IsWithin words.now self.size self.place self.before self.width }
        ensures is { result ≡ element_at words.now self.size self.before self.width self.place }
        ensures below { result < 2 ^ self.width }
    {
        element(words, self.place * self.size + self.before, self.width)
    }

    /// Where the bytes of a STRING or BYTES start: at the end offset of the place before, without its null bit, and at 0 for place 0.
    #[inline(always)]
    pub(crate) fn start(self, words: &[u64]) -> u64
        requires wide { 1 ≤ self.width }
        requires within { IsWithin words.now self.size self.place self.before self.width }
        ensures { result ≡ start_at words.now self.size self.before self.width self.place }
    {
        let column = Column {
            size: self.size,
            before: self.before,
            width: self.width,
        };
        column.start(words, self.place)
    }
}
