//! The elements of a STRING or BYTES in a run of records.
ghost use Rattle.std.specs.Prelude.{◌≡◌, ◌+◌, ◌-◌, ◌*◌, ◌^◌, ◌<◌, ◌≤◌, length};
ghost use Rattle.record_copies.specs.Column.{CanShift, IsShifted, Lies, start_in};

use crate::run::Run;
use bit_array::{element, set_element};
use object_codec::EndOffset;

/// Where the elements of a field stand: in records of a size, behind the bits of the fields before it.
#[derive(Clone, Copy)]
pub(crate) struct Column {
    /// The width of a record, in bits.
    pub(crate) size: u64,
    /// The widths of the fields before this one, in bits.
    pub(crate) before: u64,
    /// The width of the element, in bits.
    pub(crate) width: u32,
}

impl Column {
    /// Where the bytes of a place start: at the end offset of the place before, without its null bit, and at 0 for place 0.
    pub(crate) fn start(self, words: &[u64], place: u64) -> u64
        requires narrow { self.width ≤ 64 }
        requires some { 1 ≤ self.width }
        requires record_holds { self.before + self.width ≤ self.size }
        requires words_hold { place * self.size ≤ 64 * length words.now }
        requires fits { place * self.size < 2 ^ 64 }
        ensures { result ≡ start_in self words.now place }
    {
        if place == 0 {
            return 0;
        }
        let at = (place - 1) * self.size + self.before;
        EndOffset::of(element(words, at, self.width), self.width).end
    }

    /// Makes each element of a run less by one number and greater by another.
    pub(crate) fn shift(self, words: &mut [u64], run: Run, less: u64, more: u64)
        requires lies { Lies self words.old run }
        requires can { CanShift self words.old run less more }
        ensures { IsShifted self words.old words.new run less more }
    {
        for place in run.place..run.end {
            let at = place * self.size + self.before;
            let end = element(words, at, self.width);
            set_element(words, at, self.width, end - less + more);
        }
    }
}
