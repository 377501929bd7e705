//! Bytes that stand in words, eight in each, the first one lowest.
ghost use Rattle.std.specs.Prelude.{◌*◌, ◌+◌, ◌^◌, ◌<◌, ◌≤◌, length};

use std::alloc::AllocError;

/// Bytes that stand in words, eight in each, the first one lowest.
#[derive(Clone, Copy)]
pub struct PackedBytes<'a> {
    /// The words in which they stand, maybe beside others.
    pub words: &'a [u64],
    /// How many bytes of the words stand before these.
    pub start: u64,
    /// How many bytes these are.
    pub len: u64,
    ghost inside: { 8 * (start + len) ≤ 64 * length words.now },
    ghost counted: { 8 * (start + len) < 2 ^ 64 },
}

impl<'a> PackedBytes<'a> {
    ghost use Rattle.std.specs.Prelude.{◌≡◌, ◌-◌, ◌++◌, take, drop, slice_index, OnOk};
    ghost use Rattle.object_codec.specs.Bytes.{bytes_of};

    /// The byte at a place.
    #[inline(always)]
    pub fn byte(self, at: u64) -> u8
        requires { at < self.len }
        ensures { result ≡ slice_index (bytes_of self.entry) at }
    {
        bit_array::element(self.words, (self.start + at) * 8, 8) as u8
    }

    /// Those from one place up to another, still where they stand.
    #[inline(always)]
    pub fn between(self, start: u64, end: u64) -> PackedBytes<'a>
        requires rises { start ≤ end }
        requires within { end ≤ self.len }
        ensures { bytes_of result ≡ take (end - start) (drop start (bytes_of self.entry)) }
    {
        PackedBytes {
            words: self.words,
            start: self.start + start,
            len: end - start,
        }
    }

    /// Writes them at the end. Where memory is refused some of them may be there.
    pub fn put(self, out: &mut Vec<u8>) -> Result<(), AllocError>
        ensures { OnOk result (out.new.items ≡ out.old.items ++ bytes_of self.entry) }
    {
        for at in 0..self.len {
            out.push(self.byte(at))?;
        }
        Ok(())
    }
}
