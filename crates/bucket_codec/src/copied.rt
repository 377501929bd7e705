//! Runs of buckets, copied as they stand.
ghost use Rattle.std.specs.Prelude.{◌≡◌, ◌+◌, ◌-◌, ◌*◌, ◌^◌, ◌<◌, ◌≤◌, All, Some, length};
ghost use Rattle.row_model.specs.declared.row.Row.{Row};
ghost use Rattle.bucket_codec.specs.BucketPlace.{pointer_width, place_width, bucket_width, start_at, end_at, HoldsPointers};
ghost use Rattle.bucket_codec.specs.Buckets.{run_of};
ghost use Rattle.bucket_codec.specs.Filled.{KeepsFront, KeepsBack, IsCopied};
ghost use Rattle.bucket_codec.specs.Packed.{HoldsRow, IsRunOf, PacksPairs};
ghost use Rattle.bucket_codec.specs.Run.{HoldsRun, taken_of};

use crate::buckets::Buckets;
use crate::place::{map_value_width, put_pointers};
use crate::run::Run;
use bit_array::{all_ones, copy_bits};

impl Run {
    /// Writes the buckets of another run, which are as many, whatever their widths are.
    #[inline(always)]
    fn fill_from(self, words: &mut [u64], from: Buckets<'_>)
        requires held { HoldsRun words.old self.key_width self.value_width self.start self.size }
        requires long { from.len ≡ self.size }
        requires keys { All (λ pair. pair.0 < 2 ^ self.key_width - 1) (taken_of (run_of from)) }
        requires values { All (λ pair. pair.1 < 2 ^ self.value_width) (taken_of (run_of from)) }
        ensures { IsCopied words.old words.new self.key_width self.value_width self.start self.size (run_of from.entry) }
    {
        if self.key_width == from.key_width && self.value_width == from.value_width {
            self.copy_whole(words, from);
        } else {
            self.copy_each(words, from);
        }
    }

    /// Copies the bits of another run of the same size and widths.
    fn copy_whole(self, words: &mut [u64], from: Buckets<'_>)
        requires held { HoldsRun words.old self.key_width self.value_width self.start self.size }
        requires long { from.len ≡ self.size }
        requires key_width { from.key_width ≡ self.key_width }
        requires value_width { from.value_width ≡ self.value_width }
        ensures { IsCopied words.old words.new self.key_width self.value_width self.start self.size (run_of from.entry) }
    {
        let width = u64::from(self.key_width + self.value_width);
        copy_bits(
            from.words,
            from.start * width,
            words,
            self.start * width,
            self.size * width,
        );
    }

    /// Copies the buckets of another run of the same size one by one. One that is empty is all ones in the key, and has the value 0.
    fn copy_each(self, words: &mut [u64], from: Buckets<'_>)
        requires held { HoldsRun words.old self.key_width self.value_width self.start self.size }
        requires long { from.len ≡ self.size }
        requires keys { All (λ pair. pair.0 < 2 ^ self.key_width - 1) (taken_of (run_of from)) }
        requires values { All (λ pair. pair.1 < 2 ^ self.value_width) (taken_of (run_of from)) }
        ensures { IsCopied words.old words.new self.key_width self.value_width self.start self.size (run_of from.entry) }
    {
        let empty = all_ones(self.key_width);
        for index in 0..self.size {
            match from.wide_bucket(index) {
                Some((key, value)) => self.put(words, index, key, value),
                None => self.put(words, index, empty, 0),
            }
        }
    }
}

/// Writes a set or map of so many elements or pairs at a place, its buckets from a start on, and answers where they end: the buckets of a run that
/// spells it, in as many as it takes, whose widths may be others.
///
/// Only the bits of this place and of this run change. No memory is taken.
#[inline(always)]
pub fn copy_buckets(
    run: Buckets<'_>,
    size: u64,
    widths: &[u32],
    first: &mut [u64],
    second: &mut [u64],
    place: u64,
    start: u64,
) -> u64
    requires three { 3 ≤ length widths.now }
    requires holds { HoldsPointers widths.now first.old place }
    requires row { (row : Row) × IsRunOf (run_of run) size row × HoldsRow widths.now row }
    requires start { start_at widths.now first.old place ≡ start }
    requires pointer { start + run.len < 2 ^ pointer_width widths.now }
    requires inside { (start + run.len) * bucket_width widths.now ≤ 64 * length second.old }
    requires bits { 64 * length second.old < 2 ^ 64 }
    ensures end { result ≡ start + run.entry.len }
    ensures pointer { end_at widths.now first.new place ≡ result }
    ensures packed { (row : Row) → IsRunOf (run_of run.entry) size row → PacksPairs widths.now result first.new second.new place (Some row) }
    ensures first { KeepsFront first.old first.new (place * place_width widths.now) }
    ensures second { KeepsFront second.old second.new (start * bucket_width widths.now) }
    ensures first_back { KeepsBack first.old first.new ((place + 1) * place_width widths.now) }
    ensures second_back { KeepsBack second.old second.new (result * bucket_width widths.now) }
{
    let copy = Run {
        key_width: widths[2],
        value_width: map_value_width(widths),
        start,
        size: run.len,
    };
    copy.fill_from(second, run);
    let end = start + run.len;
    put_pointers(widths, first, place, end, size);
    end
}
