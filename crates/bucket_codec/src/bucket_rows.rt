//! The sets or maps of a type where they stand packed, place by place.
use crate::buckets::Buckets;
use crate::place::{map_value_width, place_bits};
use bit_array::element;

/// The sets or maps of a type where they stand packed: a pointer and a size for each place, and the buckets that the pointers bound.
///
/// Pointer `k` is the end of the run of place `k`, in buckets, and its start is pointer `k - 1`, or 0.
#[derive(Clone, Copy)]
pub struct BucketRows<'a> {
    /// The widths of the type in bits: of a pointer, of a size, of an element or key, and of a map's value.
    pub widths: &'a [u32],
    /// The number of buckets.
    pub total: u64,
    /// The words of the pointers and sizes.
    pub first: &'a [u64],
    /// The words of the buckets.
    pub second: &'a [u64],
}

impl<'a> BucketRows<'a> {
    ghost use Rattle.std.specs.Prelude.{◌≡◌, ◌-◌, ◌↔◌, ℕ, List, IsTrue, MatchOption};
    ghost use Rattle.std.specs.List.{Contains};
    ghost use Rattle.bucket_codec.specs.Run.{keys_of, FindsIn};
    ghost use Rattle.bucket_codec.specs.Buckets.{run_of};
    ghost use Rattle.bucket_codec.specs.BucketPlace.{start_at, end_at, size_at, run_at};
    ghost use Rattle.bucket_codec.specs.BucketRows.{HoldsAt, IsSpanAt, SpellsAt};

    /// The end of the run of a place, in buckets.
    #[inline(always)]
    fn end(&self, place: u64) -> u64
        requires { HoldsAt self.now place }
        ensures { result ≡ end_at self.now.widths.now self.now.first.now place }
    {
        element(self.first, place * place_bits(self.widths), self.widths[0])
    }

    /// The start of the run of a place: the end of that of the place before, and 0 for place 0.
    #[inline(always)]
    fn start(&self, place: u64) -> u64
        requires { HoldsAt self.now place }
        ensures { result ≡ start_at self.now.widths.now self.now.first.now place }
    {
        if place == 0 {
            return 0;
        }
        self.end(place - 1)
    }

    /// The number of elements or pairs at a place.
    #[inline(always)]
    pub fn size(&self, place: u64) -> u64
        requires { HoldsAt self.now place }
        ensures { result ≡ size_at self.now.widths.now self.now.first.now place }
    {
        element(
            self.first,
            place * place_bits(self.widths) + u64::from(self.widths[0]),
            self.widths[1],
        )
    }

    /// How many buckets the run of a place has by its pointers; 0 where they fall. So many are walked where the place is read.
    #[inline(always)]
    pub fn run_length(&self, place: u64) -> u64
        requires { HoldsAt self.now place }
        ensures { result ≡ end_at self.now.widths.now self.now.first.now place - start_at self.now.widths.now self.now.first.now place }
    {
        self.end(place).saturating_sub(self.start(place))
    }

    /// The buckets of a place; none where the pointers bound none that there are.
    #[inline(always)]
    pub fn buckets(&self, place: u64) -> Option<Buckets<'a>>
        requires { HoldsAt self.now place }
        ensures { MatchOption result (IsSpanAt self.now place → ⊥) (λ buckets. IsSpanAt self.now place × (run_of buckets ≡ run_at self.now.widths.now self.now.first.now self.now.second.now place)) }
    {
        let start = self.start(place);
        let end = self.end(place);
        let key_width = self.widths[2];
        let value_width = map_value_width(self.widths);
        if start > end {
            return None;
        }
        if end > self.total {
            return None;
        }
        if u128::from(end) * u128::from(key_width + value_width) > 64 * self.second.len() as u128 {
            return None;
        }
        Some(Buckets {
            words: self.second,
            start,
            len: end - start,
            key_width,
            value_width,
        })
    }

    /// Whether the set or map at a place has an element or a key; false where the place spells none. It takes no memory.
    pub fn has(&self, place: u64, key: u32) -> bool
        requires { HoldsAt self.now place }
        ensures { (pairs : List (ℕ × ℕ)) → SpellsAt self.now place pairs → IsTrue result ↔ Contains (keys_of pairs) key }
    {
        match self.buckets(place) {
            Some(buckets) => buckets.has(key),
            None => false,
        }
    }

    /// The value beside a key of the map at a place; none where it has no such key, and where the place spells none. It takes no memory.
    pub fn at(&self, place: u64, key: u32) -> Option<u32>
        requires { HoldsAt self.now place }
        ensures { (pairs : List (ℕ × ℕ)) → SpellsAt self.now place pairs → FindsIn pairs key result }
    {
        match self.buckets(place) {
            Some(buckets) => buckets.at(key),
            None => None,
        }
    }
}
