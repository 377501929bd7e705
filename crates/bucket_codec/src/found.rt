//! Whether look-ups in buckets find each key where it stands.
ghost use Rattle.std.specs.Prelude.{◌≡◌, ◌+◌, ◌-◌, ◌%◌, ◌<◌, All, MatchBool, MatchOption, length};
ghost use Rattle.std.specs.Int.{IsPowerOfTwo};
ghost use Rattle.bucket_codec.specs.Hash.{hash_of};
ghost use Rattle.bucket_codec.specs.Run.{bucket_at, taken_of, IsPairInRange};
ghost use Rattle.bucket_codec.specs.Buckets.{run_of, steps_of, IsOther, IsFar, ComesTo, IsFoundAt, FindsEach};

use crate::buckets::{Buckets, round};
use crate::hash::hash_int;

impl<'a> Buckets<'a> {
    /// How many buckets are taken where each key stands where it is found from its home on, which no key does that stands twice, and nothing where
    /// one does not; none where the keys stand more than so many steps behind their homes, all together. It is told in one walk over the buckets.
    pub(crate) fn count_found(self, most: u64) -> Option<Option<u64>>
        requires power { IsPowerOfTwo self.len }
        requires ranges { All IsPairInRange (taken_of (run_of self)) }
        ensures { MatchOption result (IsFar (run_of self.entry) most) (λ found. MatchOption found (FindsEach (run_of self.entry) → ⊥) (λ taken. FindsEach (run_of self.entry) × (taken ≡ length (taken_of (run_of self.entry))))) }
    {
        let mut gone: u64 = 0;
        let mut taken: u64 = 0;
        for index in 0..self.len {
            let Some(steps) = self.steps_at(index) else {
                return Some(None);
            };
            gone = gone.saturating_add(steps);
            if gone > most {
                return None;
            }
            taken += self.taken_at(index);
        }
        Some(Some(taken))
    }

    /// How many steps the key of the bucket at an index stands behind its home, and 0 where the bucket is empty; none where it is not found.
    fn steps_at(self, index: u64) -> Option<u64>
        requires power { IsPowerOfTwo self.len }
        requires inside { index < self.len }
        requires ranges { All IsPairInRange (taken_of (run_of self)) }
        ensures { MatchOption result (IsFoundAt (run_of self.entry) index → ⊥) (λ steps. IsFoundAt (run_of self.entry) index × (steps ≡ steps_of self.entry.len index (bucket_at (run_of self.entry) index))) }
    {
        match self.bucket(index) {
            None => Some(0),
            Some((key, _)) => self.steps_to(key, index),
        }
    }

    /// How many steps the way from the home of a key takes to an index, over buckets that other keys take; none where it ends before.
    fn steps_to(self, key: u32, index: u64) -> Option<u64>
        requires power { IsPowerOfTwo self.len }
        requires inside { index < self.len }
        ensures { MatchOption result (ComesTo (run_of self.entry) key index → ⊥) (λ steps. ComesTo (run_of self.entry) key index × (steps ≡ (index + self.entry.len - hash_of key % self.entry.len) % self.entry.len)) }
    {
        let home = self.home(key);
        for steps in 0..self.len {
            let place = round(home, steps, self.len);
            if place == index {
                return Some(steps);
            }
            if !self.is_other(key, place) {
                return None;
            }
        }
        None
    }

    /// The home of a key: its hash modulo the number of buckets, a power of two.
    #[inline(always)]
    fn home(self, key: u32) -> u64
        requires { IsPowerOfTwo self.len }
        ensures is { result ≡ hash_of key % self.entry.len }
        ensures inside { result < self.entry.len }
    {
        u64::from(hash_int(key)) & (self.len - 1)
    }

    /// Whether another key takes the bucket at an index.
    #[inline(always)]
    fn is_other(self, key: u32, index: u64) -> bool
        requires { index < self.len }
        ensures { MatchBool result (IsOther key (bucket_at (run_of self.entry) index)) (IsOther key (bucket_at (run_of self.entry) index) → ⊥) }
    {
        match self.wide_bucket(index) {
            None => false,
            Some((found, _)) => found != u64::from(key),
        }
    }
}
