//! The buckets of a set or a map where they stand packed.
ghost use Rattle.std.specs.Prelude.{ℕ, List, ◌≡◌, ◌↔◌, ◌%◌, ◌+◌, ◌*◌, ◌^◌, ◌<◌, ◌≤◌, All, IsTrue, length};
ghost use Rattle.std.specs.List.{Contains};
ghost use Rattle.bucket_codec.specs.Run.{bucket_at, taken_of, keys_of, HoldsRun, IsPairInRange, SpellsRun, FindsIn};

use crate::hash::hash_int;
use bit_array::{all_ones, element};

/// The buckets of a set or a map, where they stand in words behind one another: each has an element, or a key and then a value.
///
/// They are in the order of the words, which is not that of the keys; some are empty.
#[derive(Clone, Copy)]
pub struct Buckets<'a> {
    /// The words in which they stand, maybe beside others.
    pub words: &'a [u64],
    /// How many buckets of the words stand before these.
    pub start: u64,
    /// How many they are, the empty ones too.
    pub len: u64,
    /// The width of an element or a key, in bits.
    pub key_width: u32,
    /// The width of a value in bits; 0 for a set.
    pub value_width: u32,
    ghost held: { HoldsRun words.now key_width value_width start len },
}

impl<'a> Buckets<'a> {
    ghost use Rattle.bucket_codec.specs.Buckets.{run_of};

    /// The key and the value of the bucket at an index, an element of a set with the value 0; none where it is empty.
    ///
    /// In a run of which some element, key or value is no ordinal the answer says nothing.
    #[inline(always)]
    pub fn bucket(self, index: u64) -> Option<(u32, u32)>
        requires { index < self.len }
        ensures { All IsPairInRange (taken_of (run_of self.entry)) → result ≡ bucket_at (run_of self.entry) index }
    {
        let (key, value) = self.wide_bucket(index)?;
        if key > 0xFFFF_FFFF {
            return None;
        }
        if value > 0xFFFF_FFFF {
            return None;
        }
        Some((key as u32, value as u32))
    }

    /// The key and the value of the bucket at an index, numbers of any width, an element of a set with the value 0; none where it is empty.
    #[inline(always)]
    pub(crate) fn wide_bucket(self, index: u64) -> Option<(u64, u64)>
        requires { index < self.len }
        ensures { result ≡ bucket_at (run_of self.entry) index }
    {
        let at = (self.start + index) * u64::from(self.key_width + self.value_width);
        let key = element(self.words, at, self.key_width);
        if key == all_ones(self.key_width) {
            return None;
        }
        let value = element(self.words, at + u64::from(self.key_width), self.value_width);
        Some((key, value))
    }

    /// Whether there is an element or a key among them: whether look-ups find it.
    ///
    /// The answer is that of the set or map that the buckets spell; where they spell none it says nothing, but it comes.
    pub fn has(self, key: u32) -> bool
        ensures { (pairs : List (ℕ × ℕ)) → SpellsRun (run_of self.entry) pairs → IsTrue result ↔ Contains (keys_of pairs) key }
    {
        self.find(key).is_some()
    }

    /// The value beside a key.
    ///
    /// The answer is that of the map that the buckets spell, none where it has no such key; where they spell none it says nothing, but it comes.
    pub fn at(self, key: u32) -> Option<u32>
        ensures { (pairs : List (ℕ × ℕ)) → SpellsRun (run_of self.entry) pairs → FindsIn pairs key result }
    {
        let value = self.find(key)?;
        if value > 0xFFFF_FFFF {
            return None;
        }
        Some(value as u32)
    }

    /// The number beside a key: what the way from the key's home on, up to the first empty bucket and at most once round, comes to.
    fn find(self, key: u32) -> Option<u64>
        ensures { (pairs : List (ℕ × ℕ)) → SpellsRun (run_of self.entry) pairs → FindsIn pairs key result }
    {
        if self.len == 0 {
            return None;
        }
        let home = u64::from(hash_int(key)) % self.len;
        for steps in 0..self.len {
            let place = round(home, steps, self.len);
            let Some((found, value)) = self.wide_bucket(place) else {
                return None;
            };
            if found == u64::from(key) {
                return Some(value);
            }
        }
        None
    }
}

/// The place that is so many steps behind another, round a run of so many buckets.
#[tactic(auto, using(crate::proofs::Places::round_is))]
#[inline(always)]
pub(crate) fn round(place: u64, steps: u64, size: u64) -> u64
    requires place { place < size }
    requires steps { steps < size }
    ensures is { result ≡ (place + steps) % size }
    ensures inside { result < size }
{
    let left = size - place;
    if steps < left {
        place + steps
    } else {
        steps - left
    }
}
