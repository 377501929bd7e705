//! Runs of buckets, written.
ghost use Rattle.std.specs.Prelude.{◌≡◌, ◌≢◌, ◌+◌, ◌-◌, ◌*◌, ◌^◌, ◌<◌, ◌≤◌, ◌==◌, if◌then◌else◌, ℕ, List, [], ◌∷◌, ◌++◌, length, map, All, None, Some};
ghost use Rattle.bucket_codec.specs.Run.{bucket_in, value_in, run_in, taken_of, HoldsRun, IsPairInRange, IsZeroIfEmpty};
ghost use Rattle.row_model.specs.declared.row.Row.TheVariants.{Set};
ghost use Rattle.bucket_codec.specs.Packed.{pairs_of, IsBuckets};
ghost use Rattle.bucket_codec.specs.Filled.{KeepsFront, KeepsBack, FillsRun, IsFilled, IsFree};
ghost use Rattle.bucket_codec.specs.Inserted.{with_pair};

use crate::buckets::round;
use crate::hash::hash_int;
use crate::run::Run;
use bit_array::{all_ones, set_element};
use row_model::Row;

impl Run {
    /// Empties each bucket: its key is then all ones, and its value 0.
    pub fn clear(self, words: &mut [u64])
        requires { HoldsRun words.old self.key_width self.value_width self.start self.size }
        ensures { FillsRun words.old words.new self.key_width self.value_width self.start self.size [] }
    {
        let empty = all_ones(self.key_width);
        for place in 0..self.size {
            self.put(words, place, empty, 0);
        }
    }

    /// Writes the run of a row: the elements of a set or the pairs of a map, by rising key.
    pub fn fill(self, words: &mut [u64], row: &Row)
        requires held { HoldsRun words.old self.key_width self.value_width self.start self.size }
        requires kind { IsBuckets row.now }
        requires room { length (pairs_of row.now) < self.size }
        requires keys { All (λ pair. pair.0 < 2 ^ self.key_width - 1) (pairs_of row.now) }
        requires values { All (λ pair. pair.1 < 2 ^ self.value_width) (pairs_of row.now) }
        ensures { FillsRun words.old words.new self.key_width self.value_width self.start self.size (pairs_of row.now) }
    {
        match row {
            Row::Set(elements) => self.fill_set(words, elements.as_slice()),
            Row::Map(pairs) => self.fill_map(words, pairs.as_slice()),
            _ => unreachable!(),
        }
    }

    /// Writes the run of a set.
    fn fill_set(self, words: &mut [u64], elements: &[u32])
        requires held { HoldsRun words.old self.key_width self.value_width self.start self.size }
        requires room { length elements.now < self.size }
        requires keys { All (λ pair. pair.0 < 2 ^ self.key_width - 1) (pairs_of (Set elements.now)) }
        ensures { FillsRun words.old words.new self.key_width self.value_width self.start self.size (pairs_of (Set elements.now)) }
    {
        self.clear(words);
        for index in 0..elements.len() {
            self.insert(words, elements[index], 0);
        }
    }

    /// Writes the run of a map.
    fn fill_map(self, words: &mut [u64], pairs: &[(u32, u32)])
        requires held { HoldsRun words.old self.key_width self.value_width self.start self.size }
        requires room { length pairs.now < self.size }
        requires keys { All (λ pair. pair.0 < 2 ^ self.key_width - 1) pairs.now }
        requires values { All (λ pair. pair.1 < 2 ^ self.value_width) pairs.now }
        ensures { FillsRun words.old words.new self.key_width self.value_width self.start self.size pairs.now }
    {
        self.clear(words);
        for (key, value) in pairs {
            self.insert(words, *key, *value);
        }
    }

    /// Puts a pair into the first empty bucket from the home of its key on.
    pub fn insert(self, words: &mut [u64], key: u32, value: u32)
        requires held { HoldsRun words.old self.key_width self.value_width self.start self.size }
        requires room { length (taken_of (run_in words.old self.key_width self.value_width self.start self.size)) < self.size }
        requires key { key < 2 ^ self.key_width - 1 }
        requires value { value < 2 ^ self.value_width }
        ensures filled { (pairs : List (ℕ × ℕ)) → IsFilled (run_in words.old self.key_width self.value_width self.start self.size) pairs → IsFilled (run_in words.new self.key_width self.value_width self.start self.size) (pairs ++ (key, value) ∷ []) }
        ensures laid { run_in words.new self.key_width self.value_width self.start self.size ≡ with_pair (run_in words.old self.key_width self.value_width self.start self.size) (key, value) }
        ensures range { IsPairInRange (key, value) }
        ensures zeros { (index : ℕ) → IsZeroIfEmpty words.old self.key_width self.value_width index → IsZeroIfEmpty words.new self.key_width self.value_width index }
        ensures front { KeepsFront words.old words.new (self.start * (self.key_width + self.value_width)) }
        ensures back { KeepsBack words.old words.new ((self.start + self.size) * (self.key_width + self.value_width)) }
    {
        let place = self.free_place(words, key);
        self.put(words, place, u64::from(key), u64::from(value));
    }

    /// The first empty bucket from the home of a key on.
    fn free_place(self, words: &[u64], key: u32) -> u64
        requires held { HoldsRun words.now self.key_width self.value_width self.start self.size }
        requires room { length (taken_of (run_in words.now self.key_width self.value_width self.start self.size)) < self.size }
        ensures { IsFree (run_in words.now self.key_width self.value_width self.start self.size) key result }
    {
        let buckets = self.buckets(words);
        let home = u64::from(hash_int(key)) % self.size;
        for steps in 0..self.size {
            let place = round(home, steps, self.size);
            let Some(_) = buckets.wide_bucket(place) else {
                return place;
            };
        }
        unreachable!()
    }

    /// Writes the key and the value of a bucket.
    pub(crate) fn put(self, words: &mut [u64], place: u64, key: u64, value: u64)
        requires held { HoldsRun words.old self.key_width self.value_width self.start self.size }
        requires inside { place < self.size }
        requires key { key < 2 ^ self.key_width }
        requires value { value < 2 ^ self.value_width }
        ensures is { bucket_in words.new self.key_width self.value_width (self.start + place) ≡ (if key == 2 ^ self.key_width - 1 then None else Some (key, value)) }
        ensures value { value_in words.new self.key_width self.value_width (self.start + place) ≡ value }
        ensures others { (index : ℕ) → index ≢ self.start + place → (bucket_in words.new self.key_width self.value_width index ≡ bucket_in words.old self.key_width self.value_width index) × (value_in words.new self.key_width self.value_width index ≡ value_in words.old self.key_width self.value_width index) }
        ensures front { KeepsFront words.old words.new ((self.start + place) * (self.key_width + self.value_width)) }
        ensures back { KeepsBack words.old words.new ((self.start + place + 1) * (self.key_width + self.value_width)) }
    {
        let at = (self.start + place) * u64::from(self.key_width + self.value_width);
        set_element(words, at, self.key_width, key);
        set_element(
            words,
            at + u64::from(self.key_width),
            self.value_width,
            value,
        );
    }
}
