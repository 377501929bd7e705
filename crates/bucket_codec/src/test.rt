//! Whether a set or a map is spelled, and else why not, told where it stands.
ghost use Rattle.std.specs.Prelude.{ℕ, List, ◌≡◌, ◌^◌, ◌<◌, ◌≤◌, [], ◌∷◌, length, All, Err, IfOk, MatchBool, MatchOption};
ghost use Rattle.std.specs.Int.{IsPowerOfTwo};
ghost use Rattle.row_model.specs.declared.packed.PlaceFault.TheVariants.{Bad};
ghost use Rattle.bucket_codec.specs.Run.{bucket_at, taken_of, IsPairInRange};
ghost use Rattle.bucket_codec.specs.Taken.{HasBadValue, TellsPairs};
ghost use Rattle.bucket_codec.specs.Buckets.{run_of, FitsAt, HasRoom, IsCounted, IsFaultOf, TellsRunTest};
ghost use Rattle.bucket_codec.specs.BucketRows.{HoldsAt, SpellsAt, FailsAt};

use crate::bucket_rows::BucketRows;
use crate::buckets::Buckets;
use crate::tested::Tested;
use row_model::{Pairs, PlaceFault};
use schema_model::Reason;
use std::alloc::{AllocError, Global};

/// How many steps the keys of a run may stand behind their homes, in the mean over its buckets, to be tested where they stand. In a run that the
/// format's writer makes they are one or two.
const MOST_STEPS: u64 = 16;

impl<'a> BucketRows<'a> {
    /// Why no set or map is spelled at a place; none where one is.
    ///
    /// It walks the buckets once, twice where an element, a key or a value has more than 32 bits, and goes the way from the home of each key to
    /// where the key stands. It takes memory only where the keys stand far behind their homes, as in no run that the format's writer
    /// makes: then to read the place takes less time.
    pub fn fault(&self, alloc: Global, place: u64) -> Result<Option<Reason>, AllocError>
        requires { HoldsAt self.now place }
        ensures { IfOk result (λ found. MatchOption found ((pairs : List (ℕ × ℕ)) × SpellsAt self.now place pairs) (FailsAt self.now place)) }
    {
        let Some(buckets) = self.buckets(place) else {
            return Ok(Some(Reason::BadPointers));
        };
        let most = buckets.len.saturating_mul(MOST_STEPS);
        match buckets.test(self.size(place), most) {
            Tested::Spells => Ok(None),
            Tested::Fails(reason) => Ok(Some(reason)),
            Tested::Far => fault_of(self.pairs(alloc, place)),
        }
    }
}

/// Why pairs were not read; none where they were.
fn fault_of(read: Result<Pairs, PlaceFault>) -> Result<Option<Reason>, AllocError>
    ensures { IfOk result (λ found. IsFaultOf read found) }
{
    match read {
        Ok(_) => Ok(None),
        Err(PlaceFault::Bad(reason)) => Ok(Some(reason)),
        Err(PlaceFault::Memory) => Err(AllocError),
    }
}

impl<'a> Buckets<'a> {
    /// Whether a set or map of so many elements or pairs is spelled, and else why not; `Far` where the keys stand more than `most` steps behind
    /// their homes, all together. It takes no memory.
    fn test(self, count: u64, most: u64) -> Tested
        ensures { TellsRunTest (run_of self.entry) count most result }
    {
        if let Some(reason) = self.room_fault(count) {
            return Tested::Fails(reason);
        }
        match self.count_found(most) {
            None => Tested::Far,
            Some(None) => Tested::Fails(Reason::BadBuckets),
            Some(Some(taken)) => {
                if taken != count {
                    return Tested::Fails(Reason::BadBuckets);
                }
                Tested::Spells
            }
        }
    }

    /// Why no set or map of so many elements or pairs is spelled, wherever the keys stand: one, or a value, is no ordinal, other than so many
    /// buckets are taken, none is empty, or there are no power of two of them. None where none of these is so.
    pub(crate) fn count_fault(self, count: u64) -> Option<Reason>
        ensures { MatchOption result (IsCounted (run_of self.entry) count) (λ reason. TellsPairs (run_of self.entry) count (Err (Bad reason))) }
    {
        if let Some(reason) = self.room_fault(count) {
            return Some(reason);
        }
        if self.taken() != count {
            return Some(Reason::BadBuckets);
        }
        None
    }

    /// The same, whatever buckets are taken.
    fn room_fault(self, count: u64) -> Option<Reason>
        ensures { MatchOption result (HasRoom (run_of self.entry) count) (λ reason. TellsPairs (run_of self.entry) count (Err (Bad reason))) }
    {
        if !self.are_in_range() {
            return Some(Reason::BadValue);
        }
        if count >= self.len {
            return Some(Reason::BadBuckets);
        }
        if !is_power_of_two(self.len) {
            return Some(Reason::BadBuckets);
        }
        None
    }

    /// Whether each element, key and value is an ordinal. Those of 32 bits at most are, and are not walked.
    fn are_in_range(self) -> bool
        ensures { MatchBool result (All IsPairInRange (taken_of (run_of self.entry))) (HasBadValue (run_of self.entry)) }
    {
        if self.key_width <= 32 && self.value_width <= 32 {
            return true;
        }
        for index in 0..self.len {
            if !self.is_in_range(index) {
                return false;
            }
        }
        true
    }

    /// Whether those of the bucket at an index are, where it is taken.
    fn is_in_range(self, index: u64) -> bool
        requires { index < self.len }
        ensures { MatchBool result (FitsAt (run_of self.entry) index) (HasBadValue (run_of self.entry)) }
    {
        let Some((key, value)) = self.wide_bucket(index) else {
            return true;
        };
        if key > 0xFFFF_FFFF {
            return false;
        }
        if value > 0xFFFF_FFFF {
            return false;
        }
        true
    }

    /// How many buckets are taken.
    fn taken(self) -> u64
        ensures { result ≡ length (taken_of (run_of self.entry)) }
    {
        let mut count = 0;
        for index in 0..self.len {
            count += self.taken_at(index);
        }
        count
    }

    /// 1 where the bucket at an index is taken, and 0 where it is empty.
    #[inline(always)]
    pub(crate) fn taken_at(self, index: u64) -> u64
        requires { index < self.len }
        ensures is { result ≡ length (taken_of (bucket_at (run_of self.entry) index ∷ [])) }
        ensures one { result ≤ 1 }
    {
        match self.wide_bucket(index) {
            None => 0,
            Some(_) => 1,
        }
    }
}

/// Whether a number is a power of two.
fn is_power_of_two(number: u64) -> bool
    ensures { MatchBool result (IsPowerOfTwo number) (IsPowerOfTwo number → ⊥) }
{
    if number > 1 << 63 {
        return false;
    }
    number.next_power_of_two() == number
}
