//! The set or map that buckets spell.
ghost use Rattle.std.specs.Prelude.{◌≡◌, ◌<◌, length, All, IfOk, MatchBool};
ghost use Rattle.std.specs.List.Sorted.{IsPermutation, IsNonDecreasingBy};
ghost use Rattle.row_model.specs.Row.{Rises};
ghost use Rattle.bucket_codec.specs.Run.{keys_of, taken_of, IsPairInRange};
ghost use Rattle.bucket_codec.specs.Taken.{TellsPairs};
ghost use Rattle.bucket_codec.specs.Buckets.{run_of};

use crate::buckets::Buckets;
use row_model::{Pairs, PlaceFault};
use schema_model::Reason;
use std::alloc::{AllocError, Global};

impl<'a> Buckets<'a> {
    /// The pairs of the set or map that the buckets spell, by rising key. There are to be so many.
    ///
    /// `BadValue` where a key or value is no ordinal. `BadBuckets` where there are no power of two of buckets, none is empty, other than so many
    /// are taken, a key stands twice, or a key is not reached from its home over taken buckets.
    pub(crate) fn pairs(self, alloc: Global, count: u64) -> Result<Pairs, PlaceFault>
        ensures { TellsPairs (run_of self.entry) count result }
    {
        if let Some(reason) = self.count_fault(count) {
            return Err(PlaceFault::Bad(reason));
        }
        if !self.is_open() {
            return Err(PlaceFault::Bad(Reason::BadBuckets));
        }
        let pairs = by_key(self.taken_pairs(alloc, count)?);
        if !has_rising_keys(pairs.as_slice()) {
            return Err(PlaceFault::Bad(Reason::BadBuckets));
        }
        Ok(pairs)
    }

    /// The pairs of the taken buckets, in the order of the buckets. Room for so many is asked for at once.
    fn taken_pairs(self, alloc: Global, count: u64) -> Result<Pairs, AllocError>
        requires { All IsPairInRange (taken_of (run_of self)) }
        ensures { IfOk result (λ pairs. pairs ≡ taken_of (run_of self.entry)) }
    {
        let mut pairs = Pairs::with_capacity(alloc, count as usize)?;
        for index in 0..self.len {
            if let Some(pair) = self.bucket(index) {
                pairs.push(pair)?;
            }
        }
        Ok(pairs)
    }
}

/// The pairs by key, so that none falls.
fn by_key(pairs: Pairs) -> Pairs
    ensures same { IsPermutation pairs result }
    ensures rises { IsNonDecreasingBy (λ pair. pair.0) result }
{
    let mut pairs = pairs.into_vec();
    pairs.sort_unstable_by_key(|pair| pair.0);
    Pairs::from_vec(pairs)
}

/// Whether each key is above the one before it.
fn has_rising_keys(pairs: &[(u32, u32)]) -> bool
    ensures { MatchBool result (Rises (keys_of pairs.now)) (Rises (keys_of pairs.now) → ⊥) }
{
    for place in 1..pairs.len() {
        if pairs[place - 1].0 >= pairs[place].0 {
            return false;
        }
    }
    true
}
