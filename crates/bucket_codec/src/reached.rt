//! Whether look-ups in a run of buckets find each key.
ghost use Rattle.std.specs.Prelude.{◌≡◌, ◌+◌, ◌<◌, ◌^◌, ℕ, All, MatchOption, MatchBool, IsSome, Some};
ghost use Rattle.bucket_codec.specs.Run.{bucket_at, place_from, taken_of, IsPairInRange};
ghost use Rattle.bucket_codec.specs.Buckets.{run_of};
ghost use Rattle.bucket_codec.specs.Streak.{IsStreak, IsReachedAt, IsOpen};

use crate::buckets::Buckets;
use crate::hash::hash_int;

impl<'a> Buckets<'a> {
    /// Whether a bucket is empty, and each key stands where it is reached from its home over taken buckets.
    ///
    /// One walk round the run tells: a key is reached where it is no more steps from its home than there are taken buckets before it.
    pub fn is_open(self) -> bool
        requires ranges { All IsPairInRange (taken_of (run_of self)) }
        ensures { MatchBool result (IsOpen (run_of self.entry)) (IsOpen (run_of self.entry) → ⊥) }
    {
        let Some(mut streak) = self.streak_at_end() else {
            return false;
        };
        for place in 0..self.len {
            let Some(next) = self.next_streak(place, streak) else {
                return false;
            };
            streak = next;
        }
        true
    }

    /// How many buckets at the end of the run are taken; none where all are.
    fn streak_at_end(self) -> Option<u64>
        ensures { MatchOption result (IsOpen (run_of self.entry) → ⊥) (λ streak. IsStreak (run_of self.entry) 0 streak) }
    {
        for back in 0..self.len {
            let Some(_) = self.wide_bucket(self.len - 1 - back) else {
                return Some(back);
            };
        }
        None
    }

    /// How many buckets up to a place are taken, by how many before it are; none where the key at the place is not reached.
    fn next_streak(self, place: u64, streak: u64) -> Option<u64>
        requires ranges { All IsPairInRange (taken_of (run_of self)) }
        requires inside { place < self.len }
        requires streak { IsStreak (run_of self) place streak }
        ensures { MatchOption result (IsReachedAt (run_of self.entry) place → ⊥) (λ next. IsReachedAt (run_of self.entry) place × IsStreak (run_of self.entry) (place + 1) next) }
    {
        let Some((key, _)) = self.wide_bucket(place) else {
            return Some(0);
        };
        if self.steps_behind(key as u32, place) > streak {
            return None;
        }
        Some(streak + 1)
    }

    /// How many steps a place is behind the home of a key.
    fn steps_behind(self, key: u32, place: u64) -> u64
        requires { place < self.len }
        ensures is { place_from self.entry.len key result ≡ place }
        ensures below { result < self.entry.len }
    {
        let home = u64::from(hash_int(key)) % self.len;
        if home <= place {
            place - home
        } else {
            place + (self.len - home)
        }
    }
}
