//! A run of buckets in words that are written.
ghost use Rattle.std.specs.Prelude.{◌≡◌};
ghost use Rattle.bucket_codec.specs.Run.{run_in, HoldsRun};
ghost use Rattle.bucket_codec.specs.Buckets.{run_of};

use crate::buckets::Buckets;

/// Where a run stands in words: from an index on, counted in buckets.
#[derive(Clone, Copy)]
pub struct Run {
    /// The width of a key in bits.
    pub key_width: u32,
    /// The width of a value in bits; 0 for a set.
    pub value_width: u32,
    /// The index of the first bucket.
    pub start: u64,
    /// The number of buckets.
    pub size: u64,
}

impl Run {
    /// The buckets of the run as they stand in the words.
    pub fn buckets(self, words: &[u64]) -> Buckets<'_>
        requires { HoldsRun words.now self.key_width self.value_width self.start self.size }
        ensures is { run_of result ≡ run_in words.now self.key_width self.value_width self.start self.size }
        ensures many { result.len ≡ self.size }
    {
        Buckets {
            words,
            start: self.start,
            len: self.size,
            key_width: self.key_width,
            value_width: self.value_width,
        }
    }
}
