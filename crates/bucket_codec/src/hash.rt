//! Where an ordinal belongs in a run of buckets, and how many buckets a run has.
ghost use Rattle.std.specs.Prelude.{◌≡◌, ◌^◌, ◌<◌, ◌≤◌, ◌+◌};
ghost use Rattle.bucket_codec.specs.Hash.{hash_of};
ghost use Rattle.bucket_codec.specs.BucketCount.{IsBucketCount, bucket_count};

use bit_array::digits;

/// The hash of an ordinal. Its home in a run is the bucket of this number modulo the run's length.
#[tactic(auto, unfolding(crate::specs::Hash::hash_of))]
pub fn hash_int(ordinal: u32) -> u32
    ensures { result ≡ hash_of ordinal }
{
    let mixed = (!ordinal).wrapping_add(ordinal << 15);
    let mixed = mixed ^ (mixed >> 12);
    let mixed = mixed.wrapping_mul(5);
    let mixed = mixed ^ (mixed >> 4);
    let mixed = mixed.wrapping_mul(2057);
    mixed ^ (mixed >> 16)
}

/// How many buckets so many elements take when they are written: a power of two, and more than the elements.
///
/// 1 for none, 2 for one, 4 for two, and else the least power of two that is at least ten sevenths of them, rounded down.
pub fn buckets_for(elements: u32) -> u64
    ensures is { result ≡ bucket_count elements }
    ensures count { IsBucketCount elements result }
    ensures room { elements + 1 ≤ result }
    ensures few { result ≤ 2 ^ 33 }
{
    buckets_for_any(u64::from(elements)) as u64
}

/// How many buckets the run of a set or map of this many elements takes, of any number that memory holds.
pub fn buckets_for_any(elements: u64) -> u128
    requires { elements < 2 ^ 63 }
    ensures is { result ≡ bucket_count elements }
    ensures count { IsBucketCount elements result }
    ensures few { elements < 2 ^ 32 → result ≤ 2 ^ 33 }
    ensures small { result ≤ 2 ^ 64 }
{
    match elements {
        0 => 1,
        1 => 2,
        2 => 4,
        _ => 1 << digits((10 * u128::from(elements) / 7 - 1) as u64),
    }
}
