//! Look-ups in the buckets of a set or map between two bounds in words, with nothing unpacked.
ghost use Rattle.std.specs.Prelude.{◌≡◌, ◌+◌, ◌-◌, ◌*◌, ◌^◌, ◌<◌, ◌≤◌, ◌↔◌, ℕ, List, IsTrue};
ghost use Rattle.std.specs.List.{Contains};
ghost use Rattle.bucket_codec.specs.Run.{run_in, keys_of, IsRunWithin, SpellsRun, FindsIn};
ghost use Rattle.bucket_codec.specs.Buckets.{run_of};

use crate::buckets::Buckets;

/// Whether a set has an element: `start` and `end` bound its run, counted in buckets of `width` bits.
///
/// The answer is that of the set that the run spells; of a run that spells none it says nothing, but it comes.
pub fn has(words: &[u64], start: u64, end: u64, width: u32, element: u32) -> bool
    requires { IsRunWithin words.now width 0 start end }
    ensures { (pairs : List (ℕ × ℕ)) → SpellsRun (run_in words.now width 0 start (end - start)) pairs → IsTrue result ↔ Contains (keys_of pairs) element }
{
    between(words, start, end, width, 0).has(element)
}

/// The value that a map has beside a key: `start` and `end` bound its run, counted in buckets of a key of `key_width` and a value of `value_width` bits.
///
/// The answer is that of the map that the run spells, none where it has no such key; of a run that spells none it says nothing, but it comes.
pub fn at(
    words: &[u64],
    start: u64,
    end: u64,
    key_width: u32,
    value_width: u32,
    key: u32,
) -> Option<u32>
    requires { IsRunWithin words.now key_width value_width start end }
    ensures { (pairs : List (ℕ × ℕ)) → SpellsRun (run_in words.now key_width value_width start (end - start)) pairs → FindsIn pairs key result }
{
    between(words, start, end, key_width, value_width).at(key)
}

/// The buckets between two bounds.
fn between(words: &[u64], start: u64, end: u64, key_width: u32, value_width: u32) -> Buckets<'_>
    requires { IsRunWithin words.now key_width value_width start end }
    ensures { run_of result ≡ run_in words.now key_width value_width start (end - start) }
{
    Buckets {
        words,
        start,
        len: end - start,
        key_width,
        value_width,
    }
}
