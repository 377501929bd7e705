//! Which lists, sets and maps the widths of a type can hold.
ghost use Rattle.std.specs.Prelude.{◌≡◌, ◌↔◌, ◌+◌, ◌-◌, ◌^◌, ◌<◌, ◌≤◌, ℕ, All, length, slice_index, IsTrue};
ghost use Rattle.bucket_codec.specs.BucketCount.{bucket_count};
ghost use Rattle.type_rows.specs.Holds.{FitsList, FitsSet, FitsMap};

use crate::count::buckets;

/// One past the greatest number of a width.
fn past_width(width: u32) -> u128
    requires { width ≤ 64 }
    ensures { result ≡ 2 ^ width }
{
    1 << width
}

/// Whether each number is below a bound.
fn are_below(numbers: &[u32], bound: u128) -> bool
    ensures { IsTrue result ↔ All (λ number. number < bound) numbers.now }
{
    numbers.iter().all(|number| u128::from(*number) < bound)
}

/// Whether each key is below one bound, and each value below another.
fn pairs_are_below(pairs: &[(u32, u32)], keys: u128, values: u128) -> bool
    ensures { IsTrue result ↔ All (λ pair. (pair.0 < keys) × (pair.1 < values)) pairs.now }
{
    pairs.iter().all(|(key, value)| u128::from(*key) < keys && u128::from(*value) < values)
}

/// Adds items to those before them, and tells whether the pointer to their end fits its width.
fn add_items(items: &mut u64, more: u64, width: u32) -> bool
    requires { width ≤ 64 }
    ensures fits { IsTrue result ↔ (items.old + more < 2 ^ width) }
    ensures items { IsTrue result → items.new ≡ items.old + more }
{
    let end = u128::from(*items) + u128::from(more);
    if end >= past_width(width) {
        return false;
    }
    *items = end as u64;
    true
}

/// Adds the elements of a list to those before them, and tells whether the widths of its type hold it.
pub(crate) fn add_list(widths: &[u32], ordinals: &[u32], items: &mut u64) -> bool
    requires widths { length widths.now ≡ 2 }
    requires narrow { (part : ℕ) → slice_index widths.now part ≤ 64 }
    ensures fits { IsTrue result ↔ FitsList widths.now (items.old + length ordinals.now) ordinals.now }
    ensures items { IsTrue result → items.new ≡ items.old + length ordinals.now }
{
    if !add_items(items, ordinals.len() as u64, widths[0]) {
        return false;
    }
    are_below(ordinals, past_width(widths[1]))
}

/// Adds the buckets of a set to those before them, and tells whether the widths of its type hold it.
pub(crate) fn add_set(widths: &[u32], ordinals: &[u32], items: &mut u64) -> bool
    requires widths { length widths.now ≡ 3 }
    requires narrow { (part : ℕ) → slice_index widths.now part ≤ 64 }
    requires few { length ordinals.now < 2 ^ 32 }
    ensures fits { IsTrue result ↔ FitsSet widths.now (items.old + bucket_count (length ordinals.now)) ordinals.now }
    ensures items { IsTrue result → items.new ≡ items.old + bucket_count (length ordinals.now) }
{
    if !add_items(items, buckets(ordinals.len()), widths[0]) {
        return false;
    }
    if ordinals.len() as u128 >= past_width(widths[1]) {
        return false;
    }
    are_below(ordinals, past_width(widths[2]) - 1)
}

/// Adds the buckets of a map to those before them, and tells whether the widths of its type hold it.
pub(crate) fn add_map(widths: &[u32], pairs: &[(u32, u32)], items: &mut u64) -> bool
    requires widths { length widths.now ≡ 4 }
    requires narrow { (part : ℕ) → slice_index widths.now part ≤ 64 }
    requires few { length pairs.now < 2 ^ 32 }
    ensures fits { IsTrue result ↔ FitsMap widths.now (items.old + bucket_count (length pairs.now)) pairs.now }
    ensures items { IsTrue result → items.new ≡ items.old + bucket_count (length pairs.now) }
{
    if !add_items(items, buckets(pairs.len()), widths[0]) {
        return false;
    }
    if pairs.len() as u128 >= past_width(widths[1]) {
        return false;
    }
    pairs_are_below(pairs, past_width(widths[2]) - 1, past_width(widths[3]))
}
