//! The widths of a place, and its pointer and size, written.
ghost use Rattle.std.specs.Prelude.{◌≡◌, ◌+◌, ◌*◌, ◌^◌, ◌<◌, ◌≤◌, length};
ghost use Rattle.bucket_codec.specs.Filled.{KeepsFront, KeepsBack};
ghost use Rattle.bucket_codec.specs.BucketPlace.{pointer_width, size_width, place_width, value_width, end_at, size_at, HoldsPointers};

use bit_array::set_element;

/// The width of a value: that of a map; a set has none, and values of no bits.
pub fn map_value_width(widths: &[u32]) -> u32
    ensures { result ≡ value_width widths.now }
{
    if widths.len() > 3 { widths[3] } else { 0 }
}

/// The width of a place: of a pointer and a size.
pub fn place_bits(widths: &[u32]) -> u64
    requires { 2 ≤ length widths.now }
    ensures { result ≡ place_width widths.now }
{
    u64::from(widths[0]) + u64::from(widths[1])
}

/// Writes the pointer and the size of a place.
pub fn put_pointers(widths: &[u32], first: &mut [u64], place: u64, end: u64, size: u64)
    requires three { 3 ≤ length widths.now }
    requires holds { HoldsPointers widths.now first.old place }
    requires end { end < 2 ^ pointer_width widths.now }
    requires size { size < 2 ^ size_width widths.now }
    ensures end { end_at widths.now first.new place ≡ end }
    ensures size { size_at widths.now first.new place ≡ size }
    ensures front { KeepsFront first.old first.new (place * place_width widths.now) }
    ensures back { KeepsBack first.old first.new ((place + 1) * place_width widths.now) }
{
    let at = place * place_bits(widths);
    set_element(first, at, widths[0], end);
    set_element(first, at + u64::from(widths[0]), widths[1], size);
}
