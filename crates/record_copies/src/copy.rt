//! Records copied as they stand, from the front of one word array to that of another.
ghost use Rattle.std.specs.Prelude.{◌≡◌, ℕ, ◌*◌, ◌^◌, ◌<◌, ◌≤◌, length, min, replicate, sum};
ghost use Rattle.bit_array.specs.Element.{number_of};
ghost use Rattle.record_copies.specs.Fixed.{HasFront, record_at, whole_words};

use bit_array::{copy_bits, total_width};

/// How many bits the records of the first places take, as many as both word arrays have.
fn shared_bits(widths: &[u32], places_before: u64, places: u64) -> u64
    requires { places_before * sum widths.now < 2 ^ 64 }
    ensures { result ≡ min places_before places * sum widths.now }
{
    let places = places_before.min(places);
    (u128::from(places) * total_width(widths)) as u64
}

/// How many words these bits fill.
pub fn whole_words(widths: &[u32], places_before: u64, places: u64) -> u64
    requires { places_before * sum widths.now < 2 ^ 64 }
    ensures { result ≡ whole_words widths.now places_before places }
{
    shared_bits(widths, places_before, places) / 64
}

/// Copies the records of the first places, as many as both word arrays have, into words of zeros.
///
/// The one has `places_before` places, the other is to have `places`. Where it has more of them these stay clear, and no bit stands behind.
pub fn copy_records(widths: &[u32], from: &[u64], places_before: u64, to: &mut [u64], places: u64)
    requires source { places_before * sum widths.now ≤ 64 * length from.now }
    requires inside { places * sum widths.now ≤ 64 * length to.old }
    requires counted { places_before * sum widths.now < 2 ^ 64 }
    requires zeros { to.old ≡ replicate (length to.old) 0 }
    ensures copied { (place : ℕ) → place < min places_before places → record_at widths.now to.new place ≡ record_at widths.now from.now place }
    ensures clear { (place : ℕ) → min places_before places ≤ place → record_at widths.now to.new place ≡ 0 }
    ensures behind { number_of to.new < 2 ^ (min places_before places * sum widths.now) }
{
    let bits = shared_bits(widths, places_before, places);
    copy_bits(from, 0, to, 0, bits);
}

/// Copies what bits the records of the first places, as many as both word arrays have, take behind their whole words, which stand in `to` already, with zeros
/// behind them. Places that `to` has beside these stay clear, and no bit stands behind.
pub fn copy_rest(widths: &[u32], from: &[u64], places_before: u64, to: &mut [u64], places: u64)
    requires source { places_before * sum widths.now ≤ 64 * length from.now }
    requires inside { places * sum widths.now ≤ 64 * length to.old }
    requires counted { places_before * sum widths.now < 2 ^ 64 }
    requires front { HasFront (whole_words widths.now places_before places) from.now to.old }
    ensures copied { (place : ℕ) → place < min places_before places → record_at widths.now to.new place ≡ record_at widths.now from.now place }
    ensures clear { (place : ℕ) → min places_before places ≤ place → record_at widths.now to.new place ≡ 0 }
    ensures behind { number_of to.new < 2 ^ (min places_before places * sum widths.now) }
{
    let bits = shared_bits(widths, places_before, places);
    let done = bits / 64 * 64;
    copy_bits(from, done, to, done, bits - done);
}
