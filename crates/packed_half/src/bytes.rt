//! The bytes of fields in words, eight in a word.
ghost use Rattle.std.specs.Prelude.{◌≡◌, ◌≤◌, ℕ, List, length, map, take, drop};
ghost use Rattle.packed_half.specs.Half.{byte_in, byte_words, bytes_in, areas_in, packed_bytes, words_for_bytes};

use hol_varint::Octets;

/// A byte that stands in words; 0 where the words end before it.
#[inline(always)]
pub(crate) fn byte_at(words: &[u64], at: u64) -> u8
    ensures { result ≡ byte_in words.now at }
{
    match words.get((at / 8) as usize) {
        Some(word) => ((*word >> (8 * (at % 8))) % 256) as u8,
        None => 0,
    }
}

/// The word of up to eight bytes, the first the lowest.
fn word_of(bytes: &[u8]) -> u64
    requires { length bytes.now ≤ 8 }
    ensures { result ≡ packed_bytes bytes.now }
{
    match <[u8; 8]>::try_from(bytes) {
        Ok(whole) => u64::from_le_bytes(whole),
        Err(_) => short_word(bytes),
    }
}

/// The word of up to eight bytes, the first the lowest, put together byte by byte.
fn short_word(bytes: &[u8]) -> u64
    requires { length bytes.now ≤ 8 }
    ensures { result ≡ packed_bytes bytes.now }
{
    let mut word = 0;
    for step in 0..bytes.len() {
        let byte = bytes[bytes.len() - 1 - step];
        word = word * 256 + u64::from(byte);
    }
    word
}

/// Up to eight bytes from a place on.
fn eight_from(bytes: &[u8], start: usize) -> &[u8]
    requires { start ≤ length bytes.now }
    ensures is { result.now ≡ take 8 (drop start bytes.now) }
    ensures few { length result.now ≤ 8 }
{
    let rest = &bytes[start..];
    &rest[..rest.len().min(8)]
}

/// Writes bytes into words, eight in a word.
pub(crate) fn put_bytes(words: &mut [u64], bytes: &[u8])
    requires { length words.old ≡ words_for_bytes (length bytes.now) }
    ensures { bytes_in words.new (length bytes.now) ≡ bytes.now }
{
    for index in 0..words.len() {
        words[index] = word_of(eight_from(bytes, 8 * index));
    }
}

/// Writes the bytes of fields into words, each field from a word of its own on.
pub fn put_areas(words: &mut [u64], areas: &[Octets])
    requires { length words.old ≡ byte_words (map (λ (area : List ℕ). length area) areas.now) }
    ensures { areas_in words.new (map (λ (area : List ℕ). length area) areas.now) ≡ areas.now }
{
    if let [area, rest @ ..] = areas {
        let (here, behind) = words.split_at_mut(area.len().div_ceil(8));
        put_bytes(here, area.as_slice());
        put_areas(behind, rest);
    }
}
