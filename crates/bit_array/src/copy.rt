//! Runs of bits, copied from words to words.
ghost use Rattle.std.specs.Prelude.{ℕ, ◌≡◌, ◌+◌, ◌*◌, ◌^◌, ◌<◌, ◌≤◌, ◌⊎◌, length};
ghost use Rattle.bit_array.specs.Element.{element_of, SetsBlock};

use crate::words::{element, put_block};

/// Writes so many bits of one word array, from bit `at` on, into another one, from bit `place` on. No other bit changes.
pub fn copy_bits(from: &[u64], at: u64, to: &mut [u64], place: u64, len: u64)
    requires source { at + len ≤ 64 * length from.now }
    requires inside { place + len ≤ 64 * length to.old }
    requires counted { (at + len < 2 ^ 64) × (place + len < 2 ^ 64) }
    ensures block { SetsBlock to.old to.new place len (element_of from.now at len) }
    ensures each { (bit width : ℕ) → bit + width ≤ len → element_of to.new (place + bit) width ≡ element_of from.now (at + bit) width }
    ensures others { (bit width : ℕ) → (bit + width ≤ place) ⊎ (place + len ≤ bit) → element_of to.new bit width ≡ element_of to.old bit width }
{
    copy_block(from, at, to, place, len);
}

/// Copies so many bits of one word array, from bit `at` on, into another one, from bit `place` on: its contract tells of the number that the words stand for.
fn copy_block(from: &[u64], at: u64, to: &mut [u64], place: u64, len: u64)
    requires source { at + len ≤ 64 * length from.now }
    requires inside { place + len ≤ 64 * length to.old }
    requires counted { (at + len < 2 ^ 64) × (place + len < 2 ^ 64) }
    ensures { SetsBlock to.old to.new place len (element_of from.now at len) }
{
    if len <= 64 {
        return copy_piece(from, at, to, place, len as u32);
    }
    let head = (64 - place % 64) % 64;
    copy_piece(from, at, to, place, head as u32);
    let words = (len - head) / 64;
    copy_words(from, at + head, to, (place + head) / 64, words);
    let done = head + 64 * words;
    copy_piece(from, at + done, to, place + done, (len - done) as u32);
}

/// Copies 64 bits at most of one word array, from bit `at` on, into another one, from bit `place` on.
fn copy_piece(from: &[u64], at: u64, to: &mut [u64], place: u64, len: u32)
    requires width { len ≤ 64 }
    requires source { at + len ≤ 64 * length from.now }
    requires inside { place + len ≤ 64 * length to.old }
    ensures { SetsBlock to.old to.new place len (element_of from.now at len) }
{
    put_block(to, place, len, element(from, at, len));
}

/// Copies bits of one word array, from bit `at` on, into so many whole words of another one, from word `first` on.
fn copy_words(from: &[u64], at: u64, to: &mut [u64], first: u64, count: u64)
    requires source { at + 64 * count ≤ 64 * length from.now }
    requires inside { first + count ≤ length to.old }
    ensures { SetsBlock to.old to.new (64 * first) (64 * count) (element_of from.now at (64 * count)) }
{
    let base = at / 64;
    let shift = (at % 64) as u32;
    if shift == 0 {
        copy_whole(from, base, to, first, count);
    } else {
        copy_shifted(from, base, shift, to, first, count);
    }
}

/// Copies whole words of one word array, from word `base` on, into as many words of another one, from word `first` on.
fn copy_whole(from: &[u64], base: u64, to: &mut [u64], first: u64, count: u64)
    requires source { base + count ≤ length from.now }
    requires inside { first + count ≤ length to.old }
    ensures { SetsBlock to.old to.new (64 * first) (64 * count) (element_of from.now (64 * base) (64 * count)) }
{
    let (begin, end) = (first as usize, (first + count) as usize);
    let (start, stop) = (base as usize, (base + count) as usize);
    to[begin..end].copy_from_slice(&from[start..stop]);
}

/// Copies bits of one word array, from bit `shift` of word `base` on, into so many whole words of another one: each is made of the end of one word and the
/// front of the next.
fn copy_shifted(from: &[u64], base: u64, shift: u32, to: &mut [u64], first: u64, count: u64)
    requires some { 1 ≤ shift }
    requires below { shift < 64 }
    requires source { base + count < length from.now }
    requires inside { first + count ≤ length to.old }
    ensures { SetsBlock to.old to.new (64 * first) (64 * count) (element_of from.now (64 * base + shift) (64 * count)) }
{
    for index in 0..count {
        let place = (base + index) as usize;
        let word = (from[place] >> shift) | (from[place + 1] << (64 - shift));
        put_word(to, (first + index) as usize, word);
    }
}

/// Writes a whole word: the 64 bits from its first one on.
#[inline(always)]
fn put_word(words: &mut [u64], place: usize, word: u64)
    requires { place < length words.old }
    ensures { SetsBlock words.old words.new (64 * place) 64 word }
{
    words[place] = word;
}
