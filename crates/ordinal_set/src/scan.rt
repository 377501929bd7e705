//! Bits of words, scanned for the members that they stand for.
ghost use Rattle.std.specs.Prelude.{ℕ, ◌≡◌, ◌*◌, ◌^◌, ◌≤◌, ◌==◌, ◌&&◌, not, length, max, vec_len, slice_index, OnOk};
ghost use Rattle.ordinal_set.specs.Ordinals.{bound_of, TellsNext};
ghost use Rattle.ordinal_set.specs.Population.{has_bit, population_of, FitOrdinals};

use std::alloc::AllocError;

/// Puts zeros behind the words until they are so many.
pub(crate) fn lengthen(words: &mut Vec<u64>, len: usize) -> Result<(), AllocError>
    ensures kept { (place : ℕ) → slice_index words.new.items place ≡ slice_index words.old.items place }
    ensures reached { OnOk result (len ≤ vec_len words.new) }
    ensures few { vec_len words.new ≤ max (vec_len words.old) len }
{
    if words.len() < len {
        words.resize(len, 0)?;
    }
    Ok(())
}

/// Whether the bit of a number is set.
pub(crate) fn has_set(words: &[u64], ordinal: u32) -> bool
    ensures { result ≡ has_bit words.now ordinal }
{
    let place = (ordinal / 64) as usize;
    place < words.len() && (words[place] >> (ordinal % 64)) & 1 == 1
}

/// The least ordinal whose bit is set and that is not below `ordinal`.
pub(crate) fn next_set(words: &[u64], ordinal: u32) -> Option<u32>
    requires { length words.now ≤ 2 ^ 26 }
    ensures { TellsNext ordinal (population_of words.now) result }
{
    let place = (ordinal / 64) as usize;
    if place >= words.len() {
        return None;
    }
    let word = words[place] & (u64::MAX << (ordinal % 64));
    if word != 0 {
        return Some(place as u32 * 64 + word.trailing_zeros());
    }
    first_set(words, place + 1)
}

/// The least ordinal whose bit is set in the words from the one at `from` on.
fn first_set(words: &[u64], from: usize) -> Option<u32>
    requires { length words.now ≤ 2 ^ 26 }
    ensures { TellsNext (from * 64) (population_of words.now) result }
{
    let mut place = from;
    while place < words.len() {
        let word = words[place];
        if word != 0 {
            return Some(place as u32 * 64 + word.trailing_zeros());
        }
        place += 1;
    }
    None
}

/// One past the greatest ordinal whose bit is set, 0 where no bit is.
pub(crate) fn last_set(words: &[u64]) -> u32
    requires { FitOrdinals words.now }
    ensures { result ≡ bound_of (population_of words.now) }
{
    let mut place = words.len();
    while place > 0 {
        let word = words[place - 1];
        if word != 0 {
            return (place - 1) as u32 * 64 + (64 - word.leading_zeros());
        }
        place -= 1;
    }
    0
}

/// How many bits are set.
pub(crate) fn count_set(words: &[u64]) -> u64
    requires { length words.now ≤ 2 ^ 26 }
    ensures { result ≡ length (population_of words.now) }
{
    let mut count: u64 = 0;
    for word in words {
        count += u64::from(word.count_ones());
    }
    count
}

/// Clears the bit of a number.
pub(crate) fn clear_bit(words: &mut Vec<u64>, ordinal: u32)
    ensures bits { (number : ℕ) → has_bit words.new.items number ≡ (has_bit words.old.items number && not (number == ordinal)) }
    ensures len { length words.new.items ≡ length words.old.items }
{
    let place = (ordinal / 64) as usize;
    if place < words.len() {
        words[place] &= !(1 << (ordinal % 64));
    }
}

/// The word at a place, 0 past the end.
pub(crate) fn word_at(words: &[u64], place: usize) -> u64
    ensures { result ≡ slice_index words.now place }
{
    words.get(place).copied().unwrap_or(0)
}
