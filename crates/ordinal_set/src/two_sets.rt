//! Bits of two word arrays, scanned together, a word of each at a time.
ghost use Rattle.std.specs.Prelude.{◌*◌, ◌^◌, ◌≤◌, ◌<◌, length, max};
ghost use Rattle.ordinal_set.specs.Ordinals.{lacking, TellsNext, IsLeastFree};
ghost use Rattle.ordinal_set.specs.Population.{population_of, FitOrdinals};

use crate::scan::word_at;

/// The least ordinal not below `ordinal` whose bit is set in the words and clear in the others.
pub(crate) fn next_beside(words: &[u64], others: &[u64], ordinal: u32) -> Option<u32>
    requires { length words.now ≤ 2 ^ 26 }
    ensures { TellsNext ordinal (lacking (population_of words.now) (population_of others.now)) result }
{
    let place = (ordinal / 64) as usize;
    if place >= words.len() {
        return None;
    }
    let word = words[place] & !word_at(others, place) & (u64::MAX << (ordinal % 64));
    if word != 0 {
        return Some(place as u32 * 64 + word.trailing_zeros());
    }
    first_beside(words, others, place + 1)
}

/// The least ordinal whose bit is set in the words and clear in the others, from the words at `from` on.
fn first_beside(words: &[u64], others: &[u64], from: usize) -> Option<u32>
    requires { length words.now ≤ 2 ^ 26 }
    ensures { TellsNext (from * 64) (lacking (population_of words.now) (population_of others.now)) result }
{
    let mut place = from;
    while place < words.len() {
        let word = words[place] & !word_at(others, place);
        if word != 0 {
            return Some(place as u32 * 64 + word.trailing_zeros());
        }
        place += 1;
    }
    None
}

/// The least number not below `ordinal` whose bit is clear in both word arrays.
pub(crate) fn next_clear(words: &[u64], others: &[u64], ordinal: u32) -> u32
    requires words { FitOrdinals words.now }
    requires others { FitOrdinals others.now }
    ensures { IsLeastFree ordinal (population_of words.now) (population_of others.now) result }
{
    let place = (ordinal / 64) as usize;
    if place >= words.len().max(others.len()) {
        return ordinal;
    }
    let below = (1 << (ordinal % 64)) - 1;
    let word = word_at(words, place) | word_at(others, place) | below;
    if word != u64::MAX {
        return place as u32 * 64 + word.trailing_ones();
    }
    first_clear(words, others, place + 1)
}

/// The least number whose bit is clear in both word arrays, from the words at `from` on, which may be just behind the last ones.
fn first_clear(words: &[u64], others: &[u64], from: usize) -> u32
    requires words { FitOrdinals words.now }
    requires others { FitOrdinals others.now }
    requires within { from ≤ max (length words.now) (length others.now) }
    requires few { from < 2 ^ 26 }
    ensures { IsLeastFree (from * 64) (population_of words.now) (population_of others.now) result }
{
    let len = words.len().max(others.len());
    for place in from..len {
        let word = word_at(words, place) | word_at(others, place);
        if word != u64::MAX {
            return place as u32 * 64 + word.trailing_ones();
        }
    }
    len as u32 * 64
}
