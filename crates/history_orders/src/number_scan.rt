//! The first of the records of a column whose element is a number: a pass over packed words that makes nothing.
ghost use Rattle.std.specs.Prelude.{◌≡◌, ◌+◌, ◌*◌, ◌^◌, ◌<◌, ◌≤◌, length};
ghost use Rattle.bit_array.specs.Element.{element_of};
ghost use Rattle.history_orders.specs.Scanned.{HasWordsBelow, LacksNumber};

use object_codec::Column;

/// How many of the first records of a column, of so many, begin before the last word: of these an element is read from two words, whatever bit it begins at.
pub(crate) fn near(column: &Column<'_>, bound: u32) -> u32
    ensures few { result ≤ bound }
    ensures words { HasWordsBelow column.now result }
{
    if column.size == 0 {
        return 0;
    }
    let bits = (column.first.len() as u64).min(1 << 57).saturating_sub(1) * 64;
    let count = bits.saturating_sub(column.before) / column.size;
    count.min(u64::from(bound)) as u32
}

/// The first of the records from one place up to another whose element in a column is a number, and the other place where there is none.
pub(crate) fn next_with(column: &Column<'_>, number: u64, from: u32, to: u32) -> u32
    requires some { 1 ≤ column.now.width }
    requires narrow { column.now.width ≤ 64 }
    requires rises { from ≤ to }
    requires words { HasWordsBelow column.now to }
    ensures from { from ≤ result }
    ensures to { result ≤ to }
    ensures lacks { LacksNumber column.now number from result }
{
    let (words, width) = (column.first, column.width);
    let (size, before) = (column.size, column.before);
    for place in from..to {
        if two_word_element(words, u64::from(place) * size + before, width) == number {
            return place;
        }
    }
    to
}

// The element of a width, in bits, that begins at a bit of a word behind which there is another one.
#[inline(always)]
fn two_word_element(words: &[u64], at: u64, width: u32) -> u64
    requires some { 1 ≤ width }
    requires narrow { width ≤ 64 }
    requires two { at + 64 < 64 * length words.now }
    ensures { result ≡ element_of words.now at width }
{
    let place = (at / 64) as usize;
    let shift = (at % 64) as u32;
    let low = words[place] >> shift;
    let high = (words[place + 1] << 1) << (63 - shift);
    (low | high) & (u64::MAX >> (64 - width))
}
