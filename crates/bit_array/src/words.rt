//! Elements in words.
ghost use Rattle.std.specs.Prelude.{ℕ, ◌≡◌, ◌+◌, ◌*◌, ◌/◌, ◌%◌, ◌^◌, ◌<◌, ◌≤◌, ◌⊎◌, length, slice_index};
ghost use Rattle.bit_array.specs.Element.{element_of, SetsBlock};

/// The element of this width, in bits, that begins at bit `at` of a word array, its lowest bit first.
///
/// Bit i of the array is bit i mod 64, counted from the least, of word i div 64. An element of width 0 is 0.
pub fn element(words: &[u64], at: u64, width: u32) -> u64
    requires width { width ≤ 64 }
    requires inside { at + width ≤ 64 * length words.now }
    ensures { result ≡ element_of words.now at width }
{
    if width == 0 {
        return 0;
    }
    let place = (at / 64) as usize;
    let shift = (at % 64) as u32;
    let low = words[place] >> shift;
    if shift + width <= 64 {
        return low_bits(low, width);
    }
    low_bits(low | (words[place + 1] << (64 - shift)), width)
}

/// The element at an index of a word array whose elements all have this width, in bits.
pub fn element_at(words: &[u64], index: u64, width: u32) -> u64
    requires width { width ≤ 64 }
    requires inside { (index + 1) * width ≤ 64 * length words.now }
    ensures { result ≡ element_of words.now (index * width) width }
{
    let at = u128::from(index) * u128::from(width);
    element(&words[(at / 64) as usize..], (at % 64) as u64, width)
}

/// Writes the element of this width, in bits, that begins at bit `at` of a word array, its lowest bit first. No other bit changes.
pub fn set_element(words: &mut [u64], at: u64, width: u32, value: u64)
    requires width { width ≤ 64 }
    requires inside { at + width ≤ 64 * length words.old }
    requires small { value < 2 ^ width }
    ensures block { SetsBlock words.old words.new at width value }
    ensures is { element_of words.new at width ≡ value }
    ensures others { (bit len : ℕ) → (bit + len ≤ at) ⊎ (at + width ≤ bit) → element_of words.new bit len ≡ element_of words.old bit len }
{
    put_block(words, at, width, value);
}

/// Writes the element of this width, in bits, that begins at bit `at` of a word array: its contract tells of the number that the words stand for.
pub(crate) fn put_block(words: &mut [u64], at: u64, width: u32, value: u64)
    requires width { width ≤ 64 }
    requires inside { at + width ≤ 64 * length words.old }
    requires small { value < 2 ^ width }
    ensures { SetsBlock words.old words.new at width value }
{
    if width == 0 {
        return;
    }
    let place = (at / 64) as usize;
    let shift = (at % 64) as u32;
    let room = 64 - shift;
    if width <= room {
        return put_in_word(words, place, shift, width, value);
    }
    put_in_word(words, place, shift, room, low_bits(value, room));
    put_in_word(words, place + 1, 0, width - room, value >> room);
}

/// Writes an element that lies in one word, from a bit of it on.
fn put_in_word(words: &mut [u64], place: usize, shift: u32, width: u32, value: u64)
    requires some { 1 ≤ width }
    requires width { shift + width ≤ 64 }
    requires inside { place < length words.old }
    requires small { value < 2 ^ width }
    ensures { SetsBlock words.old words.new (64 * place + shift) width value }
{
    let old = in_word(words, place, shift, width);
    words[place] = words[place] - (old << shift) + (value << shift);
}

/// The element that lies in one word, from a bit of it on.
fn in_word(words: &[u64], place: usize, shift: u32, width: u32) -> u64
    requires some { 1 ≤ width }
    requires width { shift + width ≤ 64 }
    requires inside { place < length words.now }
    ensures is { result ≡ element_of words.now (64 * place + shift) width }
    ensures digits { result ≡ slice_index words.now place / 2 ^ shift % 2 ^ width }
    ensures fits { slice_index words.now place < 2 ^ 64 }
{
    low_bits(words[place] >> shift, width)
}

/// The lowest `width` bits of a word.
fn low_bits(word: u64, width: u32) -> u64
    requires some { 1 ≤ width }
    requires width { width ≤ 64 }
    ensures { result ≡ word % 2 ^ width }
{
    word & (u64::MAX >> (64 - width))
}
