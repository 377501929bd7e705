//! A half of a type: what describes its words, and how many these are.
ghost use Rattle.std.specs.Prelude.{◌≡◌, ◌^◌, ◌<◌, sum};
ghost use Rattle.packed_half.specs.Half.{place_words, item_words, byte_words, words_for};

use ordinal_set::OrdinalSet;
use row_model::{Widths, Words};
use schema_model::Shape;
use type_rows::{fixed_words, words_needed};

/// What describes the words of a half of a type: with the shape of the type it says where each thing stands in them.
///
/// The words of the places come first, those of the items behind them, and then for each field the words of its bytes, eight bytes in a word, the
/// first byte the lowest.
#[derive(Debug, Drop)]
pub struct HalfShape {
    /// The greatest ordinal that has a place; none where there is no place.
    pub max: Option<u32>,
    /// The widths of the parts of a row, in bits, in a blob's order.
    pub widths: Widths,
    /// The number of elements or buckets; 0 for an OBJECT.
    pub total: u64,
    /// The number of variable bytes of each field of an OBJECT, 0 for a field of a fixed kind; none for the other kinds.
    pub lengths: Words,
    /// The live ordinals.
    pub live: OrdinalSet,
}

/// How many words the places take.
pub(crate) fn place_words(shape: &Shape, half: &HalfShape) -> u128
    ensures { result ≡ place_words shape.now half.now }
{
    words_needed(shape, half.max, half.widths.as_slice())
}

/// How many words the elements or buckets take.
pub(crate) fn item_words(shape: &Shape, half: &HalfShape) -> u128
    ensures { result ≡ item_words shape.now half.now }
{
    fixed_words(shape, None, half.widths.as_slice(), half.total)
}

/// How many words the bytes of fields take that have so many bytes.
pub(crate) fn byte_words(lengths: &[u64]) -> u128
    ensures { result ≡ byte_words lengths.now }
{
    lengths
        .iter()
        .map(|length| u128::from(length.div_ceil(8)))
        .sum()
}

/// How many words a half takes: those of its places, its elements or buckets, and the bytes of its fields. It takes no memory.
pub fn words_of_half(shape: &Shape, half: &HalfShape) -> u64
    requires { words_for shape.now half.now < 2 ^ 64 }
    ensures { result ≡ words_for shape.now half.now }
{
    let fixed = fixed_words(shape, half.max, half.widths.as_slice(), half.total);
    (fixed + byte_words(half.lengths.as_slice())) as u64
}

/// How many variable bytes a half has. It takes no memory.
pub fn bytes_of_half(half: &HalfShape) -> u64
    requires { sum half.now.lengths < 2 ^ 64 }
    ensures { result ≡ sum half.now.lengths }
{
    let bytes: u128 = half
        .lengths
        .as_slice()
        .iter()
        .map(|length| u128::from(*length))
        .sum();
    bytes as u64
}
