//! How many places and words the layout of a type has.
ghost use Rattle.std.specs.Prelude.{◌≡◌, ◌+◌, ◌*◌, ◌^◌, ◌<◌, ◌≤◌};
ghost use Rattle.bit_array.specs.Element.{words_of};
ghost use Rattle.type_rows.specs.Layout.{places_of, place_bits, item_bits, words_needed, own_bits, counted_bits, places_counted};

use bit_array::total_width;
use schema_model::Shape;

/// How many places there are up to a max ordinal.
pub fn place_count(max: Option<u32>) -> u64
    ensures is { result ≡ places_of max }
    ensures small { result < 2 ^ 33 }
{
    match max {
        Some(max) => u64::from(max) + 1,
        None => 0,
    }
}

/// How many bits a place of a type of this shape takes.
fn place_bits(shape: &Shape, widths: &[u32]) -> u128
    ensures is { result ≡ place_bits shape.now widths.now }
    ensures small { result < 2 ^ 96 }
{
    match (shape, widths) {
        (Shape::Object(_, _), _) => total_width(widths),
        (Shape::List(_), [pointer, ..]) => u128::from(*pointer),
        (Shape::Set(_), [pointer, size, ..]) => u128::from(*pointer) + u128::from(*size),
        (Shape::Map(_, _), [pointer, size, ..]) => u128::from(*pointer) + u128::from(*size),
        _ => 0,
    }
}

/// How many bits the limit on words counts for a place of a type of this shape: so many of the record of an OBJECT.
fn counted_bits(shape: &Shape, own: u32, widths: &[u32]) -> u128
    ensures is { result ≡ counted_bits shape.now own widths.now }
    ensures small { result < 2 ^ 96 }
{
    match shape {
        Shape::Object(_, _) => u128::from(own),
        _ => place_bits(shape, widths),
    }
}

/// How many bits the record of an OBJECT takes; 0 for the other kinds.
pub fn own_bits(shape: &Shape, widths: &[u32]) -> u32
    ensures { result ≡ own_bits shape.now widths.now }
{
    match shape {
        Shape::Object(_, _) => total_width(widths).min(u128::from(u32::MAX)) as u32,
        _ => 0,
    }
}

/// How many bits an element of a LIST or a bucket of a SET or MAP takes; 0 for an OBJECT.
fn item_bits(shape: &Shape, widths: &[u32]) -> u128
    ensures is { result ≡ item_bits shape.now widths.now }
    ensures small { result < 2 ^ 33 }
{
    match (shape, widths) {
        (Shape::List(_), [_, width, ..]) => u128::from(*width),
        (Shape::Set(_), [_, _, width, ..]) => u128::from(*width),
        (Shape::Map(_, _), [_, _, key, value, ..]) => u128::from(*key) + u128::from(*value),
        _ => 0,
    }
}

/// How many words so many bits take.
fn words_of(bits: u128) -> u128
    ensures is { result ≡ words_of bits }
    ensures small { result ≤ 2 ^ 122 }
{
    bits.div_ceil(64)
}

/// How many words the places of a type of this shape need, by the max ordinal and the widths of its layout, in bits.
pub fn words_needed(shape: &Shape, max: Option<u32>, widths: &[u32]) -> u128
    ensures { result ≡ words_needed shape.now (record { max = max; widths = widths.now }) }
{
    words_of(u128::from(place_count(max)) * place_bits(shape, widths))
}

/// How many fixed words a type of this shape has, whose rows have so many elements or buckets.
pub fn fixed_words(shape: &Shape, max: Option<u32>, widths: &[u32], items: u64) -> u128
    ensures { result ≡ words_needed shape.now (record { max = max; widths = widths.now }) + words_of (items * item_bits shape.now widths.now) }
{
    let of_places = words_of(u128::from(place_count(max)) * place_bits(shape, widths));
    of_places + words_of(u128::from(items) * item_bits(shape, widths))
}

/// How many words the limit on words counts for a type of this shape, whose rows have so many elements or buckets, where it counts so many bits of the
/// record of an OBJECT.
pub fn counted_words(shape: &Shape, own: u32, max: Option<u32>, widths: &[u32], items: u64) -> u128
    ensures { result ≡ places_counted shape.now own (record { max = max; widths = widths.now }) + words_of (items * item_bits shape.now widths.now) }
{
    let of_places = words_of(u128::from(place_count(max)) * counted_bits(shape, own, widths));
    of_places + words_of(u128::from(items) * item_bits(shape, widths))
}
