//! What a consumer sees of a blob's records: their elements, in words of its own.
ghost use Rattle.std.specs.Prelude.{◌≡◌, ◌+◌, ◌-◌, ◌*◌, ◌^◌, ◌<◌, ◌≤◌, ◌⊎◌, ℕ, All, IfOk, IfSome, length, map, sum};
ghost use Rattle.bit_array.specs.Element.{AreWords, element_of, number_of, words_of};
ghost use Rattle.seen_patches.specs.ByName.{item_named};
ghost use Rattle.seen_patches.specs.Elements.{IsHeld, column_element, element_or, elements_in, elements_of};
ghost use Rattle.seen_patches.specs.Seen.{seen_elements, seen_widths};

use crate::column::{Column, columns_of};
use crate::named_fields::NamedFields;
use bit_array::{all_ones, element, set_element, total_width, zeros};
use row_model::Words;
use schema_model::Field;
use std::alloc::{AllocError, Global};

/// The most ordinals that a blob can add to a type: each takes a byte of it at least.
const MOST_PLACES: usize = 0x1000_0000;

/// The most bits that are laid out, in 2^28 words. Within the limits there are fewer: 64 for each word that the limit lets the blob's columns have, and
/// at each of 2^22 places 2 for each of 1,024 fields that the blob lacks.
const MOST_BITS: u64 = 0x4_0000_0000;

/// The element of a column at a place; all ones, which is null, where there is no column.
#[inline(always)]
fn element_or_ones(words: &[u64], source: Option<Column>, width: u32, place: u64) -> u64
    requires narrow { width ≤ 64 }
    requires held { IfSome source (λ column. IsHeld words.now (place + 1) column × (column.width ≡ width)) }
    ensures is { result ≡ element_or words.now place source (2 ^ width - 1) }
    ensures small { result < 2 ^ width }
{
    match source {
        Some(column) => element(words, place * column.size + column.before, column.width),
        None => all_ones(width),
    }
}

/// Writes a column of so many records: the elements of a column of other words, or nulls where there is none.
fn put_column(from: &[u64], source: Option<Column>, to: &mut [u64], target: Column, places: u64)
    requires target { IsHeld to.old places target }
    requires source { IfSome source (λ column. IsHeld from.now places column × (column.width ≡ target.width)) }
    ensures put { (place : ℕ) → place < places → column_element to.new place target ≡ element_or from.now place source (2 ^ target.width - 1) }
    ensures earlier { (place at len : ℕ) → at + len ≤ target.before → element_of to.new (place * target.size + at) len ≡ element_of to.old (place * target.size + at) len }
    ensures behind { (at len : ℕ) → places * target.size ≤ at → element_of to.new at len ≡ element_of to.old at len }
    ensures long { length to.new ≡ length to.old }
{
    for place in 0..places {
        let value = element_or_ones(from, source, target.width, place);
        set_element(to, place * target.size + target.before, target.width, value);
    }
}

/// The column of the blob's field of a name, if there is one.
fn source_of(theirs: &NamedFields<'_>, columns: &[Column], name: &str) -> Option<Column>
    requires { length columns.now ≡ length theirs.now }
    ensures { result ≡ item_named theirs.now columns.now name.now }
{
    let place = theirs.find(name)?;
    Some(columns[place as usize])
}

/// Writes the columns of a consumer's fields into words: those of the blob's fields of their names, and nulls for the fields that the blob lacks.
fn put_columns(
    mine: &[Field],
    theirs: &NamedFields<'_>,
    columns: &[Column],
    from: &[u64],
    widths: &[u32],
    to: &mut [u64],
    places: u64,
)
    requires each { length columns.now ≡ length theirs.now }
    requires held { All (IsHeld from.now places) columns.now }
    requires widths { widths.now ≡ seen_widths mine.now theirs.now (map (λ column. column.width) columns.now) }
    requires few { sum widths.now ≤ 2 ^ 17 }
    requires short { places ≤ 2 ^ 32 }
    requires room { places * sum widths.now ≤ 64 * length to.old }
    ensures put { (place : ℕ) → place < places → elements_of widths.now to.new place ≡ seen_elements mine.now theirs.now (elements_in from.now place columns.now) }
    ensures bits { number_of to.old < 2 ^ (places * sum widths.now) → number_of to.new < 2 ^ (places * sum widths.now) }
    ensures long { length to.new ≡ length to.old }
{
    let size = total_width(widths) as u64;
    let mut before = 0;
    for (index, field) in mine.iter().enumerate() {
        let width = widths[index];
        let target = Column {
            size,
            before,
            width,
        };
        let source = source_of(theirs, columns, field.name.text());
        put_column(from, source, to, target, places);
        before += u64::from(width);
    }
}

/// How many bits so many records of fields of these widths take, unless they are more than any within the limits.
fn bits_for(places: usize, widths: &[u32]) -> Result<u64, AllocError>
    requires { sum widths.now ≤ 2 ^ 17 }
    ensures { IfOk result (λ bits. (bits ≡ places * sum widths.now) × (places ≤ 2 ^ 32)) }
{
    if places > MOST_PLACES {
        return Err(AllocError);
    }
    let bits = places as u64 * total_width(widths) as u64;
    if bits > MOST_BITS {
        return Err(AllocError);
    }
    Ok(bits)
}

/// Words are numbers of 64 bits. That is only told of them.
fn tell_words(words: &[u64])
    ensures { AreWords words.now }
{}

/// The records of a consumer, of fields of the widths `seen`, in words of their own: of each of so many records of the blob, whose fields have the
/// widths `widths`.
pub(crate) fn seen_words(
    alloc: Global,
    mine: &[Field],
    theirs: &NamedFields<'_>,
    widths: &[u32],
    first: &[u64],
    seen: &[u32],
    places: usize,
) -> Result<Words, AllocError>
    requires each { length widths.now ≡ length theirs.now }
    requires narrow { All (λ width. width ≤ 64) widths.now }
    requires small { sum widths.now ≤ 2 ^ 16 }
    requires enough { places * sum widths.now ≤ 64 * length first.now }
    requires widths { seen.now ≡ seen_widths mine.now theirs.now widths.now }
    requires few { sum seen.now ≤ 2 ^ 17 }
    ensures long { IfOk result (λ words. length words ≡ words_of (places * sum seen.now)) }
    ensures are { IfOk result AreWords }
    ensures elements { IfOk result (λ words. (place : ℕ) → place < places → elements_of seen.now words place ≡ seen_elements mine.now theirs.now (elements_of widths.now first.now place)) }
    ensures bits { IfOk result (λ words. number_of words < 2 ^ (places * sum seen.now)) }
{
    let bits = bits_for(places, seen)?;
    let columns = columns_of(alloc, widths)?;
    let mut words = zeros(alloc, bits)?;
    put_columns(
        mine,
        theirs,
        columns.as_slice(),
        first,
        seen,
        words.as_mut_slice(),
        places as u64,
    );
    tell_words(words.as_slice());
    Ok(Words::from_vec(words))
}
