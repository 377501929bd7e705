//! Lists written at their places.
ghost use Rattle.std.specs.Prelude.{ℕ, List, ◌≡◌, ◌+◌, ◌*◌, ◌^◌, ◌<◌, ◌≤◌, [], length, replicate, All, IfOk};
ghost use Rattle.std.specs.Option.{option_map};
ghost use Rattle.bit_array.specs.Element.{element_of, number_of, words_of};
ghost use Rattle.row_model.specs.Lent.{lent_row};
ghost use Rattle.list_codec.specs.ListPlace.{pointer_width, element_width, end_at, elements_between, SpellsList};
ghost use Rattle.list_codec.specs.Widths.{elements_of_row};
ghost use Rattle.list_codec.specs.Packing.{HasRoom, CanPack, IsPacked, WordsOf, elements_of_place, elements_of_places};

use bit_array::{set_element, zeros};
use row_model::{Areas, LentRow, Packed, PlacedRows, Row, Widths, Words};
use schema_model::Schema;
use std::alloc::{AllocError, Global};

/// The packed words of the lists of a LIST type, place by place; a place without a row repeats the pointer before it.
///
/// The widths hold the number of all elements and each of them.
pub fn pack<P: PlacedRows>(
    alloc: Global,
    _schema: &Schema,
    widths: &Widths,
    rows: &P,
) -> Result<Packed, AllocError>
    requires { CanPack _schema.now.shape widths.now (P.places rows.now) }
    ensures packed { IfOk result (λ packed. IsPacked widths.now (P.places rows.now) packed.first packed.second) }
    ensures areas { IfOk result (λ packed. packed.areas ≡ []) }
{
    let (first, second) = pack_words(alloc, widths, rows)?;
    Ok(Packed {
        first: Words::from_vec(first),
        second: Words::from_vec(second),
        areas: Areas::new(alloc),
    })
}

/// The pointer words and the element words.
fn pack_words<P: PlacedRows>(
    alloc: Global,
    widths: &Widths,
    rows: &P,
) -> Result<(Vec<u64>, Vec<u64>), AllocError>
    requires two { length widths.now ≡ 2 }
    requires narrow { All (λ width. width ≤ 64) widths.now }
    requires below { length (elements_of_places (P.places rows.now)) < 2 ^ pointer_width widths.now }
    requires small { All (λ element. element < 2 ^ element_width widths.now) (elements_of_places (P.places rows.now)) }
    ensures { IfOk result (λ words. WordsOf widths.now (P.places rows.now) words.0.items words.1.items (length (P.places rows.now)) (length (elements_of_places (P.places rows.now)))) }
{
    let mut first = zeros_for(alloc, rows.count() as u64, *widths.get(0))?;
    let mut second = zeros_for(alloc, count_of(alloc, rows)?, *widths.get(1))?;
    let mut end = 0;
    for place in 0..rows.count() {
        let lent = rows.place(alloc, place)?;
        let elements = elements_in(&lent);
        end = put_row(&mut first, &mut second, widths, place as u64, end, elements);
    }
    Ok((first, second))
}

/// The elements that a place takes: those of its list, none where it has no row.
fn elements_in<'a>(place: &'a Option<LentRow<'_>>) -> &'a [u32]
    ensures { result.now ≡ elements_of_place (option_map lent_row place.now) }
{
    match place {
        Some(lent) => elements_of(lent.row()),
        None => &[],
    }
}

/// How many elements the lists of all places have.
fn count_of<P: PlacedRows>(alloc: Global, rows: &P) -> Result<u64, AllocError>
    requires { length (elements_of_places (P.places rows.now)) < 2 ^ 64 }
    ensures { IfOk result (λ count. count ≡ length (elements_of_places (P.places rows.now))) }
{
    let mut count = 0;
    for place in 0..rows.count() {
        let lent = rows.place(alloc, place)?;
        count += elements_in(&lent).len() as u64;
    }
    Ok(count)
}

/// Words of zeros for so many elements of a width.
fn zeros_for(alloc: Global, count: u64, width: u32) -> Result<Vec<u64>, AllocError>
    ensures long { IfOk result (λ words. length words.items ≡ words_of (count * width)) }
    ensures few { IfOk result (λ words. 64 * length words.items < 2 ^ 64) }
    ensures zero { IfOk result (λ words. words.items ≡ replicate (length words.items) 0) }
{
    let bits = u128::from(count) * u128::from(width);
    if bits > 1 << 63 {
        return Err(AllocError);
    }
    zeros(alloc, bits as u64)
}

/// Writes a list at a place: its elements from a start on, counted in elements, and its end, which is answered, as the pointer.
///
/// The places before hold lists whose ends are not above the start, and keep them. Nothing is allocated.
pub fn put_row(
    first: &mut [u64],
    second: &mut [u64],
    widths: &Widths,
    place: u64,
    start: u64,
    elements: &[u32],
) -> u64
    requires { HasRoom widths.now first.old second.old place start elements.now }
    ensures end { result ≡ start + length elements.now }
    ensures pointer { end_at widths.now first.new place ≡ result }
    ensures spelled { SpellsList widths.now result first.new second.new place elements.now }
    ensures earlier { (before total : ℕ) (list : List ℕ) → before < place → total ≤ start → SpellsList widths.now total first.old second.old before list → SpellsList widths.now total first.new second.new before list }
    ensures pointer_bits { number_of first.old < 2 ^ (place * pointer_width widths.now) → number_of first.new < 2 ^ ((place + 1) * pointer_width widths.now) }
    ensures element_bits { number_of second.old < 2 ^ (start * element_width widths.now) → number_of second.new < 2 ^ (result * element_width widths.now) }
{
    let pointer_width = *widths.get(0);
    let end = start + elements.len() as u64;
    set_element(first, place * u64::from(pointer_width), pointer_width, end);
    put_elements(second, start, *widths.get(1), elements);
    end
}

/// Writes elements of a width from a start on.
fn put_elements(words: &mut [u64], start: u64, width: u32, elements: &[u32])
    requires narrow { width ≤ 64 }
    requires held { (start + length elements.now) * width ≤ 64 * length words.old }
    requires few { 64 * length words.old < 2 ^ 64 }
    requires small { All (λ element. element < 2 ^ width) elements.now }
    ensures are { elements_between words.new width start (start + length elements.now) ≡ elements.now }
    ensures before { (at len : ℕ) → at + len ≤ start * width → element_of words.new at len ≡ element_of words.old at len }
    ensures bits { number_of words.old < 2 ^ (start * width) → number_of words.new < 2 ^ ((start + length elements.now) * width) }
{
    let mut at = start * u64::from(width);
    for element in elements {
        set_element(words, at, width, u64::from(*element));
        at += u64::from(width);
    }
}

/// The elements of a list, none of a row of another kind.
pub fn elements_of(row: &Row) -> &[u32]
    ensures { result.now ≡ elements_of_row row.now }
{
    match row {
        Row::List(ordinals) => ordinals.as_slice(),
        _ => &[],
    }
}
