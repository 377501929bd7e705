//! Lists, laid out in the words of a half.
ghost use Rattle.std.specs.Prelude.{◌≡◌, ◌*◌, List, ℕ, replicate, IfOk, OnOk};
ghost use Rattle.std.specs.FinMap.{get, keys};
ghost use Rattle.bit_array.specs.Element.{words_of};
ghost use Rattle.schema_model.specs.declared.schema.Shape.{Shape};
ghost use Rattle.list_codec.specs.ListPlace.{pointer_width, element_width};
ghost use Rattle.list_codec.specs.Packing.{HasRoom, IsPacked, elements_of_place};
ghost use Rattle.type_rows.specs.Layout.{places_of};
ghost use Rattle.packed_half.specs.Laying.{CanLay, IsListPut, places_in};

use crate::{HalfShape, NewRows};
use row_model::{Row, Widths};
use std::alloc::{AllocError, Global};
use type_rows::place_count;

/// Lays the lists of a LIST type out, place by place, in words of zeros.
pub(crate) fn lay_lists<N: NewRows>(
    alloc: Global,
    half: &HalfShape,
    new: &N,
    first: &mut [u64],
    second: &mut [u64],
) -> Result<(), AllocError>
    requires suits { (element : List ℕ) × N.suits new.now (Shape.List element) }
    requires can { (element : List ℕ) × CanLay (Shape.List element) half.now (N.rows new.now) }
    requires first { first.old ≡ replicate (words_of (places_of half.now.max * pointer_width half.now.widths)) 0 }
    requires second { second.old ≡ replicate (words_of (half.now.total * element_width half.now.widths)) 0 }
    ensures { OnOk result (IsPacked half.now.widths (places_in (N.rows new.now) (places_of half.now.max)) first.new second.new) }
{
    let mut end = 0;
    for place in 0..place_count(half.max) {
        end = put_place(alloc, half, new, first, second, place as u32, end)?;
    }
    Ok(())
}

/// Writes the list of a place, or what stands where none is live, and answers where its elements end.
fn put_place<N: NewRows>(
    alloc: Global,
    half: &HalfShape,
    new: &N,
    first: &mut [u64],
    second: &mut [u64],
    place: u32,
    start: u64,
) -> Result<u64, AllocError>
    requires suits { (element : List ℕ) × N.suits new.now (Shape.List element) }
    requires live { keys (N.rows new.now) ≡ half.now.live }
    requires room { HasRoom half.now.widths first.old second.old place start (elements_of_place (get (N.rows new.now) place)) }
    ensures { IfOk result (λ end. IsListPut half.now.widths first.old second.old first.new second.new place start end (elements_of_place (get (N.rows new.now) place))) }
{
    if half.live.contains(place) {
        return new.put_list(alloc, &half.widths, first, second, place, start);
    }
    Ok(put_elements(&half.widths, first, second, u64::from(place), start, &[]))
}

/// Writes elements at a place, from a start on, and answers where they end. It takes no memory.
pub fn put_elements(
    widths: &Widths,
    first: &mut [u64],
    second: &mut [u64],
    place: u64,
    start: u64,
    elements: &[u32],
) -> u64
    requires { HasRoom widths.now first.old second.old place start elements.now }
    ensures { IsListPut widths.now first.old second.old first.new second.new place start result elements.now }
{
    list_codec::put_row(first, second, widths, place, start, elements)
}

/// The elements that a place takes: those of its list, none where it has no row.
pub fn elements_in(row: &Option<Row>) -> &[u32]
    ensures { result.now ≡ elements_of_place row.now }
{
    match row {
        Some(Row::List(ordinals)) => ordinals.as_slice(),
        _ => &[],
    }
}
