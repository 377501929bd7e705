//! The rows of a type, laid out in the words of a half.
ghost use Rattle.std.specs.Prelude.{◌≡◌, replicate, OnOk};
ghost use Rattle.packed_half.specs.Half.{words_for};
ghost use Rattle.packed_half.specs.LaidOut.{IsLaidOut};
ghost use Rattle.packed_half.specs.Laying.{CanLay};

use crate::half::{item_words, place_words};
use crate::lists::lay_lists;
use crate::records::lay_records;
use crate::runs::lay_runs;
use crate::{HalfShape, NewRows};
use schema_model::{Schema, Shape};
use std::alloc::{AllocError, Global};

/// Lays rows out in the words of a half: by rising ordinal, with nothing between them.
///
/// The words are zeros, as many as the half takes, and its total and its lengths are those of the rows. Each row is asked for once, as its place
/// comes. Memory is taken for the rows, and for the bytes of the fields of an OBJECT; where it is refused, the words may hold anything.
pub fn lay_out<N: NewRows>(
    alloc: Global,
    schema: &Schema,
    half: &HalfShape,
    new: &N,
    words: &mut [u64],
) -> Result<(), AllocError>
    requires suits { N.suits new.now schema.now.shape }
    requires can { CanLay schema.now.shape half.now (N.rows new.now) }
    requires zeros { words.old ≡ replicate (words_for schema.now.shape half.now) 0 }
    ensures { OnOk result (IsLaidOut schema.now.shape half.now words.new (N.rows new.now)) }
{
    let places = place_words(&schema.shape, half) as usize;
    let items = item_words(&schema.shape, half) as usize;
    let (first, behind) = words.split_at_mut(places);
    let (second, bytes) = behind.split_at_mut(items);
    match &schema.shape {
        Shape::Object(_, _) => lay_records(alloc, schema, half, new, first, bytes),
        Shape::List(_) => lay_lists(alloc, half, new, first, second),
        _ => lay_runs(alloc, half, new, first, second),
    }
}
