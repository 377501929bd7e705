//! Sets and maps, laid out in the words of a half.
ghost use Rattle.std.specs.Prelude.{◌≡◌, ◌*◌, ◌<◌, ℕ, replicate, option_copied, IfOk, OnOk};
ghost use Rattle.std.specs.FinMap.{get, keys};
ghost use Rattle.bit_array.specs.Element.{words_of};
ghost use Rattle.bucket_codec.specs.BucketPlace.{place_width, bucket_width};
ghost use Rattle.bucket_codec.specs.Packed.{PacksPairs};
ghost use Rattle.schema_model.specs.declared.schema.Shape.{Shape};
ghost use Rattle.type_rows.specs.Layout.{places_of};
ghost use Rattle.packed_half.specs.Laying.{CanLayRuns, HasRuns, HasRunRoom, IsRunPut};

use crate::{HalfShape, NewRows};
use row_model::Row;
use std::alloc::{AllocError, Global};
use type_rows::place_count;

/// Lays the sets or maps of a type out, place by place, in words of zeros.
pub(crate) fn lay_runs<N: NewRows>(
    alloc: Global,
    half: &HalfShape,
    new: &N,
    first: &mut [u64],
    second: &mut [u64],
) -> Result<(), AllocError>
    requires suits { (shape : Shape) × HasRuns shape × N.suits new.now shape }
    requires can { CanLayRuns half.now (N.rows new.now) }
    requires first { first.old ≡ replicate (words_of (places_of half.now.max * place_width half.now.widths)) 0 }
    requires second { second.old ≡ replicate (words_of (half.now.total * bucket_width half.now.widths)) 0 }
    ensures { OnOk result ((place : ℕ) → place < places_of half.now.max → PacksPairs half.now.widths half.now.total first.new second.new place (get (N.rows new.now) place)) }
{
    let mut end = 0;
    for place in 0..place_count(half.max) {
        end = put_place(alloc, half, new, first, second, place as u32, end)?;
    }
    Ok(())
}

/// Writes the set or map of a place, or what stands where none is live, and answers where its buckets end.
fn put_place<N: NewRows>(
    alloc: Global,
    half: &HalfShape,
    new: &N,
    first: &mut [u64],
    second: &mut [u64],
    place: u32,
    start: u64,
) -> Result<u64, AllocError>
    requires suits { (shape : Shape) × HasRuns shape × N.suits new.now shape }
    requires live { keys (N.rows new.now) ≡ half.now.live }
    requires room { HasRunRoom half.now.widths first.old second.old place start (get (N.rows new.now) place) }
    ensures { IfOk result (λ end. IsRunPut half.now.widths first.old second.old first.new second.new place start end (get (N.rows new.now) place)) }
{
    let widths = half.widths.as_slice();
    if half.live.contains(place) {
        return new.put_run(alloc, widths, first, second, place, start);
    }
    Ok(put_run(widths, first, second, u64::from(place), start, None))
}

/// Writes the set or map of a place, or what stands where there is none, its buckets from a start on, and answers where they end. It takes no memory.
pub fn put_run(
    widths: &[u32],
    first: &mut [u64],
    second: &mut [u64],
    place: u64,
    start: u64,
    row: Option<&Row>,
) -> u64
    requires { HasRunRoom widths.now first.old second.old place start (option_copied row) }
    ensures { IsRunPut widths.now first.old second.old first.new second.new place start result (option_copied row.entry) }
{
    bucket_codec::put_row(widths, row, first, second, place, start)
}
