//! Records, laid out in the words of a half.
ghost use Rattle.std.specs.Prelude.{◌≡◌, ◌*◌, ℕ, List, [], length, replicate, sum, OnOk};
ghost use Rattle.std.specs.FinMap.{get, keys};
ghost use Rattle.bit_array.specs.Element.{words_of};
ghost use Rattle.schema_model.specs.Parts.{shape_fields};
ghost use Rattle.object_codec.specs.ObjectPlace.{IsObject};
ghost use Rattle.object_codec.specs.Packing.{HasRoom, IsPacked, IsRowPut};
ghost use Rattle.type_rows.specs.Layout.{places_of};
ghost use Rattle.packed_half.specs.Half.{areas_in, byte_words};
ghost use Rattle.packed_half.specs.Laying.{CanLay, ArePlaced, places_in};

use crate::bytes::put_areas;
use crate::{HalfShape, NewRows};
use hol_varint::Octets;
use object_codec::no_bytes;
use schema_model::Schema;
use std::alloc::{AllocError, Global};
use type_rows::place_count;

/// Lays the records of an OBJECT type out, place by place, in words of zeros, and the bytes of their fields behind them.
pub(crate) fn lay_records<N: NewRows>(
    alloc: Global,
    schema: &Schema,
    half: &HalfShape,
    new: &N,
    first: &mut [u64],
    bytes: &mut [u64],
) -> Result<(), AllocError>
    requires object { IsObject schema.now.shape }
    requires suits { N.suits new.now schema.now.shape }
    requires can { CanLay schema.now.shape half.now (N.rows new.now) }
    requires first { first.old ≡ replicate (words_of (places_of half.now.max * sum half.now.widths)) 0 }
    requires bytes { length bytes.old ≡ byte_words half.now.lengths }
    ensures { OnOk result ((second : List ℕ) → ArePlaced schema.now.shape half.now (N.rows new.now) first.new second (areas_in bytes.new half.now.lengths)) }
{
    let mut areas = no_bytes(alloc, schema.shape.fields().len())?;
    put_records(alloc, schema, half, new, first, areas.as_mut_slice())?;
    put_areas(bytes, areas.as_slice());
    Ok(())
}

/// Writes the records of all places, and adds the bytes of each field behind one another.
fn put_records<N: NewRows>(
    alloc: Global,
    schema: &Schema,
    half: &HalfShape,
    new: &N,
    first: &mut [u64],
    areas: &mut [Octets],
) -> Result<(), AllocError>
    requires object { IsObject schema.now.shape }
    requires suits { N.suits new.now schema.now.shape }
    requires can { CanLay schema.now.shape half.now (N.rows new.now) }
    requires first { first.old ≡ replicate (words_of (places_of half.now.max * sum half.now.widths)) 0 }
    requires none { areas.old ≡ replicate (length (shape_fields schema.now.shape)) [] }
    ensures { OnOk result (IsPacked schema.now.shape half.now.widths (places_in (N.rows new.now) (places_of half.now.max)) first.new areas.new) }
{
    for place in 0..place_count(half.max) {
        put_place(alloc, schema, half, new, first, areas, place as u32)?;
    }
    Ok(())
}

/// Writes the record of a place, or what stands where none is live.
fn put_place<N: NewRows>(
    alloc: Global,
    schema: &Schema,
    half: &HalfShape,
    new: &N,
    first: &mut [u64],
    areas: &mut [Octets],
    place: u32,
) -> Result<(), AllocError>
    requires suits { N.suits new.now schema.now.shape }
    requires live { keys (N.rows new.now) ≡ half.now.live }
    requires room { HasRoom schema.now.shape half.now.widths first.old areas.old place (get (N.rows new.now) place) }
    ensures { OnOk result (IsRowPut schema.now.shape half.now.widths first.old areas.old first.new areas.new place (get (N.rows new.now) place)) }
{
    let widths = half.widths.as_slice();
    if half.live.contains(place) {
        return new.put_record(alloc, schema, widths, first, areas, place);
    }
    object_codec::put_row(alloc, schema, widths, first, areas, u64::from(place), None)
}
