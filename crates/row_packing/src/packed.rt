//! The rows of a type packed place by place, for a snapshot and for a delta.
ghost use Rattle.std.specs.Prelude.{◌<◌, length, IfOk};
ghost use Rattle.row_packing.specs.Chosen.{shape_at, Suits};
ghost use Rattle.row_packing.specs.Packs.{CanPackPlaces, PacksPlaces};
ghost use Rattle.row_packing.specs.Places.{places_under, snapshot_places, AreAdded};

use crate::Chosen;
use crate::places::{FirstPlaces, PlacesUnder};
use hol_varint::Ordinals;
use row_model::{Packed, PlacedRows, Rows, Widths};
use schema_model::{Schema, Shape};
use std::alloc::{AllocError, Global};
use type_rows::place_count;

/// The rows of a type of a state, packed for a snapshot: place `k` has the row under ordinal `k`, for each ordinal up to the max ordinal.
///
/// What was chosen is for the rows of this state and of another that agrees with it, within the limits.
pub fn snapshot_rows<R: Rows>(
    alloc: Global,
    rows: &R,
    type_index: u32,
    chosen: &Chosen,
) -> Result<Packed, AllocError>
    requires known { type_index < length (R.schemas rows.now) }
    requires chosen { Suits (shape_at (R.schemas rows.now) type_index) (R.table rows.now) type_index chosen.now }
    ensures { IfOk result (λ packed. PacksPlaces (shape_at (R.schemas rows.now) type_index) chosen.now.widths (snapshot_places (R.table rows.now) type_index chosen.now.max) packed.first packed.second packed.areas) }
{
    let places = FirstPlaces {
        rows,
        type_index,
        count: place_count(chosen.max) as u32,
    };
    pack(
        alloc,
        rows.model().schema(type_index),
        &chosen.widths,
        &places,
    )
}

/// The rows of a type of a state under the ordinals that a delta adds, packed: place `k` has the row under the k-th of them.
///
/// The ordinals rise, and each is live. What was chosen is for the rows of this state and of another that agrees with it, within the limits.
pub fn delta_rows<R: Rows>(
    alloc: Global,
    rows: &R,
    type_index: u32,
    chosen: &Chosen,
    added: &Ordinals,
) -> Result<Packed, AllocError>
    requires known { type_index < length (R.schemas rows.now) }
    requires chosen { Suits (shape_at (R.schemas rows.now) type_index) (R.table rows.now) type_index chosen.now }
    requires added { AreAdded (R.table rows.now) type_index added.now }
    ensures { IfOk result (λ packed. PacksPlaces (shape_at (R.schemas rows.now) type_index) chosen.now.widths (places_under (R.table rows.now) type_index added.now) packed.first packed.second packed.areas) }
{
    let places = PlacesUnder {
        rows,
        type_index,
        ordinals: added.as_slice(),
    };
    pack(
        alloc,
        rows.model().schema(type_index),
        &chosen.widths,
        &places,
    )
}

/// The rows of places, packed by the codec of the kind.
fn pack<P: PlacedRows>(
    alloc: Global,
    schema: &Schema,
    widths: &Widths,
    rows: &P,
) -> Result<Packed, AllocError>
    requires { CanPackPlaces schema.now.shape widths.now (P.places rows.now) }
    ensures { IfOk result (λ packed. PacksPlaces schema.now.shape widths.now (P.places rows.now) packed.first packed.second packed.areas) }
{
    match &schema.shape {
        Shape::Object(_, _) => object_codec::pack(alloc, schema, widths, rows),
        Shape::List(_) => list_codec::pack(alloc, schema, widths, rows),
        _ => bucket_codec::pack(alloc, schema, widths, rows),
    }
}
