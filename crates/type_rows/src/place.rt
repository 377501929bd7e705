//! The row at a place, by the codec of its kind.
ghost use Rattle.std.specs.Prelude.{IfErr};
ghost use Rattle.type_rows.specs.Fails.{FailsPlace};
ghost use Rattle.type_rows.specs.WellFormed.{IsReadable};
ghost use Rattle.type_rows.specs.Loads.{TellsPlace, parts_up_to};

use row_model::{Parts, PlaceFault, Row, Widths};
use schema_model::{Schema, Shape};
use std::alloc::Global;

/// The row that a place of the parts of a type spells, or why it spells none. Whether they can be read does not hang on the total.
pub fn read_place<P: Parts>(
    alloc: Global,
    schema: &Schema,
    widths: &Widths,
    total: u64,
    parts: &P,
    place: u64,
) -> Result<Row, PlaceFault>
    requires { IsReadable schema.now.shape (parts_up_to widths.now 0 (P.first_words parts.now) (P.second_words parts.now) (P.area_bytes parts.now) place) }
    ensures tells { TellsPlace schema.now.shape (parts_up_to widths.now total (P.first_words parts.now) (P.second_words parts.now) (P.area_bytes parts.now) place) place result }
    ensures reason { IfErr result (FailsPlace schema.now.shape (parts_up_to widths.now total (P.first_words parts.now) (P.second_words parts.now) (P.area_bytes parts.now) place) place) }
{
    match &schema.shape {
        Shape::Object(_, _) => object_codec::read(alloc, schema, widths, total, parts, place),
        Shape::List(_) => list_codec::read(alloc, schema, widths, total, parts, place),
        _ => bucket_codec::read(alloc, schema, widths, total, parts, place),
    }
}
