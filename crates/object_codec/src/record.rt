//! The record of an OBJECT type at a place.
ghost use Rattle.std.specs.Prelude.{Ok, Err};
ghost use Rattle.hol_varint.specs.Yields.{Yields};
ghost use Rattle.schema_model.specs.Parts.{shape_fields};
ghost use Rattle.row_model.specs.declared.row.Row.{Row as StoredRow};
ghost use Rattle.schema_model.specs.declared.reason.Reason.{Reason};
ghost use Rattle.row_model.specs.declared.packed.PlaceFault.TheVariants.{Bad};
ghost use Rattle.object_codec.specs.ObjectPlace.{IsObject, HoldsPlace, SpellsObjectRow, FailsObjectRow, IsFreePlace, TellsObject, TellsObjectRow};

use crate::value::{Cell, value};
use bit_array::total_width;
use row_model::{Parts, PlaceFault, Row, Values, Widths};
use schema_model::{Field, Schema};
use std::alloc::Global;

/// The record that the parts of an OBJECT type spell at a place.
///
/// Place `k` begins at bit `k` times the width of a record, the sum of the fields' widths, and the fields' elements follow one another in
/// the order of the schema. A value is null where its element is all ones, of a STRING or BYTES where its top bit is set.
/// `Bad` gives the reason of the first field in that order that has no value: `BadPointers` where the bytes of a STRING or BYTES start
/// behind their end, end behind the field's bytes, or belong to a null and are some; `BadText` where the bytes of a STRING are those of
/// no units; `BadValue` where a BOOLEAN is 2, or a number that is not null is over 2^32 - 2 in an INT or over 2^32 - 1 in a REFERENCE.
/// The total of a type is of no use for an OBJECT.
pub fn read<P: Parts>(
    alloc: Global,
    schema: &Schema,
    widths: &Widths,
    _total: u64,
    parts: &P,
    place: u64,
) -> Result<Row, PlaceFault>
    requires object { IsObject schema.now.shape }
    requires holds { HoldsPlace (shape_fields schema.now.shape) widths.now (P.first_words parts.now) (P.area_bytes parts.now) place }
    ensures tells { TellsObjectRow schema.now.shape widths.now (P.first_words parts.now) (P.area_bytes parts.now) place result }
    ensures spelled { (row : StoredRow) → Yields IsFreePlace result (Ok row) (SpellsObjectRow schema.now.shape widths.now (P.first_words parts.now) (P.area_bytes parts.now) place row) }
    ensures bad { (reason : Reason) → Yields IsFreePlace result (Err (Bad reason)) (FailsObjectRow schema.now.shape widths.now (P.first_words parts.now) (P.area_bytes parts.now) place reason) }
{
    read_row(alloc, schema, widths, parts, place)
}

/// The record that the parts of an OBJECT type spell at a place, or the reason of its first field that has no value.
fn read_row<P: Parts>(
    alloc: Global,
    schema: &Schema,
    widths: &Widths,
    parts: &P,
    place: u64,
) -> Result<Row, PlaceFault>
    requires object { IsObject schema.now.shape }
    requires holds { HoldsPlace (shape_fields schema.now.shape) widths.now (P.first_words parts.now) (P.area_bytes parts.now) place }
    ensures { TellsObjectRow schema.now.shape widths.now (P.first_words parts.now) (P.area_bytes parts.now) place result }
{
    let fields = schema.shape.fields();
    let values = read_fields(alloc, fields, widths.as_slice(), parts, place)?;
    Ok(Row::Object(values))
}

/// The values of the record at a place.
fn read_fields<P: Parts>(
    alloc: Global,
    fields: &[Field],
    widths: &[u32],
    parts: &P,
    place: u64,
) -> Result<Values, PlaceFault>
    requires { HoldsPlace fields.now widths.now (P.first_words parts.now) (P.area_bytes parts.now) place }
    ensures { TellsObject fields.now widths.now (P.first_words parts.now) (P.area_bytes parts.now) place result }
{
    let size = total_width(widths) as u64;
    let mut values = Vec::with_capacity(alloc, fields.len())?;
    let mut before = 0;
    for (index, field) in fields.iter().enumerate() {
        let width = widths[index];
        let cell = Cell {
            place,
            size,
            before,
            width,
            field: index as u32,
        };
        let value = value(alloc, parts, &field.kind, cell)?;
        values.push(value)?;
        before += u64::from(width);
    }
    Ok(Values::from_vec(values))
}
