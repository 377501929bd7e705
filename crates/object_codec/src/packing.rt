//! Records written at their places.
ghost use Rattle.std.specs.Prelude.{◌≡◌, ◌*◌, ◌^◌, ◌<◌, [], length, option_copied, replicate, sum, IfOk, OnOk};
ghost use Rattle.bit_array.specs.Element.{words_of};
ghost use Rattle.schema_model.specs.Parts.{shape_fields};
ghost use Rattle.object_codec.specs.Packing.{HasRoom, IsRowPut, CanPack, IsPacked, values_of_place};

use crate::encoded::take_value;
use crate::stored::values_of;
use bit_array::{set_element, total_width, zeros};
use hol_varint::Octets;
use row_model::{Areas, Packed, PlacedRows, Row, Value, Widths, Words, row_of_place};
use schema_model::Schema;
use std::alloc::{AllocError, Global};

/// The packed words and bytes of the records of an OBJECT type, place by place; the least INT and LONG are packed as null. At a place without a
/// row each offset of a STRING or BYTES is that of the place before, and all other bits are zero.
///
/// The widths hold the numbers of all records and the bytes of each field.
pub fn pack<P: PlacedRows>(
    alloc: Global,
    schema: &Schema,
    widths: &Widths,
    rows: &P,
) -> Result<Packed, AllocError>
    requires { CanPack schema.now.shape widths.now (P.places rows.now) }
    ensures packed { IfOk result (λ packed. IsPacked schema.now.shape widths.now (P.places rows.now) packed.first packed.areas) }
    ensures second { IfOk result (λ packed. packed.second ≡ []) }
{
    let layout = layout_of(schema, widths.as_slice());
    let mut first = zeros(alloc, rows.count() as u64 * layout.size)?;
    let mut areas = no_bytes(alloc, schema.shape.fields().len())?;
    put_rows(
        alloc,
        layout,
        rows,
        first.as_mut_slice(),
        areas.as_mut_slice(),
    )?;
    Ok(Packed {
        first: Words::from_vec(first),
        second: Words::new(alloc),
        areas: Areas::from_vec(areas),
    })
}

/// How the records of a type are laid out.
#[derive(Clone, Copy)]
struct Layout<'a> {
    schema: &'a Schema,
    /// The widths of the fields, in bits.
    widths: &'a [u32],
    /// The width of a record, in bits.
    size: u64,
}

/// How the records of a type are laid out whose fields have these widths.
fn layout_of<'a>(schema: &'a Schema, widths: &'a [u32]) -> Layout<'a>
    requires { sum widths.now < 2 ^ 64 }
    ensures schema { result.schema.now ≡ schema.now }
    ensures widths { result.widths.now ≡ widths.now }
    ensures size { result.size ≡ sum widths.now }
{
    Layout {
        schema,
        widths,
        size: total_width(widths) as u64,
    }
}

/// The bytes of so many fields before any is written.
pub fn no_bytes(alloc: Global, fields: usize) -> Result<Vec<Octets>, AllocError>
    ensures { IfOk result (λ areas. areas.items ≡ replicate fields []) }
{
    let mut areas = Vec::with_capacity(alloc, fields)?;
    for _ in 0..fields {
        areas.push(Octets::new(alloc))?;
    }
    Ok(areas)
}

/// Writes the records of all places into words of zeros.
fn put_rows<P: PlacedRows>(
    alloc: Global,
    layout: Layout<'_>,
    rows: &P,
    first: &mut [u64],
    areas: &mut [Octets],
) -> Result<(), AllocError>
    requires size { layout.size ≡ sum layout.widths.now }
    requires can { CanPack layout.schema.now.shape layout.widths.now (P.places rows.now) }
    requires zeros { first.old ≡ replicate (words_of (length (P.places rows.now) * sum layout.widths.now)) 0 }
    requires none { areas.old ≡ replicate (length (shape_fields layout.schema.now.shape)) [] }
    ensures { OnOk result (IsPacked layout.entry.schema.now.shape layout.entry.widths.now (P.places rows.now) first.new areas.new) }
{
    for place in 0..rows.count() {
        let lent = rows.place(alloc, place)?;
        let row = row_of_place(&lent);
        put_laid(alloc, layout, first, areas, place as u64, row)?;
    }
    Ok(())
}

/// Writes the record of a place into words and behind the bytes of the fields; where there is no row, each offset is that of the place before,
/// and all other bits are zero.
///
/// The words have room for the place, and the bytes of each field end where those of the place begin. The places before keep what they spell,
/// and no bit behind the place is written. Memory is taken for the bytes alone; where it is refused, the bytes of some fields may be there.
pub fn put_row(
    alloc: Global,
    schema: &Schema,
    widths: &[u32],
    first: &mut [u64],
    areas: &mut [Octets],
    place: u64,
    row: Option<&Row>,
) -> Result<(), AllocError>
    requires { HasRoom schema.now.shape widths.now first.old areas.old place (option_copied row) }
    ensures { OnOk result (IsRowPut schema.now.shape widths.now first.old areas.old first.new areas.new place (option_copied row.entry)) }
{
    let layout = layout_of(schema, widths);
    put_laid(alloc, layout, first, areas, place, row)
}

/// Writes the record of a place into words and behind the bytes of the fields, at the layout of the records; it needs and leaves what `put_row` does.
fn put_laid(
    alloc: Global,
    layout: Layout<'_>,
    first: &mut [u64],
    areas: &mut [Octets],
    place: u64,
    row: Option<&Row>,
) -> Result<(), AllocError>
    requires size { layout.size ≡ sum layout.widths.now }
    requires room { HasRoom layout.schema.now.shape layout.widths.now first.old areas.old place (option_copied row) }
    ensures { OnOk result (IsRowPut layout.entry.schema.now.shape layout.entry.widths.now first.old areas.old first.new areas.new place (option_copied row.entry)) }
{
    let fields = layout.schema.shape.fields();
    let widths = layout.widths;
    let values = values_in(row);
    let mut at = place * layout.size;
    for (index, field) in fields.iter().enumerate() {
        let width = widths[index];
        let element = take_value(alloc, &field.kind, width, &mut areas[index], values, index)?;
        set_element(first, at, width, element);
        at += u64::from(width);
    }
    Ok(())
}

/// The values that a place takes: those of its record, none where it has no row.
fn values_in(row: Option<&Row>) -> &[Value]
    ensures { result.now ≡ values_of_place (option_copied row.entry) }
{
    match row {
        Some(row) => values_of(row),
        None => &[],
    }
}
