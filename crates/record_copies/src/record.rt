//! A record copied from its place in some words to a place in others.
ghost use Rattle.std.specs.Prelude.{◌≡◌, OnOk, Some, sum};
ghost use Rattle.schema_model.specs.Parts.{shape_fields};
ghost use Rattle.row_model.specs.declared.row.Row.{Row};
ghost use Rattle.object_codec.specs.ObjectPlace.{HoldsPlace, SpellsObjectRow};
ghost use Rattle.object_codec.specs.Packing.{HasRoom, IsRowPut};

use crate::cell::Cell;
use crate::part::take_part;
use crate::source::RecordSource;
use bit_array::set_element;
use hol_varint::Octets;
use schema_model::Schema;
use std::alloc::{AllocError, Global};

/// A place in words whose records have a field of each of these widths.
#[derive(Clone, Copy)]
pub struct RecordPlace<'a> {
    /// The width of each field's elements, in bits.
    pub widths: &'a [u32],
    /// The width of a record, which is that of its fields together, in bits.
    pub size: u64,
    /// The place: how many records stand before it.
    pub place: u64,
}

/// Copies the record of a place of some words to a place of others, whose widths may be others, and its bytes behind those of the fields.
///
/// The place that is copied from spells a record, and there is room for it. The places before keep what they spell, and no bit behind the place
/// is written. Memory is taken for the bytes alone; where it is refused, the bytes of some fields may be there.
pub fn copy_record<S: RecordSource>(
    alloc: Global,
    schema: &Schema,
    from: &S,
    there: RecordPlace<'_>,
    here: RecordPlace<'_>,
    first: &mut [u64],
    areas: &mut [Octets],
) -> Result<(), AllocError>
    requires there_size { there.size ≡ sum there.widths.now }
    requires here_size { here.size ≡ sum here.widths.now }
    requires holds { HoldsPlace (shape_fields schema.now.shape) there.widths.now (S.record_words from.now) (S.field_bytes from.now) there.place }
    requires room { (row : Row) × SpellsObjectRow schema.now.shape there.widths.now (S.record_words from.now) (S.field_bytes from.now) there.place row × HasRoom schema.now.shape here.widths.now first.old areas.old here.place (Some row) }
    ensures put { OnOk result ((row : Row) → SpellsObjectRow schema.now.shape there.entry.widths.now (S.record_words from.now) (S.field_bytes from.now) there.entry.place row → IsRowPut schema.now.shape here.entry.widths.now first.old areas.old first.new areas.new here.entry.place (Some row)) }
    ensures same { OnOk result ((row : Row) → SpellsObjectRow schema.now.shape there.entry.widths.now (S.record_words from.now) (S.field_bytes from.now) there.entry.place row → SpellsObjectRow schema.now.shape here.entry.widths.now first.new areas.new here.entry.place row) }
{
    let fields = schema.shape.fields();
    let mut before = 0;
    let mut at = here.place * here.size;
    for (index, field) in fields.iter().enumerate() {
        let width = here.widths[index];
        let cell = Cell {
            place: there.place,
            size: there.size,
            before,
            width: there.widths[index],
            field: index as u32,
        };
        let element = take_part(alloc, &field.kind, from, cell, width, &mut areas[index])?;
        set_element(first, at, width, element);
        before += u64::from(cell.width);
        at += u64::from(width);
    }
    Ok(())
}
