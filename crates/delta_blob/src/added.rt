//! The packed rows of the ordinals that a delta adds to a type.
ghost use Rattle.std.specs.Prelude.{◌≡◌, IfOk};
ghost use Rattle.schema_model.specs.Parts.{shape_fields};
ghost use Rattle.object_codec.specs.ObjectPlace.{IsObject};
ghost use Rattle.blob_cursor.specs.Scene.{IsAbove, Leads};
ghost use Rattle.delta_blob.specs.Added.{ArePlaced, added_records, added_rows, added_runs, words_for};

use blob_cursor::{Cursor, counted};
use blob_frame::BlobFault;
use blob_sections::{PackedRows, field_widths, part_widths, word_array};
use hol_io::BlobStore;
use hol_varint::Octets;
use row_model::{Areas, Packed, Words};
use schema_model::{Field, Shape};
use type_rows::words_needed;

// How many words so many places of a type of this shape need, by the widths of their parts in bits.
fn words_for(shape: &Shape, places: u32, widths: &[u32]) -> u128
    ensures { result ≡ words_for shape.now places widths.now }
{
    words_needed(shape, places.checked_sub(1), widths)
}

/// The packed rows of so many added ordinals of a type of this shape, under a max ordinal. The faults are those of their items: `BadWidth`
/// stands at a width that a part may not have, `BadLength` at a count of the words of records or pointers below what the places need.
pub(crate) fn added_rows<S: BlobStore>(
    cursor: &mut Cursor,
    store: &mut S,
    shape: &Shape,
    max: Option<u32>,
    places: u32,
) -> Result<PackedRows, BlobFault>
    requires over { IsAbove S.seen store.old cursor.old }
    ensures reads { Leads S.seen (added_rows shape.now max places) store.old cursor.old store.new cursor.new result }
    ensures whole { IfOk result (ArePlaced shape.now max places) }
{
    match shape {
        Shape::Object(_, fields) => {
            added_records(cursor, store, shape, max, places, fields.as_slice())
        }
        Shape::List(_) | Shape::Set(_) | Shape::Map(_, _) => {
            added_runs(cursor, store, shape, max, places)
        }
    }
}

// The packed rows of an OBJECT of these fields.
fn added_records<S: BlobStore>(
    cursor: &mut Cursor,
    store: &mut S,
    shape: &Shape,
    max: Option<u32>,
    places: u32,
    fields: &[Field],
) -> Result<PackedRows, BlobFault>
    requires over { IsAbove S.seen store.old cursor.old }
    requires object { IsObject shape.now }
    requires fields { fields.now ≡ shape_fields shape.now }
    ensures reads { Leads S.seen (added_records shape.now max places) store.old cursor.old store.new cursor.new result }
    ensures whole { IfOk result (ArePlaced shape.now max places) }
{
    let widths = field_widths(cursor, store, max, fields)?;
    let least = words_for(shape, places, widths.as_slice());
    let first = word_array(cursor, store, least)?;
    let second = Words::new(cursor.allocator());
    let areas = counted::<Octets, S>(cursor, store, fields.len() as u64)?;
    let packed = Packed {
        first,
        second,
        areas,
    };
    Ok(PackedRows {
        widths,
        total: 0,
        packed,
    })
}

// The packed rows of a LIST, SET or MAP.
fn added_runs<S: BlobStore>(
    cursor: &mut Cursor,
    store: &mut S,
    shape: &Shape,
    max: Option<u32>,
    places: u32,
) -> Result<PackedRows, BlobFault>
    requires over { IsAbove S.seen store.old cursor.old }
    requires other { IsObject shape.now → ⊥ }
    ensures reads { Leads S.seen (added_runs shape.now places) store.old cursor.old store.new cursor.new result }
    ensures whole { IfOk result (ArePlaced shape.now max places) }
{
    let widths = part_widths(cursor, store, shape)?;
    let total = cursor.vlong(store)?;
    let least = words_for(shape, places, widths.as_slice());
    let first = word_array(cursor, store, least)?;
    let second = word_array(cursor, store, 0)?;
    let areas = Areas::new(cursor.allocator());
    let packed = Packed {
        first,
        second,
        areas,
    };
    Ok(PackedRows {
        widths,
        total,
        packed,
    })
}
