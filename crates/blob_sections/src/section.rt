//! The items of a section that a snapshot and a delta have.
ghost use Rattle.std.specs.Prelude.{◌≡◌, ◌≤◌, ◌*◌, ◌^◌, [], IfOk, length};
ghost use Rattle.schema_model.specs.Parts.{shape_fields};
ghost use Rattle.object_codec.specs.ObjectPlace.{IsObject};
ghost use Rattle.type_rows.specs.WellFormed.{IsWellFormed};
ghost use Rattle.blob_cursor.specs.Scene.{IsAbove, Leads};
ghost use Rattle.blob_sections.specs.Section.{max_ordinal, at_least, word_array, packed_records, packed_runs, packed_rows, section_with};

use crate::widths::{field_widths, part_widths};
use blob_cursor::{Cursor, counted};
use blob_frame::BlobFault;
use hol_io::BlobStore;
use hol_varint::Octets;
use row_model::{Areas, Packed, Widths, Words};
use schema_model::{Field, Reason, Shape};
use type_rows::words_needed;

/// The rows of a type as they are packed in a blob.
#[derive(Debug, Drop)]
pub struct PackedRows {
    /// The widths of the parts of a row, in bits, in the blob's order.
    pub widths: Widths,
    /// The number of elements or buckets; 0 for an OBJECT.
    pub total: u64,
    /// The words, and the variable bytes.
    pub packed: Packed,
}

/// The greatest ordinal that has a place, if one has.
pub fn max_ordinal<S: BlobStore>(
    cursor: &mut Cursor,
    store: &mut S,
) -> Result<Option<u32>, BlobFault>
    requires over { IsAbove S.seen store.old cursor.old }
    ensures reads { Leads S.seen max_ordinal store.old cursor.old store.new cursor.new result }
{
    let number = cursor.vint(store)?;
    if number == u32::MAX {
        return Ok(None);
    }
    Ok(Some(number))
}

/// The packed rows of a type of this shape, under a max ordinal. The faults are those of their items: `BadWidth` stands
/// at a width that a part may not have, `BadLength` at a count of the words of records or pointers below what the places
/// need.
pub fn packed_rows<S: BlobStore>(
    cursor: &mut Cursor,
    store: &mut S,
    shape: &Shape,
    max: Option<u32>,
) -> Result<PackedRows, BlobFault>
    requires over { IsAbove S.seen store.old cursor.old }
    ensures reads { Leads S.seen (packed_rows shape.now max) store.old cursor.old store.new cursor.new result }
    ensures whole { IfOk result (λ rows. IsWellFormed shape.now (section_with max rows [])) }
{
    match shape {
        Shape::Object(_, fields) => packed_records(cursor, store, shape, max, fields.as_slice()),
        Shape::List(_) | Shape::Set(_) | Shape::Map(_, _) => {
            packed_runs(cursor, store, shape, max)
        }
    }
}

// The packed rows of an OBJECT of these fields.
fn packed_records<S: BlobStore>(
    cursor: &mut Cursor,
    store: &mut S,
    shape: &Shape,
    max: Option<u32>,
    fields: &[Field],
) -> Result<PackedRows, BlobFault>
    requires over { IsAbove S.seen store.old cursor.old }
    requires object { IsObject shape.now }
    requires fields { fields.now ≡ shape_fields shape.now }
    ensures reads { Leads S.seen (packed_records shape.now max) store.old cursor.old store.new cursor.new result }
    ensures whole { IfOk result (λ rows. IsWellFormed shape.now (section_with max rows [])) }
{
    let widths = field_widths(cursor, store, max, fields)?;
    let least = words_needed(shape, max, widths.as_slice());
    let first = word_array(cursor, store, least)?;
    let second = Words::new(cursor.allocator());
    let areas = counted::<Octets, S>(cursor, store, fields.len() as u64)?;
    let packed = Packed {
        first,
        second,
        areas,
    };
    Ok(PackedRows {
        widths,
        total: 0,
        packed,
    })
}

// The packed rows of a LIST, SET or MAP.
fn packed_runs<S: BlobStore>(
    cursor: &mut Cursor,
    store: &mut S,
    shape: &Shape,
    max: Option<u32>,
) -> Result<PackedRows, BlobFault>
    requires over { IsAbove S.seen store.old cursor.old }
    requires other { IsObject shape.now → ⊥ }
    ensures reads { Leads S.seen (packed_runs shape.now max) store.old cursor.old store.new cursor.new result }
    ensures whole { IfOk result (λ rows. IsWellFormed shape.now (section_with max rows [])) }
{
    let widths = part_widths(cursor, store, shape)?;
    let total = cursor.vlong(store)?;
    let least = words_needed(shape, max, widths.as_slice());
    let first = word_array(cursor, store, least)?;
    let second = word_array(cursor, store, 0)?;
    let areas = Areas::new(cursor.allocator());
    let packed = Packed {
        first,
        second,
        areas,
    };
    Ok(PackedRows {
        widths,
        total,
        packed,
    })
}

// A count that is no less than this, else `BadLength` at it.
fn at_least<S: BlobStore>(cursor: &mut Cursor, store: &mut S, least: u128) -> Result<u64, BlobFault>
    requires over { IsAbove S.seen store.old cursor.old }
    ensures reads { Leads S.seen (at_least least) store.old cursor.old store.new cursor.new result }
    ensures whole { IfOk result (λ count. least ≤ count) }
{
    let at = cursor.at();
    let count = cursor.vlong(store)?;
    if u128::from(count) < least {
        return Err(BlobFault::Bad(at, Reason::BadLength));
    }
    Ok(count)
}

/// A word array of no fewer words than this: their number, and each of them. `BadLength` stands at a number below it.
pub fn word_array<S: BlobStore>(
    cursor: &mut Cursor,
    store: &mut S,
    least: u128,
) -> Result<Words, BlobFault>
    requires over { IsAbove S.seen store.old cursor.old }
    ensures reads { Leads S.seen (word_array least) store.old cursor.old store.new cursor.new result }
    ensures whole { IfOk result (λ words. least ≤ length words) }
    ensures few { IfOk result (λ words. 8 * length words ≤ 2 ^ 28) }
{
    let count = at_least(cursor, store, least)?;
    cursor.words(store, count)
}
