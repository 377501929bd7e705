//! The types of a delta as they stand in the blob.
ghost use Rattle.std.specs.Prelude.{All, IfOk};
ghost use Rattle.type_rows.specs.Patches.{IsWellFormedPatch};
ghost use Rattle.blob_grammar.specs.Form.{repeated};
ghost use Rattle.blob_cursor.specs.Scene.{IsAbove, Leads};
ghost use Rattle.delta_blob.specs.Parts.{IsWellFormedPart, body, patch_part, patch_section};

use crate::added::added_rows;
use crate::ordinals::ordinals;
use blob_cursor::Cursor;
use blob_frame::BlobFault;
use blob_sections::{PackedRows, TypeHead, max_ordinal, type_head};
use hol_io::BlobStore;
use hol_varint::List;
use row_model::Packed;
use schema_model::{Schema, Shape};
use std::alloc::Global;
use type_rows::{PatchSection, own_bits};

/// A type as it stands in a delta.
#[derive(Debug, Drop)]
pub struct DeltaPart {
    /// The offset of its schema in the blob, in bytes.
    pub at: u64,
    /// Its schema.
    pub schema: Schema,
    /// Its section: the ordinals that leave and those that come, the layout, and the packed rows that come.
    pub section: PatchSection,
}

/// The types of a delta, in the order of the blob.
pub type DeltaParts = List<DeltaPart>;

// The section of a type of this shape.
fn section<S: BlobStore>(
    cursor: &mut Cursor,
    store: &mut S,
    shape: &Shape,
) -> Result<PatchSection, BlobFault>
    requires over { IsAbove S.seen store.old cursor.old }
    ensures reads { Leads S.seen (patch_section shape.now) store.old cursor.old store.new cursor.new result }
    ensures whole { IfOk result (IsWellFormedPatch shape.now) }
{
    let max = max_ordinal(cursor, store)?;
    let removed = ordinals(cursor, store)?;
    let added = ordinals(cursor, store)?;
    let rows = added_rows(cursor, store, shape, max, added.len() as u32)?;
    let PackedRows {
        widths,
        total,
        packed,
    } = rows;
    let Packed {
        first,
        second,
        areas,
    } = packed;
    let own = own_bits(shape, widths.as_slice());
    Ok(PatchSection {
        max,
        widths,
        own,
        total,
        first,
        second,
        areas,
        removed,
        added,
    })
}

// A type: its head and its section.
fn delta_part<S: BlobStore>(cursor: &mut Cursor, store: &mut S) -> Result<DeltaPart, BlobFault>
    requires over { IsAbove S.seen store.old cursor.old }
    ensures reads { Leads S.seen patch_part store.old cursor.old store.new cursor.new result }
    ensures whole { IfOk result IsWellFormedPart }
{
    let TypeHead { at, schema } = type_head(cursor, store)?;
    let section = section(cursor, store, &schema.shape)?;
    Ok(DeltaPart {
        at,
        schema,
        section,
    })
}

// So many types, one behind the other.
fn delta_parts<S: BlobStore>(
    alloc: Global,
    cursor: &mut Cursor,
    store: &mut S,
    count: u32,
) -> Result<DeltaParts, BlobFault>
    requires over { IsAbove S.seen store.old cursor.old }
    ensures reads { Leads S.seen (repeated count patch_part) store.old cursor.old store.new cursor.new result }
    ensures whole { IfOk result (All IsWellFormedPart) }
{
    let mut list = DeltaParts::new(alloc);
    for _item in 0..count {
        list.push(delta_part(cursor, store)?)?;
    }
    Ok(list)
}

/// The types of a delta and the end of the blob behind them.
pub(crate) fn body<S: BlobStore>(
    alloc: Global,
    cursor: &mut Cursor,
    store: &mut S,
) -> Result<DeltaParts, BlobFault>
    requires over { IsAbove S.seen store.old cursor.old }
    ensures reads { Leads S.seen body store.old cursor.old store.new cursor.new result }
    ensures whole { IfOk result (All IsWellFormedPart) }
{
    let count = cursor.type_count(store)?;
    let parts = delta_parts(alloc, cursor, store, count)?;
    cursor.end(store)?;
    Ok(parts)
}
