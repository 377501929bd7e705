//! The types of a snapshot as they stand in the blob.
ghost use Rattle.std.specs.Prelude.{All, IfOk};
ghost use Rattle.type_rows.specs.WellFormed.{IsWellFormed};
ghost use Rattle.blob_grammar.specs.Form.{repeated};
ghost use Rattle.blob_cursor.specs.Scene.{IsAbove, Leads};
ghost use Rattle.snapshot_blob.specs.Parts.{section_of, type_part, body};

use blob_cursor::Cursor;
use blob_frame::BlobFault;
use blob_sections::{PackedRows, TypeHead, max_ordinal, packed_rows, population, type_head};
use hol_io::BlobStore;
use hol_varint::List;
use row_model::Packed;
use schema_model::{Schema, Shape};
use std::alloc::Global;
use type_rows::Section;

/// A type as it stands in a snapshot.
#[derive(Debug, Drop)]
pub struct TypePart {
    /// The offset of its schema in the blob, in bytes.
    pub at: u64,
    /// Its schema.
    pub schema: Schema,
    /// Its section: the layout, the packed rows and the live ordinals.
    pub section: Section,
}

/// The types of a snapshot, in the order of the blob.
pub type TypeParts = List<TypePart>;

// The section of a type of this shape.
fn section<S: BlobStore>(
    cursor: &mut Cursor,
    store: &mut S,
    shape: &Shape,
) -> Result<Section, BlobFault>
    requires over { IsAbove S.seen store.old cursor.old }
    ensures reads { Leads S.seen (section_of shape.now) store.old cursor.old store.new cursor.new result }
    ensures whole { IfOk result (IsWellFormed shape.now) }
{
    let max = max_ordinal(cursor, store)?;
    let rows = packed_rows(cursor, store, shape, max)?;
    let live = population(cursor, store)?;
    let PackedRows {
        widths,
        total,
        packed,
    } = rows;
    let Packed {
        first,
        second,
        areas,
    } = packed;
    Ok(Section {
        max,
        widths,
        total,
        first,
        second,
        areas,
        live,
    })
}

// A type: its head and its section.
fn type_part<S: BlobStore>(cursor: &mut Cursor, store: &mut S) -> Result<TypePart, BlobFault>
    requires over { IsAbove S.seen store.old cursor.old }
    ensures reads { Leads S.seen type_part store.old cursor.old store.new cursor.new result }
    ensures whole { IfOk result (λ part. IsWellFormed part.schema.shape part.section) }
{
    let TypeHead { at, schema } = type_head(cursor, store)?;
    let section = section(cursor, store, &schema.shape)?;
    Ok(TypePart {
        at,
        schema,
        section,
    })
}

// So many types, one behind the other.
fn type_parts<S: BlobStore>(
    alloc: Global,
    cursor: &mut Cursor,
    store: &mut S,
    count: u32,
) -> Result<TypeParts, BlobFault>
    requires over { IsAbove S.seen store.old cursor.old }
    ensures reads { Leads S.seen (repeated count type_part) store.old cursor.old store.new cursor.new result }
    ensures whole { IfOk result (All (λ part. IsWellFormed part.schema.shape part.section)) }
{
    let mut list = TypeParts::new(alloc);
    for _item in 0..count {
        list.push(type_part(cursor, store)?)?;
    }
    Ok(list)
}

/// The types of a snapshot and the end of the blob behind them.
pub(crate) fn body<S: BlobStore>(
    alloc: Global,
    cursor: &mut Cursor,
    store: &mut S,
) -> Result<TypeParts, BlobFault>
    requires over { IsAbove S.seen store.old cursor.old }
    ensures reads { Leads S.seen body store.old cursor.old store.new cursor.new result }
    ensures whole { IfOk result (All (λ part. IsWellFormed part.schema.shape part.section)) }
{
    let count = cursor.type_count(store)?;
    let parts = type_parts(alloc, cursor, store, count)?;
    cursor.end(store)?;
    Ok(parts)
}
