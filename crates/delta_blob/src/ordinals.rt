//! The ordinals that a delta removes from a type, or adds to it.
ghost use Rattle.std.specs.Prelude.{◌≤◌, ◌^◌, IfOk, length};
ghost use Rattle.blob_cursor.specs.Scene.{IsAbove, Leads};
ghost use Rattle.delta_blob.specs.Ordinals.{gap_run, ordinals};

use blob_cursor::Cursor;
use blob_frame::BlobFault;
use hol_io::BlobStore;
use hol_varint::GapList;
use ordinal_set::{GapFault, read_gaps};
use schema_model::Reason;

// The list whose gaps a run of so many bytes has. `BadVarint` stands at a run of no list.
fn gap_run<S: BlobStore>(
    cursor: &mut Cursor,
    store: &mut S,
    count: u64,
) -> Result<GapList, BlobFault>
    requires over { IsAbove S.seen store.old cursor.old }
    ensures reads { Leads S.seen (gap_run count) store.old cursor.old store.new cursor.new result }
    ensures few { IfOk result (λ list. length list ≤ 2 ^ 28) }
{
    let at = cursor.at();
    let bytes = cursor.run(store, count)?;
    match read_gaps(cursor.allocator(), bytes.as_slice()) {
        Ok(list) => Ok(list),
        Err(GapFault::Bad(_)) => Err(BlobFault::Bad(at, Reason::BadVarint)),
        Err(GapFault::Memory) => Err(BlobFault::Memory),
    }
}

/// A list of ordinals: the number of bytes, and the gaps in them. They may be any numbers.
pub(crate) fn ordinals<S: BlobStore>(
    cursor: &mut Cursor,
    store: &mut S,
) -> Result<GapList, BlobFault>
    requires over { IsAbove S.seen store.old cursor.old }
    ensures reads { Leads S.seen ordinals store.old cursor.old store.new cursor.new result }
    ensures few { IfOk result (λ list. length list ≤ 2 ^ 28) }
{
    let count = cursor.vlong(store)?;
    gap_run(cursor, store, count)
}
