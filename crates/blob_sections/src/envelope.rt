//! The shard envelope of a type.
ghost use Rattle.blob_cursor.specs.Scene.{IsAbove, Leads};
ghost use Rattle.blob_sections.specs.Envelope.{shards, listed_shards, shard_envelope};

use blob_cursor::Cursor;
use blob_frame::BlobFault;
use hol_io::BlobStore;
use schema_model::Reason;

/// The shard envelope of a type. `Sharded` stands at a number of shards other than 1.
pub(crate) fn shard_envelope<S: BlobStore>(
    cursor: &mut Cursor,
    store: &mut S,
) -> Result<(), BlobFault>
    requires over { IsAbove S.seen store.old cursor.old }
    ensures reads { Leads S.seen shard_envelope store.old cursor.old store.new cursor.new result }
{
    let number = cursor.vint(store)?;
    if number == 0 {
        return Ok(());
    }
    listed_shards(cursor, store)
}

// The bytes to skip in a shard envelope, and the number of shards.
fn listed_shards<S: BlobStore>(cursor: &mut Cursor, store: &mut S) -> Result<(), BlobFault>
    requires over { IsAbove S.seen store.old cursor.old }
    ensures reads { Leads S.seen listed_shards store.old cursor.old store.new cursor.new result }
{
    let count = cursor.vint(store)?;
    cursor.skip_counted(count)?;
    shards(cursor, store)
}

// The number of shards, which is 1.
fn shards<S: BlobStore>(cursor: &mut Cursor, store: &mut S) -> Result<(), BlobFault>
    requires over { IsAbove S.seen store.old cursor.old }
    ensures reads { Leads S.seen shards store.old cursor.old store.new cursor.new result }
{
    let at = cursor.at();
    let number = cursor.vint(store)?;
    if number != 1 {
        return Err(BlobFault::Bad(at, Reason::Sharded));
    }
    Ok(())
}
