//! What stands in front of a type's section.
ghost use Rattle.blob_cursor.specs.Scene.{IsAbove, Leads};
ghost use Rattle.blob_sections.specs.Head.{type_head};

use crate::envelope::shard_envelope;
use blob_cursor::Cursor;
use blob_frame::BlobFault;
use hol_io::BlobStore;
use schema_model::Schema;

/// What a blob has of a type in front of its section.
#[derive(Debug, Drop)]
pub struct TypeHead {
    /// The offset of the type's schema in the blob, in bytes.
    pub at: u64,
    /// The schema of the type, as the blob has it.
    pub schema: Schema,
}

/// The schema of a type and its shard envelope. The faults are those of their items: `Sharded` stands at a number of
/// shards other than 1.
pub fn type_head<S: BlobStore>(cursor: &mut Cursor, store: &mut S) -> Result<TypeHead, BlobFault>
    requires over { IsAbove S.seen store.old cursor.old }
    ensures reads { Leads S.seen type_head store.old cursor.old store.new cursor.new result }
{
    let at = cursor.at();
    let schema = cursor.schema(store)?;
    shard_envelope(cursor, store)?;
    Ok(TypeHead { at, schema })
}
