//! The population of a type in a snapshot.
ghost use Rattle.blob_cursor.specs.Scene.{IsAbove, Leads};
ghost use Rattle.blob_sections.specs.Population.{population};

use blob_cursor::Cursor;
use blob_frame::BlobFault;
use hol_io::BlobStore;
use ordinal_set::OrdinalSet;

/// The live ordinals of a type, a bit each of so many words.
pub fn population<S: BlobStore>(cursor: &mut Cursor, store: &mut S) -> Result<OrdinalSet, BlobFault>
    requires over { IsAbove S.seen store.old cursor.old }
    ensures reads { Leads S.seen population store.old cursor.old store.new cursor.new result }
{
    let count = cursor.be32(store)?;
    let words = cursor.words(store, u64::from(count))?;
    Ok(OrdinalSet::from_words(words.into_vec()))
}
