//! A blob by its name: its header, and a cursor behind it.
ghost use Rattle.std.specs.Prelude.{◌≡◌, ◌≤◌, Err, IfErr, IfOk, IfSome};
ghost use Rattle.hol_io.specs.Causes.{Rose};
ghost use Rattle.hol_io.specs.Store.{told};
ghost use Rattle.blob_cursor.specs.Opened.{IsOpeningFault, TellsHeader};
ghost use Rattle.blob_cursor.specs.Scene.{IsAbove};

use crate::Cursor;
use blob_frame::{BlobFault, Header};
use hol_io::{BlobName, BlobStore};
use std::alloc::Global;

/// The header of a blob, and a cursor that stands behind it. `NoBlob` comes where the store has no such name, `Large` where
/// the blob has more than 2^28 bytes, and `Bad` where its header cannot be read, with the first item that is at fault. Only
/// the header is read.
pub fn opened<S: BlobStore>(
    alloc: Global,
    store: &mut S,
    name: &BlobName,
) -> Result<(Header, Cursor), BlobFault>
    ensures tells { IfSome (S.seen store.old).held
        (λ held. TellsHeader name.now (told (S.seen store.old).held name.now) result) }
    ensures kind { IfErr result (IsOpeningFault name.now) }
    ensures over { IfOk result (λ opened. IsAbove S.seen store.new opened.1) }
    ensures named { IfOk result (λ opened. opened.1.name ≡ name.now) }
    ensures cause { result ≡ Err BlobFault.Store → Rose (S.seen store.old).faults (S.seen store.new).faults }
    ensures kept { (S.seen store.new).held ≡ (S.seen store.old).held }
    ensures later { (S.seen store.old).faults ≤ (S.seen store.new).faults }
    ensures unput { (S.seen store.new).puts ≡ (S.seen store.old).puts }
{
    let mut cursor = Cursor::start(alloc, store, name)?;
    let header = cursor.read_header(store)?;
    Ok((header, cursor))
}
