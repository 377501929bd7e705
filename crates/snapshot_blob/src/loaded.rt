//! A whole snapshot, read by its name.
ghost use Rattle.std.specs.Prelude.{◌≡◌, ◌≤◌, Err, IfErr, IfOk, IfSome};
ghost use Rattle.hol_io.specs.Causes.{Rose};
ghost use Rattle.hol_io.specs.Store.{told};
ghost use Rattle.type_state.specs.Views.{table_of, next_halves};
ghost use Rattle.snapshot_blob.specs.Body.{IsWholeBody};
ghost use Rattle.snapshot_blob.specs.Snapshot.{IsSnapshotFault, ReadsExactly, TellsSnapshot};

use crate::body::{Body, read_body};
use blob_cursor::Cursor;
use blob_frame::{BlobFault, Header};
use hol_io::{BlobName, BlobStore};
use schema_model::Model;
use std::alloc::Global;
use type_state::{NextRows, TypeStates, next_of};

/// A snapshot that was read: its header, its model, and each type's rows in the next half of its state.
#[derive(Drop)]
pub struct Loaded {
    /// The header of the blob.
    pub header: Header,
    /// The model that the types of the blob are.
    pub model: Model,
    /// The types in model order, each with the rows of the snapshot in its next half and none in its current one.
    pub states: TypeStates,
}

impl Loaded {
    /// The rows of the snapshot.
    pub fn rows(&self) -> NextRows<'_>
        requires { IsWholeBody (record { model = self.now.model; states = self.now.states }) }
        ensures schemas { result.schemas ≡ self.now.model }
        ensures table { result.table ≡ table_of (next_halves self.now.states) }
    {
        next_of(&self.model, &self.states)
    }
}

/// Reads the snapshot of a name from a store: its header, its model, and the rows of each type in the next half of a
/// state. Nothing is kept of a snapshot that is refused.
///
/// `NoBlob` comes where the store has no such name, `Large` where the blob has more than 2^28 bytes, the faults of the
/// header and of the body as of `read_header` and `read_body`. `Store` comes only where the store's count of faults
/// rose.
pub fn read_snapshot<S: BlobStore>(
    alloc: Global,
    store: &mut S,
    name: &BlobName,
) -> Result<Loaded, BlobFault>
    ensures tells { IfSome (S.seen store.old).held (λ held. TellsSnapshot name.now (told (S.seen store.old).held name.now) result) }
    ensures exact { IfSome (told (S.seen store.old).held name.now) (λ blob. ReadsExactly blob result) }
    ensures whole { IfOk result (λ loaded. IsWholeBody (record { model = loaded.model; states = loaded.states })) }
    ensures kind { IfErr result (IsSnapshotFault name.now) }
    ensures kept { (S.seen store.new).held ≡ (S.seen store.old).held }
    ensures unput { (S.seen store.new).puts ≡ (S.seen store.old).puts }
    ensures later { (S.seen store.old).faults ≤ (S.seen store.new).faults }
    ensures cause { result ≡ Err BlobFault.Store → Rose (S.seen store.old).faults (S.seen store.new).faults }
{
    let mut cursor = Cursor::start(alloc, store, name)?;
    let header = cursor.read_header(store)?;
    let Body { model, states } = read_body(alloc, &mut cursor, store)?;
    Ok(Loaded {
        header,
        model,
        states,
    })
}
