//! The body of a snapshot: what stands behind its header.
ghost use Rattle.std.specs.Prelude.{◌≡◌, ◌≤◌, Err, IfErr, IfOk, IfSome};
ghost use Rattle.hol_io.specs.Causes.{Rose};
ghost use Rattle.hol_io.specs.Store.{told};
ghost use Rattle.type_state.specs.Views.{table_of, next_halves};
ghost use Rattle.blob_cursor.specs.Scene.{IsAbove};
ghost use Rattle.snapshot_blob.specs.Body.{IsBodyFault, IsWholeBody, ReadsBody, TellsBody};

use crate::part::body;
use crate::types::state_of;
use blob_cursor::Cursor;
use blob_frame::BlobFault;
use hol_io::BlobStore;
use schema_model::Model;
use std::alloc::Global;
use type_state::{NextRows, TypeStates, next_of};

/// The body of a snapshot that was read: its model, and each type's rows in the next half of its state.
#[derive(Drop)]
pub struct Body {
    /// The model that the types of the blob are.
    pub model: Model,
    /// The types in model order, each with the rows of the snapshot in its next half and none in its current one.
    pub states: TypeStates,
}

impl Body {
    /// The rows of the snapshot.
    pub fn rows(&self) -> NextRows<'_>
        requires { IsWholeBody self.now }
        ensures schemas { result.schemas ≡ self.now.model }
        ensures table { result.table ≡ table_of (next_halves self.now.states) }
    {
        next_of(&self.model, &self.states)
    }
}

/// Reads the body of a snapshot, from where the cursor stands behind the header up to the end of the blob, and makes its
/// state: its model, and the rows of each type in the next half of a state. Nothing is kept of a body that is refused.
///
/// The fault is that of the first trial that fails, and each comes exactly where it is that, or a free one in its place:
/// `Bad` at the first item that cannot be read; `Bad` with `BadSchema` at the first type that fails a test of models, each
/// of which goes over all types before the next; type by type `Large` where an ordinal is 2^22 or more, or a total over
/// 2^25; type by type `BadRow` at a row that is not spelled or that its widths cannot hold, and `Large` where the type has
/// more words or bytes than a state may have; `BadRow` with `Dangling` at the first row that names an ordinal that is not
/// live. `Memory` is free, and so is `Store`, which comes only where the store's count of faults rose.
pub fn read_body<S: BlobStore>(
    alloc: Global,
    cursor: &mut Cursor,
    store: &mut S,
) -> Result<Body, BlobFault>
    requires over { IsAbove S.seen store.old cursor.old }
    ensures tells { IfSome (told (S.seen store.old).held cursor.old.name) (λ blob. TellsBody blob cursor.old.at result) }
    ensures exact { IfSome (told (S.seen store.old).held cursor.old.name) (λ blob. ReadsBody blob cursor.old.at result) }
    ensures whole { IfOk result IsWholeBody }
    ensures kind { IfErr result IsBodyFault }
    ensures kept { (S.seen store.new).held ≡ (S.seen store.old).held }
    ensures unput { (S.seen store.new).puts ≡ (S.seen store.old).puts }
    ensures later { (S.seen store.old).faults ≤ (S.seen store.new).faults }
    ensures cause { result ≡ Err BlobFault.Store → Rose (S.seen store.old).faults (S.seen store.new).faults }
{
    let parts = body(alloc, cursor, store)?;
    state_of(alloc, parts)
}
