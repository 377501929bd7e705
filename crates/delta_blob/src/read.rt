//! Reading a delta against a model.
ghost use Rattle.std.specs.Prelude.{◌≡◌, ◌≤◌, All, Err, IfErr, IfOk, IfSome, OnOk, length};
ghost use Rattle.hol_io.specs.Causes.{Rose};
ghost use Rattle.hol_io.specs.Store.{told};
ghost use Rattle.schema_model.specs.Model.{IsModel};
ghost use Rattle.blob_cursor.specs.Scene.{IsAbove};
ghost use Rattle.delta_blob.specs.Reads.{FailsDelta, FailsPatch, FindsDelta, IsDeltaFault, IsPatchFault, IsWholePart, TellsDelta, TellsPatch};

use crate::of_model::parts_of;
use crate::part::body;
use crate::patch::{Patch, PatchParts};
use blob_cursor::{Cursor, opened};
use blob_frame::BlobFault;
use hol_io::{BlobName, BlobStore};
use schema_model::Model;
use std::alloc::Global;

/// Reads the types of a delta, from where the cursor stands behind the header up to the end of the blob, as types of a model: each as the model's schema
/// of its name sees it.
///
/// The fault is that of the first which fails of what is tried in turn: `Bad` comes at the first item that cannot be read, then with `BadSchema` at
/// the first schema whose name stands earlier or has a field twice; `OtherModel` names the first type whose schema does not agree with the model's of its
/// name; `Large` comes for the first type that the model has of which the max ordinal is 2^22 or more, or the total over 2^25. Types that the model has not
/// are passed over. `Store` comes only where the store's count of faults rose.
pub fn read_patch<S: BlobStore>(
    alloc: Global,
    cursor: &mut Cursor,
    store: &mut S,
    model: &Model,
) -> Result<PatchParts, BlobFault>
    requires over { IsAbove S.seen store.old cursor.old }
    ensures tells { IfSome (told (S.seen store.old).held cursor.old.name) (λ blob. TellsPatch blob cursor.old.at model.now result) }
    ensures fails { IfSome (told (S.seen store.old).held cursor.old.name) (λ blob. FailsPatch blob cursor.old.at model.now result) }
    ensures model { OnOk result (IsModel model.now) }
    ensures kind { IfErr result IsPatchFault }
    ensures whole { IfOk result (All (IsWholePart model.now)) }
    ensures ends { OnOk result (IfSome (told (S.seen store.old).held cursor.old.name) (λ blob. cursor.new.at ≡ length blob)) }
    ensures kept { (S.seen store.new).held ≡ (S.seen store.old).held }
    ensures unput { (S.seen store.new).puts ≡ (S.seen store.old).puts }
    ensures later { (S.seen store.old).faults ≤ (S.seen store.new).faults }
    ensures cause { result ≡ Err BlobFault.Store → Rose (S.seen store.old).faults (S.seen store.new).faults }
{
    let parts = body(alloc, cursor, store)?;
    parts_of(alloc, parts, model)
}

/// Reads the delta of a name from a store, from the current tag of a model's state on.
///
/// `NoBlob` comes where the store has no such name, `Large` with `Blob` where the blob has more than 2^28 bytes, the faults of the header as of
/// `read_header`, then `OtherOrigin` where its origin tag is not the current one, and then the faults of `read_patch`. `Store` comes only where
/// the store's count of faults rose.
pub fn read_delta<S: BlobStore>(
    alloc: Global,
    store: &mut S,
    name: &BlobName,
    current: i64,
    model: &Model,
) -> Result<Patch, BlobFault>
    ensures tells { IfSome (S.seen store.old).held (λ held. TellsDelta name.now current model.now (told (S.seen store.old).held name.now) result) }
    ensures found { IfSome (told (S.seen store.old).held name.now) (λ blob. FindsDelta current model.now blob result) }
    ensures fails { IfSome (told (S.seen store.old).held name.now) (λ blob. FailsDelta current model.now blob result) }
    ensures kind { IfErr result (IsDeltaFault name.now current) }
    ensures whole { IfOk result (λ patch. All (IsWholePart model.now) patch.parts) }
    ensures kept { (S.seen store.new).held ≡ (S.seen store.old).held }
    ensures unput { (S.seen store.new).puts ≡ (S.seen store.old).puts }
    ensures later { (S.seen store.old).faults ≤ (S.seen store.new).faults }
    ensures cause { result ≡ Err BlobFault.Store → Rose (S.seen store.old).faults (S.seen store.new).faults }
{
    delta_of_blob(alloc, store, name, current, model)
}

// The delta of a name, as it is read.
fn delta_of_blob<S: BlobStore>(
    alloc: Global,
    store: &mut S,
    name: &BlobName,
    current: i64,
    model: &Model,
) -> Result<Patch, BlobFault>
    ensures tells { IfSome (S.seen store.old).held (λ held. TellsDelta name.now current model.now (told (S.seen store.old).held name.now) result) }
    ensures model { OnOk result (IsModel model.now) }
    ensures kind { IfErr result (IsDeltaFault name.now current) }
    ensures whole { IfOk result (λ patch. All (IsWholePart model.now) patch.parts) }
    ensures kept { (S.seen store.new).held ≡ (S.seen store.old).held }
    ensures unput { (S.seen store.new).puts ≡ (S.seen store.old).puts }
    ensures later { (S.seen store.old).faults ≤ (S.seen store.new).faults }
    ensures cause { result ≡ Err BlobFault.Store → Rose (S.seen store.old).faults (S.seen store.new).faults }
{
    let (header, mut cursor) = opened(alloc, store, name)?;
    if header.origin != current {
        return Err(BlobFault::OtherOrigin(header.origin, current));
    }
    let parts = read_patch(alloc, &mut cursor, store, model)?;
    Ok(Patch {
        destination: header.destination,
        length: cursor.at(),
        parts,
    })
}
