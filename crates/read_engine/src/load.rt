//! Loading the state of a snapshot.
ghost use Rattle.std.specs.Prelude.{◌≡◌, ◌≤◌, All, Err, IfErr, IfOk, IfSome, IsSome, Some, length, map, replicate};
ghost use Rattle.hol_io.specs.declared.name.BlobName.TheVariants.{Snapshot};
ghost use Rattle.hol_io.specs.Causes.{Rose};
ghost use Rattle.hol_io.specs.Store.{told};
ghost use Rattle.schema_model.specs.Model.{IsModel};
ghost use Rattle.type_state.specs.State.{IsLaidOut};
ghost use Rattle.type_state.specs.Views.{next_halves};
ghost use Rattle.snapshot_blob.specs.Body.{IsWholeBody};
ghost use Rattle.snapshot_blob.specs.Snapshot.{IsSnapshotFault};
ghost use Rattle.row_model.specs.Before.{no_part};
ghost use Rattle.state_moves.specs.Halves.{current_halves};
ghost use Rattle.read_engine.specs.Taking.{TellsLoaded, loaded_position};

use crate::Consumer;
use crate::indexes::KeyIndexes;
use crate::walks::WalkIndexes;
use blob_frame::BlobFault;
use hol_io::{BlobName, BlobStore};
use snapshot_blob::{Body, Loaded, read_snapshot};
use state_moves::{PastParts, flip_all, no_past};
use std::alloc::Global;
use type_state::TypeStates;

/// A consumer that has the state of the snapshot of a version.
pub(crate) fn load<S: BlobStore>(
    alloc: Global,
    store: &mut S,
    version: u64,
) -> Result<Consumer, BlobFault>
    ensures tells { IfSome (S.seen store.old).held (λ held. TellsLoaded (Snapshot version) (told (S.seen store.old).held (Snapshot version)) result) }
    ensures state { IfOk result (λ now. IsSome now) }
    ensures kind { IfErr result (IsSnapshotFault (Snapshot version)) }
    ensures cause { result ≡ Err BlobFault.Store → Rose (S.seen store.old).faults (S.seen store.new).faults }
    ensures kept { (S.seen store.new).held ≡ (S.seen store.old).held }
    ensures later { (S.seen store.old).faults ≤ (S.seen store.new).faults }
    ensures unput { (S.seen store.new).puts ≡ (S.seen store.old).puts }
{
    let name = BlobName::Snapshot(version);
    let Loaded {
        header,
        model,
        states,
    } = read_snapshot(alloc, store, &name)?;
    let past = no_past(alloc, model.len())?;
    Ok(standing(alloc, header.destination, Body { model, states }, past))
}

// A consumer that has the state of a body, with this tag; nothing changed of its types, and no index nor walk index is kept.
fn standing(alloc: Global, tag: i64, body: Body, past: PastParts) -> Consumer
    requires whole { IsWholeBody body }
    requires model { IsModel body.model }
    requires past { past ≡ replicate (length body.model) no_part }
    ensures { result ≡ Some (loaded_position tag body) }
{
    let Body { model, states } = body;
    Consumer {
        alloc,
        tag: Some(tag),
        model,
        states: flipped(states),
        past,
        indexes: KeyIndexes::new(alloc),
        walks: WalkIndexes::new(alloc),
    }
}

// The states with their next halves as the current ones.
fn flipped(states: TypeStates) -> TypeStates
    requires { All (λ state. IsLaidOut state.schema state.other) states }
    ensures halves { current_halves result ≡ next_halves states }
    ensures schemas { map (λ state. state.schema) result ≡ map (λ state. state.schema) states }
{
    let mut states = states.into_vec();
    flip_all(states.as_mut_slice());
    TypeStates::from_vec(states)
}
