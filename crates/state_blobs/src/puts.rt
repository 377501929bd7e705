//! What a cycle puts into the store.
ghost use Rattle.std.specs.Prelude.{◌≡◌, OnErr, OnOk};
ghost use Rattle.std.specs.Option.{option_map};
ghost use Rattle.hol_io.specs.Causes.{HasPutCause};
ghost use Rattle.state_blobs.specs.Puts.{put_all, puts_of};
ghost use Rattle.state_blobs.specs.Blobs.{IsPartlyPut, puts_in, whole_in};

use crate::write::Blobs;
use hol_io::{BlobName, BlobStore, PutFault};
use std::alloc::Global;

/// Puts the blobs of a state, and then announces its version. A put that is refused is the last one. `Failed` comes only where the store's count of
/// faults rose.
pub fn publish<S: BlobStore>(
    alloc: Global,
    store: &mut S,
    version: u64,
    blobs: &Blobs,
) -> Result<(), PutFault>
    ensures put { OnOk result ((S.seen store.new).held ≡ option_map (λ held. put_all held (puts_of (puts_in blobs.now) version)) (S.seen store.old).held) }
    ensures part { OnErr result (IsPartlyPut (puts_of (puts_in blobs.now) version) (S.seen store.old).held (S.seen store.new).held) }
    ensures cause { HasPutCause (S.seen store.old).faults (S.seen store.new).faults result }
{
    let announced = version.to_string(alloc)?;
    put_blobs(store, blobs)?;
    store.put(&BlobName::Announced, announced.as_str().as_bytes())
}

// Puts the blobs of a state.
fn put_blobs<S: BlobStore>(store: &mut S, blobs: &Blobs) -> Result<(), PutFault>
    ensures put { OnOk result ((S.seen store.new).held ≡ option_map (λ held. put_all held (puts_in blobs.now)) (S.seen store.old).held) }
    ensures part { OnErr result (IsPartlyPut (puts_in blobs.now) (S.seen store.old).held (S.seen store.new).held) }
    ensures cause { HasPutCause (S.seen store.old).faults (S.seen store.new).faults result }
{
    match blobs {
        Blobs::First { version, snapshot } => {
            store.put(&BlobName::Snapshot(*version), snapshot.as_slice())
        }
        Blobs::Later {
            last,
            version,
            delta,
            reverse,
            snapshot,
        } => {
            store.put(&BlobName::Delta(*last, *version), delta.as_slice())?;
            store.put(&BlobName::Reverse(*version, *last), reverse.as_slice())?;
            put_whole(store, *version, snapshot)
        }
    }
}

// Puts a snapshot, where there is one.
fn put_whole<S: BlobStore>(
    store: &mut S,
    version: u64,
    snapshot: &Option<Vec<u8>>,
) -> Result<(), PutFault>
    ensures put { OnOk result ((S.seen store.new).held ≡ option_map (λ held. put_all held (whole_in version snapshot.now)) (S.seen store.old).held) }
    ensures kept { OnErr result ((S.seen store.new).held ≡ (S.seen store.old).held) }
    ensures cause { HasPutCause (S.seen store.old).faults (S.seen store.new).faults result }
{
    match snapshot {
        Some(snapshot) => store.put(&BlobName::Snapshot(version), snapshot.as_slice()),
        None => Ok(()),
    }
}
