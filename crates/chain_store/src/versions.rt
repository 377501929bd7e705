//! The versions in the names of a store's blobs.
ghost use Rattle.std.specs.Prelude.{◌≡◌, IfOk, IfSome};
ghost use Rattle.hol_io.specs.Causes.{HasPutCause};
ghost use Rattle.hol_io.specs.Store.{names};
ghost use Rattle.chain_store.specs.Versions.{greatest_version, newest};

use hol_io::{BlobName, BlobStore, PutFault};
use std::alloc::Global;

/// The names of a store's blobs, each once: the snapshots, the deltas, the reverse deltas and the announced version, each kind by its numbers
/// rising. `Failed` comes only where the store's count of faults rose.
pub fn names_of<S: BlobStore>(alloc: Global, store: &mut S) -> Result<Vec<BlobName>, PutFault>
    ensures names { IfSome (S.seen store.old).held (λ held. IfOk result (λ listed. listed.items ≡ names held)) }
    ensures cause { HasPutCause (S.seen store.old).faults (S.seen store.new).faults result }
    ensures kept { (S.seen store.new).held ≡ (S.seen store.old).held }
    ensures unput { (S.seen store.new).puts ≡ (S.seen store.old).puts }
{
    let mut listed = Vec::new(alloc);
    store.list(&mut listed)?;
    Ok(listed)
}

/// The greatest version in some names, 0 where they have none.
pub fn greatest_version(listed: &[BlobName]) -> u64
    ensures { result ≡ greatest_version listed.now }
{
    listed.iter().map(newest).max().unwrap_or(0)
}

// The greatest version of a name, 0 where it names none.
fn newest(name: &BlobName) -> u64
    ensures { result ≡ newest name.now }
{
    match *name {
        BlobName::Snapshot(version) => version,
        BlobName::Delta(from, to) | BlobName::Reverse(from, to) => from.max(to),
        BlobName::Announced => 0,
    }
}
