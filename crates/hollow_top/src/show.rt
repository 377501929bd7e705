//! `show`: the rows of a snapshot.
ghost use Rattle.std.specs.Prelude.{◌≡◌, ◌≤◌, ◌⊎◌, IfSome, IsErrOf};
ghost use Rattle.hol_io.specs.Causes.{Rose};
ghost use Rattle.hollow_top.specs.Show.{Shows};
ghost use Rattle.hollow_top.specs.Stopping.{GainsFront, IsVerdict, Leaves};

use crate::answer::write_reply;
use crate::row_lines::show_rows;
use crate::stop::Stop;
use hol_answers::{Reply, blob_refusal};
use hol_io::{BlobName, BlobStore, Sink};
use snapshot_blob::read_snapshot;
use std::alloc::Global;

/// Writes a line for each row of the snapshot of a version, types in model order and the ordinals of each type rising,
/// or the one line of a refusal, with the first fault of the blob: `NoBlob`, `TooLarge` or `BadBlob`. It tells whether
/// it was refused. Where memory is refused, the sink has a front of what was to be written.
pub fn show<O: Sink, S: BlobStore>(
    alloc: Global,
    version: u64,
    out: &mut O,
    store: &mut S,
) -> Result<bool, Stop>
    ensures served { IfSome (S.seen store.old).held
        (λ held. Leaves (Shows held version) (O.taken out.old) (O.taken out.new) result) }
    ensures verdict { Leaves IsVerdict (O.taken out.old) (O.taken out.new) result }
    ensures sink_fault { IsErrOf result Stop.Sink → Rose (O.faults out.old) (O.faults out.new) }
    ensures store_fault { IsErrOf result Stop.Store → Rose (S.seen store.old).faults (S.seen store.new).faults }
    ensures held { (S.seen store.new).held ≡ (S.seen store.old).held }
    ensures unput { (S.seen store.new).puts ≡ (S.seen store.old).puts }
    ensures silent { IsErrOf result Stop.Store → out.new ≡ out.old }
    ensures stopped { IsErrOf result Stop.Memory → (out.new ≡ out.old) ⊎ IfSome (S.seen store.old).held
        (λ held. GainsFront (Shows held version) (O.taken out.old) (O.taken out.new)) }
{
    let name = BlobName::Snapshot(version);
    match read_snapshot(alloc, store, &name) {
        Ok(loaded) => {
            show_rows(alloc, &loaded.rows(), out)?;
            Ok(false)
        }
        Err(fault) => write_reply(alloc, Reply::Refused(blob_refusal(&name, fault)?), out),
    }
}
