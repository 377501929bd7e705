//! `head`: the header of a blob.
ghost use Rattle.std.specs.Prelude.{◌≡◌, ◌≤◌, IfOk, IfErr, IfSome};
ghost use Rattle.hollow_top.specs.Head.{HeadReply};
ghost use Rattle.hollow_top.specs.Stopping.{StopsBefore};

use crate::stop::Stop;
use blob_cursor::opened;
use hol_answers::{Reply, blob_refusal};
use hol_io::{BlobName, BlobStore};
use std::alloc::Global;

/// The header of a blob of the store, or the refusal of it: `NoBlob` where the store has no such
/// name, `TooLarge` where the blob has more than 2^28 bytes, and `BadBlob` where its header cannot be
/// read, with the first item that is at fault. Only the header is read.
pub fn head<S: BlobStore>(alloc: Global, store: &mut S, name: &BlobName) -> Result<Reply, Stop>
    ensures reply { IfSome (S.seen store.old).held (λ held. IfOk result (HeadReply held name.now)) }
    ensures stop { IfErr result (StopsBefore (S.seen store.old).faults (S.seen store.new).faults) }
    ensures kept { (S.seen store.new).held ≡ (S.seen store.old).held }
    ensures later { (S.seen store.old).faults ≤ (S.seen store.new).faults }
    ensures unput { (S.seen store.new).puts ≡ (S.seen store.old).puts }
{
    match opened(alloc, store, name) {
        Ok((header, _cursor)) => Ok(Reply::Head(header)),
        Err(fault) => Ok(Reply::Refused(blob_refusal(name, fault)?)),
    }
}
