//! The walk of the script: along the published versions, and back to the first.
ghost use Rattle.std.specs.Prelude.{◌≡◌, ◌≤◌, IfOk, IfSome, IsErrOf};
ghost use Rattle.hol_io.specs.Causes.{Rose};
ghost use Rattle.hollow_machine.specs.CheckOrder.{CheckReply};
ghost use Rattle.hollow_machine.specs.MakeCommand.{there_and_back};
ghost use Rattle.hollow_make.specs.Walked.{ArePublished};

use crate::progress::Progress;
use chain_orders::check;
use hol_answers::Reply;
use hol_io::BlobStore;
use hol_orders::{OrderStop, Versions};
use std::alloc::{AllocError, Global};

/// Checks the published versions there and back. Where there are none there is nothing to walk along.
pub(crate) fn check_walk<S: BlobStore, P: Progress>(
    alloc: Global,
    store: &mut S,
    published: &Versions,
    progress: &mut P,
) -> Result<Reply, OrderStop>
    requires { ArePublished published.now }
    ensures reply { IfSome (S.seen store.old).held (λ held. IfOk result (CheckReply held (there_and_back published.now))) }
    ensures held { (S.seen store.new).held ≡ (S.seen store.old).held }
    ensures store_fault { IsErrOf result OrderStop.Store → Rose (S.seen store.old).faults (S.seen store.new).faults }
    ensures later { (S.seen store.old).faults ≤ (S.seen store.new).faults }
{
    if published.is_empty() {
        return Ok(Reply::Check {
            compared: 0,
            states: 0,
        });
    }
    let versions = there_and_back(alloc, published)?;
    progress.walk(versions.len() as u64);
    check(alloc, store, &versions)
}

// The versions as they rise, and back to the first.
fn there_and_back(alloc: Global, published: &Versions) -> Result<Versions, AllocError>
    ensures { IfOk result (λ versions. versions ≡ there_and_back published.now) }
{
    let rising = published.as_slice();
    let versions = rising.iter().chain(rising.iter().rev().skip(1));
    Ok(Versions::from_vec(versions.copied().collect(alloc)?))
}
