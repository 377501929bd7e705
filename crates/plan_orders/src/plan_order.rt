//! The order `plan`.
ghost use Rattle.std.specs.Prelude.{◌≡◌, ◌≤◌, IsErrOf};
ghost use Rattle.hol_io.specs.Causes.{Rose};
ghost use Rattle.hollow_machine.specs.Kept.{Kept, Moves};
ghost use Rattle.hollow_machine.specs.PlanOrders.{PlanReply};

use crate::planned::planned;
use hol_answers::{Refusal, Reply};
use hol_io::BlobStore;
use hol_orders::OrderStop;
use std::alloc::Global;

/// Shows the fewest blobs of the store that lead a consumer from its version, or from none, to the one that is wanted, in the order in which `goto` applies
/// them: none where it is the consumer's own. Refused with `NoPlan` where no blobs lead there. The store stays as it is. `Store` comes only where the store's
/// count of faults rose.
#[inline(never)]
pub fn plan<S: BlobStore>(
    alloc: Global,
    store: &mut S,
    version: Option<u64>,
    wanted: u64,
) -> Result<Reply, OrderStop>
    ensures step { (kept : Kept) → kept.reader.version ≡ version
        → Moves (λ machine reply next. PlanReply machine wanted reply × (next ≡ machine)) (S.seen store.old).held kept (S.seen store.old).held kept result }
    ensures held { (S.seen store.new).held ≡ (S.seen store.old).held }
    ensures puts { (S.seen store.new).puts ≡ (S.seen store.old).puts }
    ensures store_fault { IsErrOf result OrderStop.Store → Rose (S.seen store.old).faults (S.seen store.new).faults }
    ensures later { (S.seen store.old).faults ≤ (S.seen store.new).faults }
{
    match planned(alloc, store, version, wanted)? {
        Some(blobs) => Ok(Reply::Plan(blobs)),
        None => Ok(Reply::Refused(Refusal::NoPlan {
            from: version,
            to: wanted,
        })),
    }
}
