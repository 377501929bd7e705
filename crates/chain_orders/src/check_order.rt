//! The order `check`.
ghost use Rattle.std.specs.Prelude.{◌≡◌, ◌<◌, ◌≤◌, Option, IfErr, IfOk, IfSome, IsErrOf, length};
ghost use Rattle.hol_io.specs.Causes.{Rose};
ghost use Rattle.chain_check.specs.Walk.{Both, IsStoreOr, NeighboursDiffer, TellsCheck, calls_by, compared_in};
ghost use Rattle.read_engine.specs.Position.{Position};
ghost use Rattle.read_engine.specs.Walking.{WalksLoad, WalksStep, schemas_at, table_at, tag_at};
ghost use Rattle.hol_orders.specs.Shapes.{IsWalk};
ghost use Rattle.hollow_machine.specs.CheckOrder.{CheckReply, both_new};

use blob_frame::BlobFault;
use chain_check::{CheckFault, check as check_walk};
use hol_answers::{Difference, Refusal, Reply, blob_refusal};
use hol_io::BlobStore;
use hol_orders::{OrderStop, Versions};
use read_engine::Walker;
use std::alloc::Global;

/// Walks along some versions with a consumer of its own, and compares its state at each whose snapshot the store has with that of the snapshot, loaded
/// afresh. The answer tells how many were compared, and how many versions there are.
/// It is refused for the first blob that cannot be taken on the way, or with `Mismatch` at the first version at which the states differ. The
/// store stays as it is. `Store` comes only where the store's count of faults rose.
#[inline(never)]
pub fn check<S: BlobStore>(
    alloc: Global,
    store: &mut S,
    versions: &Versions,
) -> Result<Reply, OrderStop>
    requires walk { IsWalk versions.now }
    ensures reply { IfSome (S.seen store.old).held (λ held. IfOk result (CheckReply held versions.now)) }
    ensures held { (S.seen store.new).held ≡ (S.seen store.old).held }
    ensures puts { (S.seen store.new).puts ≡ (S.seen store.old).puts }
    ensures store_fault { IsErrOf result OrderStop.Store → Rose (S.seen store.old).faults (S.seen store.new).faults }
    ensures later { (S.seen store.old).faults ≤ (S.seen store.new).faults }
{
    match walk_along(alloc, store, versions.as_slice()) {
        Ok(compared) => Ok(Reply::Check {
            compared,
            states: versions.len() as u64,
        }),
        Err(CheckFault::Walk(name, fault)) => {
            let refusal = blob_refusal(&name, fault)?;
            Ok(Reply::Refused(refusal))
        }
        Err(CheckFault::Mismatch(version, type_name, ordinal)) => Ok(Reply::Refused(
            Refusal::Mismatch(Difference {
                version,
                type_name,
                ordinal,
            }),
        )),
        Err(CheckFault::Store) => Err(OrderStop::Store),
        Err(CheckFault::Memory) => Err(OrderStop::Memory),
    }
}

// Walks along some versions with two walkers of its own: at how many of them they were compared, or why the walk ends.
fn walk_along<S: BlobStore>(
    alloc: Global,
    store: &mut S,
    versions: &[u64],
) -> Result<u64, CheckFault<BlobFault>>
    requires some { 0 < length versions.now }
    requires apart { NeighboursDiffer versions.now }
    ensures tells { (now : Both (Option Position))
        × TellsCheck (calls_by WalksLoad WalksStep tag_at schemas_at table_at) (S.seen store.old).held versions.now both_new now result }
    ensures compared { IfOk result (λ compared. IfSome (S.seen store.old).held (λ held. compared ≡ compared_in held versions.now)) }
    ensures cause { IfErr result (λ fault. IsStoreOr (λ why. why ≡ BlobFault.Store) fault → Rose (S.seen store.old).faults (S.seen store.new).faults) }
    ensures held { (S.seen store.new).held ≡ (S.seen store.old).held }
    ensures puts { (S.seen store.new).puts ≡ (S.seen store.old).puts }
    ensures later { (S.seen store.old).faults ≤ (S.seen store.new).faults }
{
    let mut walker = Walker::new(alloc);
    let mut fresh = Walker::new(alloc);
    check_walk(alloc, &mut walker, &mut fresh, store, versions)
}
