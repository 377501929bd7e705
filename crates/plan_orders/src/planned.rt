//! The blobs of a store that lead to a version.
ghost use Rattle.std.specs.Prelude.{◌≡◌, ◌≢◌, All, IfOk, IfSome};
ghost use Rattle.hol_io.specs.declared.name.BlobName.TheVariants.{Announced};
ghost use Rattle.hol_io.specs.Store.{names};
ghost use Rattle.hol_orders.specs.Stops.{HasStopCause};
ghost use Rattle.hol_plan.specs.Walk.{TellsPlan};

use chain_store::names_of;
use hol_io::BlobStore;
use hol_orders::OrderStop;
use hol_plan::{BlobNames, plan};
use std::alloc::Global;

/// The fewest blobs of a store that lead from a version, or from none, to another, in the order in which they are applied, and none where none lead there.
/// The announced version is none of them. `Store` comes only where the store's count of faults rose.
pub(crate) fn planned<S: BlobStore>(
    alloc: Global,
    store: &mut S,
    from: Option<u64>,
    to: u64,
) -> Result<Option<BlobNames>, OrderStop>
    ensures plan { IfSome (S.seen store.old).held (λ held. IfOk result (TellsPlan (names held) from to)) }
    ensures blobs { IfOk result (λ plan. IfSome plan (All (λ name. name ≢ Announced))) }
    ensures cause { HasStopCause (S.seen store.old).faults (S.seen store.new).faults result }
    ensures kept { (S.seen store.new).held ≡ (S.seen store.old).held }
    ensures unput { (S.seen store.new).puts ≡ (S.seen store.old).puts }
{
    let listed = names_of(alloc, store)?;
    let blobs = plan(alloc, &BlobNames::from_vec(listed), from, to)?;
    Ok(blobs)
}
