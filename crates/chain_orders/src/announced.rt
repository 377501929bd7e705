//! Whether a version is the announced one.
ghost use Rattle.std.specs.Prelude.{◌≡◌, IfOk, IfSome, MatchOption};
ghost use Rattle.hol_io.specs.Name.{IsVersion};
ghost use Rattle.hol_orders.specs.Stops.{HasStopCause};
ghost use Rattle.hollow_machine.specs.RestoreOrder.{IsLast, IsNotLast};

use chain_store::{Announcement, announced_version};
use hol_answers::{ItemFault, Refusal};
use hol_io::{BlobName, BlobStore};
use hol_orders::OrderStop;
use schema_model::Reason;

/// Why a version, which is 1 or above, is not the one that a store announces: the store has no announced version; or what it has is none; or it
/// is another one. `None` exactly where it is. `Store` comes only where the store's count of faults rose.
pub(crate) fn why_not_last<S: BlobStore>(
    store: &mut S,
    version: u64,
) -> Result<Option<Refusal>, OrderStop>
    requires { IsVersion version }
    ensures tells { IfSome (S.seen store.old).held (λ held. IfOk result (λ answer. MatchOption answer (IsLast held version) (IsNotLast held version))) }
    ensures cause { HasStopCause (S.seen store.old).faults (S.seen store.new).faults result }
    ensures kept { (S.seen store.new).held ≡ (S.seen store.old).held }
    ensures unput { (S.seen store.new).puts ≡ (S.seen store.old).puts }
{
    match announced_version(store)? {
        Announcement::Bad => Ok(Some(Refusal::BadBlob(ItemFault {
            blob: BlobName::Announced,
            at: 0,
            reason: Reason::BadAnnounced,
            row: None,
        }))),
        Announcement::Version(0) => Ok(Some(Refusal::NoBlob(BlobName::Announced))),
        Announcement::Version(announced) if announced != version => Ok(Some(Refusal::NotLast(
            announced,
        ))),
        Announcement::Version(_) => Ok(None),
    }
}
