//! Whether a new state may follow the last one that is published.
ghost use Rattle.std.specs.Prelude.{◌≡◌, ℕ, IfOk, IfSome};
ghost use Rattle.chain_store.specs.Announced.{IsAnnounced};
ghost use Rattle.hol_orders.specs.Stops.{HasStopCause};
ghost use Rattle.hol_answers.specs.Refusal.{bad_item};
ghost use Rattle.producer_orders.specs.Parts.{TellsFollow};

use chain_store::{Announcement, announced_version, greatest_version, is_tag_taken, names_of};
use hol_answers::{ItemFault, Refusal};
use hol_io::{BlobName, BlobStore};
use hol_orders::OrderStop;
use schema_model::Reason;
use std::alloc::Global;

/// Why a state of this version and tag may not follow the producer's last one, whose version is `last`: what the store announces is no
/// version, or not the last one; or the version is not above each that a name of the store has; or the tag is 0 or a blob has it. The first
/// of these is answered, and `None` exactly where there is none. `Store` comes only where the store's count of faults rose.
pub(crate) fn why_not<S: BlobStore>(
    alloc: Global,
    store: &mut S,
    last: u64,
    version: u64,
    tag: i64,
) -> Result<Option<Refusal>, OrderStop>
    ensures tells { IfSome (S.seen store.old).held (λ held. IfOk result (TellsFollow held last version tag)) }
    ensures cause { HasStopCause (S.seen store.old).faults (S.seen store.new).faults result }
    ensures kept { (S.seen store.new).held ≡ (S.seen store.old).held }
    ensures unput { (S.seen store.new).puts ≡ (S.seen store.old).puts }
{
    match announced_version(store)? {
        Announcement::Bad => Ok(Some(bad_announcement())),
        Announcement::Version(announced) if announced != last => Ok(Some(Refusal::NotLast(
            announced,
        ))),
        Announcement::Version(_) => why_not_next(alloc, store, version, tag),
    }
}

// The refusal of a store whose announced version is none.
fn bad_announcement() -> Refusal
    ensures { result ≡ bad_item BlobName.Announced 0 Reason.BadAnnounced }
{
    Refusal::BadBlob(ItemFault {
        blob: BlobName::Announced,
        at: 0,
        reason: Reason::BadAnnounced,
        row: None,
    })
}

// Why a state of this version and tag may not follow the announced one.
fn why_not_next<S: BlobStore>(
    alloc: Global,
    store: &mut S,
    version: u64,
    tag: i64,
) -> Result<Option<Refusal>, OrderStop>
    ensures tells { IfSome (S.seen store.old).held
        (λ held. IfOk result (λ answer. (last : ℕ) → IsAnnounced held last → TellsFollow held last version tag answer)) }
    ensures cause { HasStopCause (S.seen store.old).faults (S.seen store.new).faults result }
    ensures kept { (S.seen store.new).held ≡ (S.seen store.old).held }
    ensures unput { (S.seen store.new).puts ≡ (S.seen store.old).puts }
{
    let names = names_of(alloc, store)?;
    let greatest = greatest_version(names.as_slice());
    if version <= greatest {
        return Ok(Some(Refusal::BadVersion(greatest)));
    }
    if tag == 0 || is_tag_taken(store, names.as_slice(), tag)? {
        return Ok(Some(Refusal::TagUsed(tag)));
    }
    Ok(None)
}
