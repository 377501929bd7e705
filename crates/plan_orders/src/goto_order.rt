//! The order `goto`.
ghost use Rattle.std.specs.Prelude.{◌≡◌, ◌≢◌, ◌≤◌, All, IfOk, IsErrOf, MatchOption, false};
ghost use Rattle.hol_io.specs.declared.name.BlobName.TheVariants.{Announced};
ghost use Rattle.hol_io.specs.Causes.{Rose};
ghost use Rattle.hol_answers.specs.Reply.{is_refusal};
ghost use Rattle.hollow_machine.specs.Kept.{IsReader, MovesReader, reader_of};
ghost use Rattle.hollow_machine.specs.PlanOrders.{GotoStep};
ghost use Rattle.plan_orders.specs.Going.{GoesAlong};

use crate::planned::planned;
use consumer_orders::apply;
use hol_answers::{Progress, Refusal, Reply};
use hol_history::History;
use hol_io::{BlobName, BlobStore};
use hol_orders::OrderStop;
use read_engine::Consumer;
use std::alloc::Global;

/// The consumer goes along the fewest blobs of the store that lead it from its version, or from none, to the one that is wanted: each is applied as `load` and
/// `step` do, up to the first that is refused. The answer tells how many of how many were applied, why the next one was refused, if one was, and the
/// consumer's tag then; what was applied stays so. Refused with `NoPlan` where no blobs lead there: then all is as before.
///
/// A stop may come behind some of the blobs, which stay applied; the history leads to where the consumer stands in each case. The store stays as it is. `Store`
/// comes only where the store's count of faults rose.
#[inline(never)]
pub fn goto<S: BlobStore>(
    alloc: Global,
    store: &mut S,
    consumer: &mut Consumer,
    version: &mut Option<u64>,
    history: &mut History,
    wanted: u64,
) -> Result<Reply, OrderStop>
    requires reading { IsReader (reader_of consumer.old version.old history.old) }
    ensures step { MovesReader (λ machine reply next. GotoStep machine wanted reply next) (S.seen store.old).held
        (reader_of consumer.old version.old history.old) (reader_of consumer.new version.new history.new) result }
    ensures reading { IsReader (reader_of consumer.new version.new history.new) }
    ensures held { (S.seen store.new).held ≡ (S.seen store.old).held }
    ensures puts { (S.seen store.new).puts ≡ (S.seen store.old).puts }
    ensures store_fault { IsErrOf result OrderStop.Store → Rose (S.seen store.old).faults (S.seen store.new).faults }
    ensures later { (S.seen store.old).faults ≤ (S.seen store.new).faults }
{
    let Some(blobs) = planned(alloc, store, *version, wanted)? else {
        return Ok(Reply::Refused(Refusal::NoPlan {
            from: *version,
            to: wanted,
        }));
    };
    let (applied, refused) = go_along(store, consumer, version, history, blobs.as_slice())?;
    Ok(Reply::Goto(Progress {
        applied,
        of: blobs.len() as u64,
        refused,
        tag: consumer.tag(),
    }))
}

// Applies the blobs of these names one after the other, up to the first that is refused: how many were applied, and why the next one was refused, if one was.
// Nothing is kept of a blob that is applied, beside what the history keeps of a step.
fn go_along<S: BlobStore>(
    store: &mut S,
    consumer: &mut Consumer,
    version: &mut Option<u64>,
    history: &mut History,
    names: &[BlobName],
) -> Result<(u64, Option<Refusal>), OrderStop>
    requires blobs { All (λ name. name ≢ Announced) names.now }
    requires reading { IsReader (reader_of consumer.old version.old history.old) }
    ensures goes { IfOk result (λ gone. GoesAlong (S.seen store.old).held (reader_of consumer.old version.old history.old) names.now gone.0 gone.1
        (reader_of consumer.new version.new history.new)) }
    ensures reading { IsReader (reader_of consumer.new version.new history.new) }
    ensures held { (S.seen store.new).held ≡ (S.seen store.old).held }
    ensures puts { (S.seen store.new).puts ≡ (S.seen store.old).puts }
    ensures store_fault { IsErrOf result OrderStop.Store → Rose (S.seen store.old).faults (S.seen store.new).faults }
    ensures later { (S.seen store.old).faults ≤ (S.seen store.new).faults }
{
    let mut applied = 0;
    for name in names {
        let reply = apply(store, consumer, version, history, name)?;
        if let Some(refusal) = refusal_in(reply) {
            return Ok((applied, Some(refusal)));
        }
        applied += 1;
    }
    Ok((applied, None))
}

// Why an order is refused, if it is.
fn refusal_in(reply: Reply) -> Option<Refusal>
    ensures { MatchOption result (is_refusal reply ≡ false) (λ refusal. reply ≡ Reply.Refused refusal) }
{
    match reply {
        Reply::Refused(refusal) => Some(refusal),
        _ => None,
    }
}
