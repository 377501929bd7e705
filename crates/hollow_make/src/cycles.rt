//! The cycles of the script, one after another.
ghost use Rattle.std.specs.Prelude.{◌≡◌, ◌≤◌, ◌<◌, ◌++◌, ◌∷◌, [], IsErrOf, OnErr, OnOk, Some, if◌then◌else◌};
ghost use Rattle.hol_io.specs.Causes.{Rose};
ghost use Rattle.film_script.specs.Films.{film_schemas};
ghost use Rattle.hollow_machine.specs.Kept.{IsResting};
ghost use Rattle.hollow_make.specs.Parts.{HaltsScript, TellsCycles};
ghost use Rattle.hollow_make.specs.Walked.{ArePublished};

use crate::part::go_on;
use crate::progress::Progress;
use hol_answers::Reply;
use hol_io::BlobStore;
use hol_orders::{OrderStop, Versions};
use producer_orders::film_cycle;
use std::alloc::{AllocError, Global};
use write_engine::Producer;

/// Runs so many cycles of a producer of the script's model, and notes the versions that they publish; the answer is the first refusal, if one comes.
pub(crate) fn run_cycles<S: BlobStore, P: Progress>(
    alloc: Global,
    store: &mut S,
    producer: &mut Producer,
    seed: u32,
    rows: u32,
    cycles: u32,
    published: &mut Versions,
    progress: &mut P,
) -> Result<Option<Reply>, OrderStop>
    requires seed { seed ≤ 999999 }
    requires rows { rows ≤ 500000 }
    requires cycles { cycles ≤ 1000 }
    requires model { producer.old.schemas ≡ film_schemas }
    requires resting { IsResting producer.old }
    requires none { published.old ≡ [] }
    ensures tells { TellsCycles seed rows cycles (S.seen store.old).held producer.old (S.seen store.new).held producer.new published.new result }
    ensures halts { OnErr result (HaltsScript seed rows cycles (S.seen store.old).held producer.old (S.seen store.new).held) }
    ensures published { OnOk result (ArePublished published.new) }
    ensures resting { OnOk result (IsResting producer.new) }
    ensures store_fault { IsErrOf result OrderStop.Store → Rose (S.seen store.old).faults (S.seen store.new).faults }
    ensures later { (S.seen store.old).faults ≤ (S.seen store.new).faults }
{
    for place in 0..cycles {
        let cycle = place + 1;
        progress.cycle(cycle, cycles);
        let reply = film_cycle(alloc, store, producer, seed, rows, cycle)?;
        match go_on(reply) {
            Ok(is_published) => note(published, is_published, cycle)?,
            Err(refusal) => return Ok(Some(Reply::Refused(refusal))),
        }
    }
    Ok(None)
}

// Notes the version of a cycle, if it is published.
fn note(published: &mut Versions, is_published: bool, cycle: u32) -> Result<(), AllocError>
    ensures ok { OnOk result (published.new ≡ published.old ++ (if is_published then cycle ∷ [] else [])) }
    ensures err { OnErr result (published.new ≡ published.old) }
{
    if is_published {
        published.push(u64::from(cycle))?;
    }
    Ok(())
}
