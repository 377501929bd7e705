//! The script of `make`: its producer, its cycles, the check over what they published, and the summary.
ghost use Rattle.std.specs.Prelude.{◌≡◌, ◌≤◌, IfErr, IfOk, IfSome, IsErrOf, OnErr, OnOk, Some};
ghost use Rattle.hol_io.specs.Causes.{Rose};
ghost use Rattle.film_script.specs.Films.{film_schemas};
ghost use Rattle.hollow_machine.specs.Kept.{IsResting};
ghost use Rattle.write_engine.specs.Production.{IsStart};
ghost use Rattle.hollow_make.specs.Parts.{HaltsMake, HaltsScript, TellsEnd, TellsMake, TellsScript};
ghost use Rattle.hollow_make.specs.Walked.{ArePublished};

use crate::cycles::run_cycles;
use crate::part::go_on;
use crate::progress::Progress;
use crate::summary::summary;
use crate::walk::check_walk;
use film_script::{film_schemas, laws};
use hol_answers::Reply;
use hol_io::BlobStore;
use hol_orders::{OrderStop, Versions};
use model_rules::model_of;
use schema_model::{Model, ModelFault};
use std::alloc::Global;
use write_engine::Producer;

/// Publishes the states of so many cycles, each of the films of so many that it shows, and then walks along the published states and back with a
/// check. The answer is the summary, or the first refusal. What was put stays: after a stop the store is the one behind some first cycles, or has
/// besides the first puts of the next one. The producer is then the one behind the last cycle, and after a stop the one before the call. The
/// progress is told as it goes. `Store` comes only where the store's count of faults rose.
pub fn make<S: BlobStore, P: Progress>(
    alloc: Global,
    store: &mut S,
    producer: &mut Option<Producer>,
    seed: u32,
    rows: u32,
    cycles: u32,
    progress: &mut P,
) -> Result<Reply, OrderStop>
    requires seed { seed ≤ 999999 }
    requires rows { rows ≤ 500000 }
    requires cycles { cycles ≤ 1000 }
    ensures reply { TellsMake seed rows cycles (S.seen store.old).held (S.seen store.new).held producer.new result }
    ensures halts { OnErr result (HaltsMake seed rows cycles (S.seen store.old).held (S.seen store.new).held) }
    ensures resting { OnOk result (IfSome producer.new IsResting) }
    ensures stopped { OnErr result (producer.new ≡ producer.old) }
    ensures store_fault { IsErrOf result OrderStop.Store → Rose (S.seen store.old).faults (S.seen store.new).faults }
    ensures later { (S.seen store.old).faults ≤ (S.seen store.new).faults }
{
    let mut made = film_producer(alloc)?;
    let reply = run_script(alloc, store, &mut made, seed, rows, cycles, progress)?;
    *producer = Some(made);
    Ok(reply)
}

// A producer of the script's model, which has published nothing.
fn film_producer(alloc: Global) -> Result<Producer, OrderStop>
    ensures start { IfOk result (IsStart film_schemas) }
    ensures stop { IfErr result (λ stop. stop ≡ OrderStop.Memory) }
{
    Ok(Producer::new(alloc, film_model(alloc)?)?)
}

// The script's model.
fn film_model(alloc: Global) -> Result<Model, OrderStop>
    ensures model { IfOk result (λ model. model ≡ film_schemas) }
    ensures stop { IfErr result (λ stop. stop ≡ OrderStop.Memory) }
{
    laws::films_model();
    match model_of(alloc, film_schemas(alloc)?) {
        Ok(model) => Ok(model),
        Err(ModelFault::Broken(..)) => unreachable!(),
        Err(ModelFault::Memory) => Err(OrderStop::Memory),
    }
}

// The cycles of a new producer, and then the end of the script.
fn run_script<S: BlobStore, P: Progress>(
    alloc: Global,
    store: &mut S,
    producer: &mut Producer,
    seed: u32,
    rows: u32,
    cycles: u32,
    progress: &mut P,
) -> Result<Reply, OrderStop>
    requires seed { seed ≤ 999999 }
    requires rows { rows ≤ 500000 }
    requires cycles { cycles ≤ 1000 }
    requires start { IsStart film_schemas producer.old }
    ensures reply { TellsScript seed rows cycles (S.seen store.old).held producer.old (S.seen store.new).held producer.new result }
    ensures halts { OnErr result (HaltsScript seed rows cycles (S.seen store.old).held producer.old (S.seen store.new).held) }
    ensures resting { OnOk result (IsResting producer.new) }
    ensures store_fault { IsErrOf result OrderStop.Store → Rose (S.seen store.old).faults (S.seen store.new).faults }
    ensures later { (S.seen store.old).faults ≤ (S.seen store.new).faults }
{
    let mut published = Versions::new(alloc);
    let refused = run_cycles(
        alloc,
        store,
        producer,
        seed,
        rows,
        cycles,
        &mut published,
        progress,
    )?;
    match refused {
        Some(reply) => Ok(reply),
        None => end_script(alloc, store, producer, &published, progress),
    }
}

// The check over the published versions there and back, and the summary.
fn end_script<S: BlobStore, P: Progress>(
    alloc: Global,
    store: &mut S,
    producer: &Producer,
    published: &Versions,
    progress: &mut P,
) -> Result<Reply, OrderStop>
    requires { ArePublished published.now }
    ensures tells { TellsEnd published.now producer.now.previous (S.seen store.old).held result }
    ensures held { (S.seen store.new).held ≡ (S.seen store.old).held }
    ensures store_fault { IsErrOf result OrderStop.Store → Rose (S.seen store.old).faults (S.seen store.new).faults }
    ensures later { (S.seen store.old).faults ≤ (S.seen store.new).faults }
{
    let reply = check_walk(alloc, store, published, progress)?;
    match go_on(reply) {
        Ok(_) => Ok(Reply::Make(summary(alloc, producer, published)?)),
        Err(refusal) => Ok(Reply::Refused(refusal)),
    }
}
