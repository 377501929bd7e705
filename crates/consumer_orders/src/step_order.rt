//! The order `step`, and a blob that moves a consumer.
ghost use Rattle.std.specs.Prelude.{◌≡◌, ◌≢◌, ◌≤◌, ◌<◌, ◌∷◌, IfSome, IsErrOf, IsSome, OnOk, take};
ghost use Rattle.hol_io.specs.declared.name.BlobName.TheVariants.{Announced};
ghost use Rattle.hol_io.specs.Causes.{Rose};
ghost use Rattle.hol_io.specs.Name.{IsStepName, step_name};
ghost use Rattle.hol_history.specs.History.{StandsOn, tables_of};
ghost use Rattle.hollow_machine.specs.Kept.{AreClosed, IsReader, MovesReader, reader_of};
ghost use Rattle.hollow_machine.specs.PlanOrders.{Applies};
ghost use Rattle.hollow_machine.specs.StepOrder.{StepStep};
ghost use Rattle.read_engine.specs.Position.{rows_now};
ghost use Rattle.consumer_orders.specs.Unmoved.{Unmoved};

use crate::load_order::load;
use hol_answers::{Refusal, Reply, blob_refusal};
use hol_history::History;
use hol_io::{BlobName, BlobStore, Steps};
use hol_orders::OrderStop;
use read_engine::Consumer;
use std::alloc::AllocError;
use std::marker::Brand;
use std::sync::ledger::{Blank, Ledger};

/// The consumer moves along the blob that leads from one version to another, which is its version then, the state from before is kept in its history, and the
/// answer tells its new tag; or the order is refused: `NoState` where the consumer has no state, and else with the first fault of the blob: `NoBlob`,
/// `TooLarge`, `BadBlob`, `OtherOrigin` where it does not start from the consumer's tag, or `OtherModel`.
///
/// After a refusal, or a stop with `Store`, the consumer, its version and its history are as before. Where memory is refused they are, or the consumer has
/// moved, and its history is empty: it leads to where the consumer stands in each case. The store stays as it is. `Store` comes only where the store's count of
/// faults rose.
#[inline(never)]
pub fn step<S: BlobStore>(
    store: &mut S,
    consumer: &mut Consumer,
    version: &mut Option<u64>,
    history: &mut History,
    from: u64,
    to: u64,
) -> Result<Reply, OrderStop>
    requires reading { IsReader (reader_of consumer.old version.old history.old) }
    ensures step { MovesReader (λ machine reply next. StepStep machine (step_name from to) to reply next) (S.seen store.old).held
        (reader_of consumer.old version.old history.old) (reader_of consumer.new version.new history.new) result }
    ensures reading { IsReader (reader_of consumer.new version.new history.new) }
    ensures unmoved { Unmoved (reader_of consumer.old version.old history.old) (reader_of consumer.new version.new history.new) result }
    ensures held { (S.seen store.new).held ≡ (S.seen store.old).held }
    ensures puts { (S.seen store.new).puts ≡ (S.seen store.old).puts }
    ensures store_fault { IsErrOf result OrderStop.Store → Rose (S.seen store.old).faults (S.seen store.new).faults }
    ensures later { (S.seen store.old).faults ≤ (S.seen store.new).faults }
{
    apply(
        store,
        consumer,
        version,
        history,
        &BlobName::between(from, to),
    )
}

/// The consumer takes the blob of a name: it loads the version of a snapshot, as `load` does, or moves along a delta or a reverse delta to its second version,
/// as `step` does, and it is answered and left so.
pub fn apply<S: BlobStore>(
    store: &mut S,
    consumer: &mut Consumer,
    version: &mut Option<u64>,
    history: &mut History,
    name: &BlobName,
) -> Result<Reply, OrderStop>
    requires name { name.now ≢ Announced }
    requires reading { IsReader (reader_of consumer.old version.old history.old) }
    ensures step { MovesReader (λ machine reply next. Applies machine name.now reply next) (S.seen store.old).held
        (reader_of consumer.old version.old history.old) (reader_of consumer.new version.new history.new) result }
    ensures reading { IsReader (reader_of consumer.new version.new history.new) }
    ensures unmoved { Unmoved (reader_of consumer.old version.old history.old) (reader_of consumer.new version.new history.new) result }
    ensures held { (S.seen store.new).held ≡ (S.seen store.old).held }
    ensures puts { (S.seen store.new).puts ≡ (S.seen store.old).puts }
    ensures store_fault { IsErrOf result OrderStop.Store → Rose (S.seen store.old).faults (S.seen store.new).faults }
    ensures later { (S.seen store.old).faults ≤ (S.seen store.new).faults }
{
    match *name {
        BlobName::Snapshot(wanted) => load(store, consumer, version, history, wanted),
        BlobName::Delta(_, to) | BlobName::Reverse(_, to) => {
            step_along(store, consumer, version, history, name, to)
        }
        BlobName::Announced => unreachable!(),
    }
}

// The consumer moves along the blob of this name, to this version.
fn step_along<S: BlobStore>(
    store: &mut S,
    consumer: &mut Consumer,
    version: &mut Option<u64>,
    history: &mut History,
    name: &BlobName,
    to: u64,
) -> Result<Reply, OrderStop>
    requires name { IsStepName name.now }
    requires reading { IsReader (reader_of consumer.old version.old history.old) }
    ensures step { MovesReader (λ machine reply next. StepStep machine name.now to reply next) (S.seen store.old).held
        (reader_of consumer.old version.old history.old) (reader_of consumer.new version.new history.new) result }
    ensures reading { IsReader (reader_of consumer.new version.new history.new) }
    ensures unmoved { Unmoved (reader_of consumer.old version.old history.old) (reader_of consumer.new version.new history.new) result }
    ensures held { (S.seen store.new).held ≡ (S.seen store.old).held }
    ensures puts { (S.seen store.new).puts ≡ (S.seen store.old).puts }
    ensures store_fault { IsErrOf result OrderStop.Store → Rose (S.seen store.old).faults (S.seen store.new).faults }
    ensures later { (S.seen store.old).faults ≤ (S.seen store.new).faults }
{
    if consumer.tag().is_none() {
        return Ok(Reply::Refused(Refusal::NoState));
    }
    move_along::<S, Brand>(Blank::new(1), store, consumer, version, history, name, to)
}

// The consumer, which has a state, moves along the blob of this name, to this version. The steps of indexes are counted on a blank that nobody reads.
fn move_along<S: BlobStore, L: Ledger>(
    blank: Blank,
    store: &mut S,
    consumer: &mut Consumer,
    version: &mut Option<u64>,
    history: &mut History,
    name: &BlobName,
    to: u64,
) -> Result<Reply, OrderStop>
    requires ledger { blank.name ≡ L.name }
    requires parts { blank.parts ≡ L.parts }
    requires some { 0 < blank.parts }
    requires state { IsSome consumer.old }
    requires name { IsStepName name.now }
    requires reading { IsReader (reader_of consumer.old version.old history.old) }
    ensures step { MovesReader (λ machine reply next. StepStep machine name.now to reply next) (S.seen store.old).held
        (reader_of consumer.old version.old history.old) (reader_of consumer.new version.new history.new) result }
    ensures reading { IsReader (reader_of consumer.new version.new history.new) }
    ensures unmoved { Unmoved (reader_of consumer.old version.old history.old) (reader_of consumer.new version.new history.new) result }
    ensures held { (S.seen store.new).held ≡ (S.seen store.old).held }
    ensures puts { (S.seen store.new).puts ≡ (S.seen store.old).puts }
    ensures store_fault { IsErrOf result OrderStop.Store → Rose (S.seen store.old).faults (S.seen store.new).faults }
    ensures later { (S.seen store.old).faults ≤ (S.seen store.new).faults }
{
    let mut steps = Steps::<L>::new(blank);
    if let Err(fault) = consumer.step(store, name, &mut steps) {
        let refusal = blob_refusal(name, fault)?;
        return Ok(Reply::Refused(refusal));
    }
    keep_before(consumer, version, history, to)?;
    match consumer.tag() {
        Some(tag) => Ok(Reply::Step(tag)),
        None => unreachable!(),
    }
}

// Behind a step to a version, which is the consumer's then, the state from before the step is kept with the older ones. Where memory is refused none is kept.
fn keep_before(
    consumer: &Consumer,
    version: &mut Option<u64>,
    history: &mut History,
    to: u64,
) -> Result<(), AllocError>
    requires state { IsSome consumer.now }
    requires version { IsSome version.old }
    requires stood { IfSome consumer.now (λ now. StandsOn now.schemas now.before history.old.steps) }
    requires closed { IfSome consumer.now (λ now. AreClosed now.schemas (tables_of now.before history.old.steps)) }
    ensures version { version.new ≡ Some to }
    ensures kept { OnOk result (IfSome consumer.now (λ now. IfSome version.old (λ from. tables_of (rows_now now) history.new.steps
        ≡ take history.old.bound ((from, now.before) ∷ tables_of now.before history.old.steps)))) }
    ensures bound { history.new.bound ≡ history.old.bound }
    ensures reading { IsReader (reader_of consumer.now version.new history.new) }
{
    let Some(from) = *version else {
        unreachable!();
    };
    *version = Some(to);
    let left = consumer.left();
    let rows = consumer.now();
    match history.push(&left, &rows, from) {
        Ok(()) => Ok(()),
        Err(refused) => {
            history.clear();
            Err(refused)
        }
    }
}
