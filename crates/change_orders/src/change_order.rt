//! The order `change`.
ghost use Rattle.std.specs.Prelude.{◌≡◌, ◌≤◌, ◌<◌, ◌↔◌, IfOk, IfSome, IsSome, IsTrue, None, Ok, OnErr, OnOk, Some, true};
ghost use Rattle.std.specs.Option.{option_map};
ghost use Rattle.std.specs.Result.{IsErrOf};
ghost use Rattle.hol_io.specs.Causes.{Rose};
ghost use Rattle.schema_model.specs.Model.{IsModel};
ghost use Rattle.schema_model.specs.declared.limit.Limit.TheVariants.{Ordinals};
ghost use Rattle.row_packing.specs.Measured.{AreMeasured};
ghost use Rattle.write_engine.specs.Agreement.{HoldsOnce};
ghost use Rattle.write_engine.specs.CycleLimit.{IsToPublish, TellsCycle, TellsTypes};
ghost use Rattle.write_engine.specs.Production.{Production};
ghost use Rattle.hol_orders.specs.Kind.{IsStateChange};
ghost use Rattle.hol_incremental.specs.Changes.{AreFitting, HaveKeys, records};
ghost use Rattle.hol_incremental.specs.EditKeys.{AreEditsOf, AreReady, IsReadied};
ghost use Rattle.hol_orders.specs.Parts.{AskedChange, asked_change};
ghost use Rattle.hol_answers.specs.declared.refusal.Refusal.TheVariants.{TooLarge};
ghost use Rattle.hollow_machine.specs.ChangeOrder.{ChangeStep};
ghost use Rattle.hollow_machine.specs.Kept.{IsResting, MovesProducer};
ghost use Rattle.hollow_machine.specs.Left.{HaltsProducer};
ghost use Rattle.hollow_machine.specs.Puts.{CyclePuts};
ghost use Rattle.hollow_machine.specs.Records.{cycle_of_change, edited};
ghost use Rattle.state_blobs.specs.Published.{published_of};
ghost use Rattle.producer_orders.specs.Ends.{HasEndCause, IsMemory, TellsEnd};
ghost use Rattle.producer_orders.specs.Making.{AreRefused, Follows};
ghost use Rattle.producer_orders.specs.declared.cycle_end.CycleEnd.TheVariants.{Refused};
ghost use Rattle.change_orders.specs.Keeping.{AreKeptFor, IsMade};
ghost use Rattle.change_orders.specs.Making.{AreKeptOver, AreLists, ChangeSteps, IsEdit, IsEditedState, TellsLists, change_reply, publishes};

use crate::given_types::why_not_types;
use crate::keyed_records::why_not_keyed;
use crate::put_records::put_records;
use crate::removed_keys::removed_keys;
use hol_answers::{Change, Refusal, Reply};
use hol_incremental::{ChangeFault, Edits, Keys, Records};
use hol_io::{BlobStore, Steps};
use hol_orders::{OrderStop, StateChange};
use producer_orders::{CycleEnd, check_follow, end_cycle};
use schema_model::{Limit, Model};
use std::alloc::{AllocError, Global};
use std::marker::Brand;
use std::sync::ledger::{Blank, Ledger};
use write_engine::{Closed, Producer};

/// Publishes the next state of the producer as a change of its last one: records are put, each in the place of the one that has its primary key, and others
/// are removed by theirs. It is the state that a cycle of the edited list makes, under the same ordinals, and is published as by a cycle, with its snapshot.
///
/// What is kept for changes is that of the producer's last state, and is made where nothing is kept; it is kept where a change was made. A refusal leaves the
/// store and the producer as they were; a stop leaves the store with the first of the puts. `Store` comes only where the store's count of faults rose.
#[inline(never)]
pub fn change<S: BlobStore>(
    alloc: Global,
    store: &mut S,
    producer: &mut Option<Producer>,
    edits: &mut Option<Edits>,
    next: &StateChange,
) -> Result<Reply, OrderStop>
    requires order { IsStateChange (asked_change next.now) }
    requires resting { IfSome producer.old IsResting }
    requires edits { AreKeptFor producer.old edits.old }
    ensures step { MovesProducer (λ machine reply after. ChangeStep machine (asked_change next.now) reply after)
        (S.seen store.old).held producer.old (S.seen store.new).held producer.new result }
    ensures halts { HaltsProducer (CyclePuts (cycle_of_change (asked_change next.now))) (S.seen store.old).held producer.old (S.seen store.new).held result }
    ensures undone { OnErr result (option_map published_of producer.new ≡ option_map published_of producer.old) }
    ensures resting { IfSome producer.new IsResting }
    ensures edits { AreKeptFor producer.new edits.new }
    ensures held { IfOk result (λ reply. IsMade reply → IsSome edits.new) }
    ensures store_fault { IsErrOf result OrderStop.Store → Rose (S.seen store.old).faults (S.seen store.new).faults }
    ensures later { (S.seen store.old).faults ≤ (S.seen store.new).faults }
{
    match producer {
        Some(producer) => change_of::<S, Brand>(Blank::new(1), alloc, store, producer, edits, next),
        None => Ok(Reply::Refused(Refusal::NoModel)),
    }
}

// Publishes the next state of this producer as a change of its last one. What a change leaves that is not published is dropped, and what is kept is that of the
// last state again.
fn change_of<S: BlobStore, L: Ledger>(
    blank: Blank,
    alloc: Global,
    store: &mut S,
    producer: &mut Producer,
    edits: &mut Option<Edits>,
    next: &StateChange,
) -> Result<Reply, OrderStop>
    requires ledger { blank.name ≡ L.name }
    requires parts { blank.parts ≡ L.parts }
    requires some { 0 < blank.parts }
    requires order { IsStateChange (asked_change next.now) }
    requires resting { IsResting producer.old }
    requires edits { IfSome edits.old (AreEditsOf producer.old.schemas producer.old.previous) }
    ensures step { MovesProducer (λ machine reply after. ChangeStep machine (asked_change next.now) reply after)
        (S.seen store.old).held (Some producer.old) (S.seen store.new).held (Some producer.new) result }
    ensures halts { HaltsProducer (CyclePuts (cycle_of_change (asked_change next.now))) (S.seen store.old).held (Some producer.old) (S.seen store.new).held result }
    ensures undone { OnErr result (published_of producer.new ≡ published_of producer.old) }
    ensures resting { IsResting producer.new }
    ensures edits { IfSome edits.new (AreEditsOf producer.new.schemas producer.new.previous) }
    ensures held { IfOk result (λ reply. IsMade reply → IsSome edits.new) }
    ensures store_fault { IsErrOf result OrderStop.Store → Rose (S.seen store.old).faults (S.seen store.new).faults }
    ensures later { (S.seen store.old).faults ≤ (S.seen store.new).faults }
{
    let mut steps = Steps::<L>::new(blank);
    let ended = run_change(alloc, store, producer, edits, next, &mut steps);
    producer.undo();
    match ended {
        Ok(reply) => Ok(reply),
        Err(CycleEnd::Refused(refusal)) => Ok(Reply::Refused(refusal)),
        Err(CycleEnd::Stopped(stop)) => Err(stop),
    }
}

// Runs a change from one part to the next, and leaves the producer wherever it ends. What is kept is that of the producer's last state behind it too.
fn run_change<S: BlobStore, L: Ledger>(
    alloc: Global,
    store: &mut S,
    producer: &mut Producer,
    kept: &mut Option<Edits>,
    next: &StateChange,
    steps: &mut Steps<L>,
) -> Result<Reply, CycleEnd>
    requires order { IsStateChange (asked_change next.now) }
    requires resting { IsResting producer.old }
    requires edits { IfSome kept.old (AreEditsOf producer.old.schemas producer.old.previous) }
    ensures steps { ChangeSteps (asked_change next.now) (S.seen store.old).held (published_of producer.old) (S.seen store.new).held (published_of producer.new) result }
    ensures model { producer.new.schemas ≡ producer.old.schemas }
    ensures kept { OnErr result (published_of producer.new ≡ published_of producer.old) }
    ensures edits { IfSome kept.new (AreEditsOf producer.new.schemas producer.new.previous) }
    ensures held { OnOk result (IsSome kept.new) }
    ensures cause { HasEndCause (S.seen store.old).faults (S.seen store.new).faults result }
{
    check_follow(alloc, store, producer.version(), next.version, next.tag)?;
    let (put, remove) = lists_of(alloc, producer.model(), next)?;
    let mut edits = edits_of(alloc, producer, kept.take(), steps)?;
    let ended = make_change(
        alloc, store, producer, &mut edits, next, &put, &remove, steps,
    );
    settle(&mut edits, &ended);
    *kept = Some(edits);
    ended
}

// What is kept for the producer's last state, or that which is made of it where nothing is kept.
fn edits_of<L: Ledger>(
    alloc: Global,
    producer: &Producer,
    kept: Option<Edits>,
    steps: &mut Steps<L>,
) -> Result<Edits, AllocError>
    requires { IfSome kept (AreEditsOf producer.now.schemas producer.now.previous) }
    ensures { IfOk result (AreEditsOf producer.now.schemas producer.now.previous) }
{
    match kept {
        Some(edits) => Ok(edits),
        None => Edits::build(alloc, &producer.previous(), steps),
    }
}

// What is kept becomes that of the state that a change has published; else it stays that of the previous one.
fn settle(edits: &mut Edits, ended: &Result<Reply, CycleEnd>)
    requires { publishes ended.now ≡ true → IsReadied edits.old }
    ensures { (old new : Production) → AreKeptOver old new edits.old ended.now → AreEditsOf old.schemas new.previous edits.new }
{
    if has_published(ended) {
        edits.accept();
    } else {
        edits.forget();
    }
}

// Whether a change has published a state.
fn has_published(ended: &Result<Reply, CycleEnd>) -> bool
    ensures { result ≡ publishes ended.now }
{
    match ended {
        Ok(reply) => is_published(reply),
        Err(_) => false,
    }
}

// Whether an answer is that to a change that published a state.
fn is_published(reply: &Reply) -> bool
    ensures { result ≡ publishes (Ok reply.now) }
{
    match reply {
        Reply::Change(change) => change.published,
        _ => false,
    }
}

// The records that are put, and the keys of those that are removed.
fn lists_of(alloc: Global, model: &Model, next: &StateChange) -> Result<(Records, Keys), CycleEnd>
    requires order { IsStateChange (asked_change next.now) }
    ensures { TellsLists model.now (asked_change next.now) result }
{
    // The model tells that it is one.
    let _types = model.len();
    if let Some(refusal) = why_not_types(alloc, model, next)? {
        return Err(CycleEnd::Refused(refusal));
    }
    let put = put_records(alloc, model, &next.put)?;
    if let Some(refusal) = why_not_keyed(alloc, model, &put)? {
        return Err(CycleEnd::Refused(refusal));
    }
    let remove = removed_keys(alloc, model, &next.remove)?;
    Ok((put, remove))
}

// Makes the next state of the records and keys, and publishes it.
fn make_change<S: BlobStore, L: Ledger>(
    alloc: Global,
    store: &mut S,
    producer: &mut Producer,
    edits: &mut Edits,
    next: &StateChange,
    put: &Records,
    remove: &Keys,
    steps: &mut Steps<L>,
) -> Result<Reply, CycleEnd>
    requires order { IsStateChange (asked_change next.now) }
    requires resting { IsResting producer.old }
    requires edits { AreEditsOf producer.old.schemas producer.old.previous edits.old }
    requires lists { AreLists producer.old.schemas (asked_change next.now) put.now remove.now }
    ensures steps { Follows (S.seen store.old).held producer.old.version next.now.version next.now.tag (Ok tt)
        → ChangeSteps (asked_change next.now) (S.seen store.old).held (published_of producer.old) (S.seen store.new).held (published_of producer.new) result }
    ensures model { producer.new.schemas ≡ producer.old.schemas }
    ensures kept { OnErr result (published_of producer.new ≡ published_of producer.old) }
    ensures edits { AreKeptOver producer.old producer.new edits.new result }
    ensures cause { HasEndCause (S.seen store.old).faults (S.seen store.new).faults result }
{
    let (missing, closed) = make_edited(producer, edits, put, remove, steps)?;
    let reply = end_cycle(
        alloc,
        store,
        producer,
        &closed,
        edits.packed(),
        next.version,
        next.tag,
        true,
    )?;
    Ok(as_change(reply, missing))
}

// Makes the cycle the state of the edited list, and closes it; tells how many of the keys are those of no row.
fn make_edited<L: Ledger>(
    producer: &mut Producer,
    edits: &mut Edits,
    put: &Records,
    remove: &Keys,
    steps: &mut Steps<L>,
) -> Result<(u64, Closed), CycleEnd>
    requires resting { IsResting producer.old }
    requires edits { AreEditsOf producer.old.schemas producer.old.previous edits.old }
    requires fits { AreFitting producer.old.schemas (records put.now) }
    requires keyed { HaveKeys producer.old.schemas (records put.now) }
    ensures tells { (asked : AskedChange) → AreLists producer.old.schemas asked put.now remove.now → TellsEnd (IsEditedState (published_of producer.old) asked producer.new)
        (AreRefused (published_of producer.old) (edited asked.put asked.remove)) IsMemory result }
    ensures ready { OnOk result (AreReady producer.old.schemas producer.old.previous producer.new.current edits.new) }
    ensures refused { OnErr result (AreEditsOf producer.old.schemas producer.old.previous edits.new) }
    ensures kept { published_of producer.new ≡ published_of producer.old }
{
    let missing = edit(producer, edits, put, remove, steps)?;
    let measured = edits.measured(&producer.previous(), &producer.current())?;
    let closed = producer.close_by(measured)?;
    pack(producer, edits, &closed)?;
    Ok((missing, closed))
}

// Packs the rows of a closed cycle for its snapshot, where it is to be published and passes no limit.
fn pack(producer: &Producer, edits: &mut Edits, closed: &Closed) -> Result<(), AllocError>
    requires is_closed { producer.now.closed ≡ true }
    requires first { IsTrue closed.now.first ↔ (producer.now.version ≡ 0) }
    requires over { TellsCycle producer.now.schemas producer.now.previous producer.now.current producer.now.version closed.now.changed producer.now.over }
    requires measured { IsToPublish producer.now.version closed.now.changed → AreMeasured producer.now.schemas producer.now.previous producer.now.current closed.now.measured }
    requires ready { AreReady producer.now.schemas producer.now.previous producer.now.current edits.old }
    ensures ready { AreReady producer.now.schemas producer.now.previous producer.now.current edits.new }
{
    if !is_within(producer, closed) {
        return Ok(());
    }
    write_engine::laws::can_be_written();
    let previous = producer.previous();
    let current = producer.current();
    edits.pack(&previous, &current, closed.measured.as_slice())
}

// Whether a closed cycle is to be published, and passes no limit.
fn is_within(producer: &Producer, closed: &Closed) -> bool
    requires is_closed { producer.now.closed ≡ true }
    requires first { IsTrue closed.now.first ↔ (producer.now.version ≡ 0) }
    requires over { TellsCycle producer.now.schemas producer.now.previous producer.now.current producer.now.version closed.now.changed producer.now.over }
    ensures published { IsTrue result → IsToPublish producer.now.version closed.now.changed }
    ensures within { IsTrue result → TellsTypes producer.now.schemas producer.now.previous producer.now.current None }
{
    let changes = closed.first || !closed.changed.is_empty();
    changes && producer.over_limit().is_none()
}

// Makes the cycle the state of the edited list; tells how many of the keys are those of no row.
fn edit<L: Ledger>(
    producer: &mut Producer,
    edits: &mut Edits,
    put: &Records,
    remove: &Keys,
    steps: &mut Steps<L>,
) -> Result<u64, CycleEnd>
    requires resting { IsResting producer.old }
    requires edits { AreEditsOf producer.old.schemas producer.old.previous edits.old }
    requires fits { AreFitting producer.old.schemas (records put.now) }
    requires keyed { HaveKeys producer.old.schemas (records put.now) }
    ensures tells { (asked : AskedChange) → AreLists producer.old.schemas asked put.now remove.now → TellsEnd (IsEdit (published_of producer.old) asked producer.new.current)
        (AreRefused (published_of producer.old) (edited asked.put asked.remove)) IsMemory result }
    ensures ready { OnOk result (AreReady producer.old.schemas producer.old.previous producer.new.current edits.new) }
    ensures refused { OnErr result (AreEditsOf producer.old.schemas producer.old.previous edits.new) }
    ensures kept { producer.new ≡ record producer.old { current = producer.new.current } }
{
    match edits.change(producer, put, remove, steps) {
        Ok(missing) => Ok(missing),
        Err(ChangeFault::TooMany) => Err(too_many(producer)),
        Err(ChangeFault::Memory) => Err(CycleEnd::Stopped(OrderStop::Memory)),
    }
}

// The end of a change of which a row would get the ordinal 2^22. The producer tells that its model is one, and that its previous state holds no row twice.
fn too_many(producer: &Producer) -> CycleEnd
    ensures is { result ≡ Refused (TooLarge Ordinals) }
    ensures model { IsModel producer.now.schemas }
    ensures once { HoldsOnce producer.now.previous }
{
    let _types = producer.model().len();
    let _current = producer.current();
    CycleEnd::Refused(Refusal::TooLarge(Limit::Ordinals))
}

// What a cycle answers, as the answer to a change.
fn as_change(reply: Reply, missing: u64) -> Reply
    ensures { result ≡ change_reply reply missing }
{
    match reply {
        Reply::Cycle {
            changed,
            published,
            version,
        } => Reply::Change(Change {
            changed,
            missing,
            published,
            version,
        }),
        other => other,
    }
}
