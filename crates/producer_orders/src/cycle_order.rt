//! The order `cycle`, and the cycles of the script of `make`.
ghost use Rattle.std.specs.Prelude.{◌≡◌, ◌≤◌, ◌<◌, ◌↔◌, All, IfOk, IfSome, IsTrue, OnErr, OnOk, Some, None, true, length, option_copied};
ghost use Rattle.std.specs.Option.{option_map};
ghost use Rattle.std.specs.Result.{IsErrOf};
ghost use Rattle.hol_io.specs.Causes.{Rose};
ghost use Rattle.film_script.specs.Films.{film_schemas};
ghost use Rattle.row_packing.specs.Measured.{AreMeasured};
ghost use Rattle.kept_sections.specs.Sections.{AreSectionsFor};
ghost use Rattle.write_engine.specs.CycleLimit.{IsToPublish, TellsCycle, TellsTypes};
ghost use Rattle.hol_orders.specs.Kind.{IsNextState};
ghost use Rattle.hol_orders.specs.Parts.{asked_state};
ghost use Rattle.hollow_machine.specs.CycleOrder.{CycleStep};
ghost use Rattle.hollow_machine.specs.Kept.{IsResting, MovesProducer};
ghost use Rattle.hollow_machine.specs.MakeCommand.{film_cycle};
ghost use Rattle.hollow_machine.specs.Records.{asked_cycle};
ghost use Rattle.hollow_machine.specs.Left.{HaltsProducer};
ghost use Rattle.hollow_machine.specs.Puts.{CyclePuts};
ghost use Rattle.state_blobs.specs.Published.{published_of};
ghost use Rattle.producer_orders.specs.Asked.{Suit, asked_of};
ghost use Rattle.producer_orders.specs.Ends.{HasEndCause, IsMemory, TellsEnd};
ghost use Rattle.producer_orders.specs.Making.{Ends, EndsPublished, Follows, IsTooLarge, IsWithin, KeepsRows, Steps};

use crate::asked::{FilmCycle, Records};
use crate::cycle_end::CycleEnd;
use crate::follow::why_not;
use crate::make::{make_state, names_of_types};
use film_script::cycle_tag;
use hol_answers::{Refusal, Reply};
use hol_io::BlobStore;
use hol_orders::{NextState, OrderStop};
use kept_sections::PackedSections;
use row_packing::Measured;
use state_blobs::{Blobs, publish, write_blobs_by};
use std::alloc::Global;
use write_engine::{Closed, Producer};

/// Publishes the next state of the producer, where a type changes by its records or it is the first state. Its snapshot is put where the order does
/// not say that it is not to be, and that of a first state in any case. A refusal leaves the store and the producer as they were. A stop leaves the
/// producer as it was too, and the store with the first of the puts. `Store` comes only where the store's count of faults rose.
#[inline(never)]
pub fn cycle<S: BlobStore>(
    alloc: Global,
    store: &mut S,
    producer: &mut Option<Producer>,
    next: &NextState,
) -> Result<Reply, OrderStop>
    requires order { IsNextState (asked_state next.now) }
    requires resting { IfSome producer.old IsResting }
    ensures step { MovesProducer (λ machine reply after. CycleStep machine (asked_cycle (asked_state next.now)) reply after)
        (S.seen store.old).held producer.old (S.seen store.new).held producer.new result }
    ensures halts { HaltsProducer (CyclePuts (asked_cycle (asked_state next.now))) (S.seen store.old).held producer.old (S.seen store.new).held result }
    ensures undone { OnErr result (option_map published_of producer.new ≡ option_map published_of producer.old) }
    ensures resting { IfSome producer.new IsResting }
    ensures store_fault { IsErrOf result OrderStop.Store → Rose (S.seen store.old).faults (S.seen store.new).faults }
    ensures later { (S.seen store.old).faults ≤ (S.seen store.new).faults }
{
    match producer {
        Some(producer) => spelled_cycle(alloc, store, producer, next),
        None => Ok(Reply::Refused(Refusal::NoModel)),
    }
}

// Publishes the next state of this producer by the records of the order. A refusal leaves the store and the producer as they were.
fn spelled_cycle<S: BlobStore>(
    alloc: Global,
    store: &mut S,
    producer: &mut Producer,
    next: &NextState,
) -> Result<Reply, OrderStop>
    requires order { IsNextState (asked_state next.now) }
    requires resting { IsResting producer.old }
    ensures step { MovesProducer (λ machine reply after. CycleStep machine (asked_cycle (asked_state next.now)) reply after)
        (S.seen store.old).held (Some producer.old) (S.seen store.new).held (Some producer.new) result }
    ensures halts { HaltsProducer (CyclePuts (asked_cycle (asked_state next.now))) (S.seen store.old).held (Some producer.old) (S.seen store.new).held result }
    ensures undone { OnErr result (published_of producer.new ≡ published_of producer.old) }
    ensures resting { IsResting producer.new }
    ensures store_fault { IsErrOf result OrderStop.Store → Rose (S.seen store.old).faults (S.seen store.new).faults }
    ensures later { (S.seen store.old).faults ≤ (S.seen store.new).faults }
{
    let records = Records::Spelled(&next.add);
    let with_snapshot = next.snapshot.unwrap_or(true);
    cycle_of(
        alloc,
        store,
        producer,
        next.version,
        next.tag,
        with_snapshot,
        &records,
    )
}

/// Publishes the next state of a producer of the script's model: the films of a cycle, under its number and its tag, with its snapshot. A refusal
/// leaves the store and the producer as they were. A stop leaves the producer as it was too, and the store with the first of the puts. `Store` comes
/// only where the store's count of faults rose.
pub fn film_cycle<S: BlobStore>(
    alloc: Global,
    store: &mut S,
    producer: &mut Producer,
    seed: u32,
    rows: u32,
    cycle: u32,
) -> Result<Reply, OrderStop>
    requires seed { seed ≤ 1000000 }
    requires rows { rows ≤ 1000000 }
    requires cycle { cycle ≤ 1000000 }
    requires model { producer.old.schemas ≡ film_schemas }
    requires resting { IsResting producer.old }
    ensures step { MovesProducer (λ machine reply after. CycleStep machine (film_cycle seed rows cycle) reply after)
        (S.seen store.old).held (Some producer.old) (S.seen store.new).held (Some producer.new) result }
    ensures halts { HaltsProducer (CyclePuts (film_cycle seed rows cycle)) (S.seen store.old).held (Some producer.old) (S.seen store.new).held result }
    ensures undone { OnErr result (published_of producer.new ≡ published_of producer.old) }
    ensures model { producer.new.schemas ≡ film_schemas }
    ensures resting { IsResting producer.new }
    ensures store_fault { IsErrOf result OrderStop.Store → Rose (S.seen store.old).faults (S.seen store.new).faults }
    ensures later { (S.seen store.old).faults ≤ (S.seen store.new).faults }
{
    let tag = cycle_tag(seed, cycle);
    let records = Records::Films(FilmCycle { seed, rows, cycle });
    cycle_of(
        alloc,
        store,
        producer,
        u64::from(cycle),
        tag,
        true,
        &records,
    )
}

// Publishes the next state of a producer. What a cycle leaves that is not published is dropped.
fn cycle_of<S: BlobStore>(
    alloc: Global,
    store: &mut S,
    producer: &mut Producer,
    version: u64,
    tag: i64,
    with_snapshot: bool,
    records: &Records<'_>,
) -> Result<Reply, OrderStop>
    requires records { Suit producer.old.schemas records.now }
    requires resting { IsResting producer.old }
    ensures step { MovesProducer (λ machine reply after. CycleStep machine (asked_of version tag with_snapshot records.now) reply after)
        (S.seen store.old).held (Some producer.old) (S.seen store.new).held (Some producer.new) result }
    ensures halts { HaltsProducer (CyclePuts (asked_of version tag with_snapshot records.now)) (S.seen store.old).held (Some producer.old) (S.seen store.new).held result }
    ensures undone { OnErr result (published_of producer.new ≡ published_of producer.old) }
    ensures model { producer.new.schemas ≡ producer.old.schemas }
    ensures resting { IsResting producer.new }
    ensures store_fault { IsErrOf result OrderStop.Store → Rose (S.seen store.old).faults (S.seen store.new).faults }
    ensures later { (S.seen store.old).faults ≤ (S.seen store.new).faults }
{
    let ended = run_cycle(alloc, store, producer, version, tag, with_snapshot, records);
    producer.undo();
    match ended {
        Ok(reply) => Ok(reply),
        Err(CycleEnd::Refused(refusal)) => Ok(Reply::Refused(refusal)),
        Err(CycleEnd::Stopped(stop)) => Err(stop),
    }
}

// Runs a cycle from one part to the next, and leaves the producer wherever it ends.
fn run_cycle<S: BlobStore>(
    alloc: Global,
    store: &mut S,
    producer: &mut Producer,
    version: u64,
    tag: i64,
    with_snapshot: bool,
    records: &Records<'_>,
) -> Result<Reply, CycleEnd>
    requires records { Suit producer.old.schemas records.now }
    requires resting { IsResting producer.old }
    ensures steps { Steps (asked_of version tag with_snapshot records.now) (S.seen store.old).held (published_of producer.old) (S.seen store.new).held (published_of producer.new) result }
    ensures model { producer.new.schemas ≡ producer.old.schemas }
    ensures kept { OnErr result (published_of producer.new ≡ published_of producer.old) }
    ensures cause { HasEndCause (S.seen store.old).faults (S.seen store.new).faults result }
{
    check_follow(alloc, store, producer.version(), version, tag)?;
    let closed = make_state(alloc, producer, records)?;
    end_cycle(
        alloc,
        store,
        producer,
        &closed,
        None,
        version,
        tag,
        with_snapshot,
    )
}

/// Refuses a state that may not follow the last one.
pub fn check_follow<S: BlobStore>(
    alloc: Global,
    store: &mut S,
    last: u64,
    version: u64,
    tag: i64,
) -> Result<(), CycleEnd>
    ensures follows { Follows (S.seen store.old).held last version tag result }
    ensures kept { (S.seen store.new).held ≡ (S.seen store.old).held }
    ensures cause { HasEndCause (S.seen store.old).faults (S.seen store.new).faults result }
{
    match why_not(alloc, store, last, version, tag)? {
        Some(refusal) => Err(CycleEnd::Refused(refusal)),
        None => Ok(()),
    }
}

/// Publishes a closed cycle, if it is the first one or changes a type, and tells what it changes. Where its rows are lent as they are packed for its snapshot, it is
/// written of these.
pub fn end_cycle<S: BlobStore>(
    alloc: Global,
    store: &mut S,
    producer: &mut Producer,
    closed: &Closed,
    sections: Option<&PackedSections>,
    version: u64,
    tag: i64,
    with_snapshot: bool,
) -> Result<Reply, CycleEnd>
    requires is_closed { producer.old.closed ≡ true }
    requires first { IsTrue closed.now.first ↔ (producer.old.version ≡ 0) }
    requires in_model { All (λ t. t < length producer.old.schemas) closed.now.changed }
    requires over { TellsCycle producer.old.schemas producer.old.previous producer.old.current producer.old.version closed.now.changed producer.old.over }
    requires measured { IsToPublish producer.old.version closed.now.changed → AreMeasured producer.old.schemas producer.old.previous producer.old.current closed.now.measured }
    requires sections { IfSome (option_copied sections) (AreSectionsFor producer.old.schemas producer.old.previous producer.old.current) }
    ensures ends { Ends (S.seen store.old).held (published_of producer.old) producer.old.current closed.now.changed version tag with_snapshot
        (S.seen store.new).held (published_of producer.new) result }
    ensures model { producer.new.schemas ≡ producer.old.schemas }
    ensures kept { OnErr result (published_of producer.new ≡ published_of producer.old) }
    ensures rows { IfOk result (KeepsRows producer.old producer.new) }
    ensures cause { HasEndCause (S.seen store.old).faults (S.seen store.new).faults result }
{
    let changed = names_of_types(alloc, producer.model(), &closed.changed)?;
    if !closed.first && closed.changed.is_empty() {
        return Ok(Reply::Cycle {
            changed,
            published: false,
            version,
        });
    }
    let measured = closed.measured.as_slice();
    publish_state(
        alloc,
        store,
        producer,
        measured,
        sections,
        version,
        tag,
        with_snapshot,
    )?;
    Ok(Reply::Cycle {
        changed,
        published: true,
        version,
    })
}

// Publishes a closed cycle, which is then the producer's last state.
fn publish_state<S: BlobStore>(
    alloc: Global,
    store: &mut S,
    producer: &mut Producer,
    measured: &[Measured],
    sections: Option<&PackedSections>,
    version: u64,
    tag: i64,
    with_snapshot: bool,
) -> Result<(), CycleEnd>
    requires is_closed { producer.old.closed ≡ true }
    requires over { TellsTypes producer.old.schemas producer.old.previous producer.old.current producer.old.over }
    requires measured { AreMeasured producer.old.schemas producer.old.previous producer.old.current measured.now }
    requires sections { IfSome (option_copied sections) (AreSectionsFor producer.old.schemas producer.old.previous producer.old.current) }
    ensures ends { EndsPublished (S.seen store.old).held (published_of producer.old) producer.old.current version tag with_snapshot
        (S.seen store.new).held (published_of producer.new) result }
    ensures model { producer.new.schemas ≡ producer.old.schemas }
    ensures kept { OnErr result (published_of producer.new ≡ published_of producer.old) }
    ensures rows { OnOk result (producer.new.previous ≡ producer.old.current) }
    ensures cause { HasEndCause (S.seen store.old).faults (S.seen store.new).faults result }
{
    let blobs = limited_blobs(
        alloc,
        producer,
        measured,
        sections,
        version,
        tag,
        with_snapshot,
    )?;
    publish(alloc, store, version, &blobs)?;
    producer.advance(tag, version);
    Ok(())
}

// The blobs of a closed cycle that passes no limit.
fn limited_blobs(
    alloc: Global,
    producer: &Producer,
    measured: &[Measured],
    sections: Option<&PackedSections>,
    version: u64,
    tag: i64,
    with_snapshot: bool,
) -> Result<Blobs, CycleEnd>
    requires is_closed { producer.now.closed ≡ true }
    requires over { TellsTypes producer.now.schemas producer.now.previous producer.now.current producer.now.over }
    requires measured { AreMeasured producer.now.schemas producer.now.previous producer.now.current measured.now }
    requires sections { IfSome (option_copied sections) (AreSectionsFor producer.now.schemas producer.now.previous producer.now.current) }
    ensures { TellsEnd (IsWithin (published_of producer.now) producer.now.current version tag with_snapshot) (IsTooLarge (published_of producer.now) producer.now.current version tag with_snapshot) IsMemory result }
{
    if let Some(limit) = producer.over_limit() {
        return Err(CycleEnd::Refused(Refusal::TooLarge(limit)));
    }
    Ok(write_blobs_by(
        alloc,
        producer,
        measured,
        sections,
        version,
        tag,
        with_snapshot,
    )?)
}
