//! The orders: what each is answered, and what it leaves of the store and of what is kept.
ghost use Rattle.std.specs.Prelude.{◌≡◌, ◌≤◌, true, IfErr, IfOk, IfSome, IsErrOf, OnErr};
ghost use Rattle.hol_io.specs.Causes.{Rose};
ghost use Rattle.hol_orders.specs.Order.{IsOrder};
ghost use Rattle.hollow_machine.specs.Kept.{IsReader, IsResting, MovesReader, reader_of};
ghost use Rattle.hollow_machine.specs.Puts.{MayPut, OrderPuts};
ghost use Rattle.hollow_machine.specs.Step.{IsLook, LooksAt, Step};
ghost use Rattle.hollow_script.specs.Kept.{HaltsKept, KeepsEdits, KeepsReader, MovesKept, SameProducer};
ghost use Rattle.hollow_script.specs.Orders.{IsLookBack, IsOfReader, StaysSo};

use crate::keep::Keep;
use chain_orders::{check, restore};
use change_orders::change;
use consumer_orders::{at, find, get, has, index, live, load, past, row, stat, step};
use history_orders::{was, was_get};
use hol_answers::Reply;
use hol_history::History;
use hol_io::BlobStore;
use hol_orders::{Order, OrderStop};
use plan_orders::{goto, plan};
use producer_orders::{cycle, grow, model};
use reach_orders::{walk_find, walk_index};
use read_engine::Consumer;
use std::alloc::Global;

/// Whether an order may put blobs.
pub fn may_put(order: &Order) -> bool
    ensures { MayPut order.now → result ≡ true }
{
    matches!(order, Order::Cycle(_) | Order::Change(_))
}

/// Answers an order. Where it stops the producer is as it was, and the store too, or it has the first puts of a cycle. What is kept for changes goes before an
/// order that gives the producer another state but as a change of its last one.
pub fn answer<S: BlobStore>(
    alloc: Global,
    order: &Order,
    store: &mut S,
    keep: &mut Keep,
) -> Result<Reply, OrderStop>
    requires order { IsOrder order.now }
    requires resting { IfSome keep.old.producer IsResting }
    requires reading { KeepsReader keep.old }
    requires edits { KeepsEdits keep.old }
    ensures step { MovesKept (λ machine reply next. Step machine order.now reply next)
        (S.seen store.old).held keep.old (S.seen store.new).held keep.new result }
    ensures halts { HaltsKept (OrderPuts order.now) (S.seen store.old).held keep.old (S.seen store.new).held result }
    ensures undone { OnErr result (SameProducer keep.old keep.new) }
    ensures quiet { (MayPut order.now → ⊥) → (S.seen store.new).held ≡ (S.seen store.old).held }
    ensures resting { IfSome keep.new.producer IsResting }
    ensures reading { KeepsReader keep.new }
    ensures edits { KeepsEdits keep.new }
    ensures store_fault { IsErrOf result OrderStop.Store → Rose (S.seen store.old).faults (S.seen store.new).faults }
    ensures later { (S.seen store.old).faults ≤ (S.seen store.new).faults }
{
    // The functions of orders that are rare or take long are not inlined, so that the others get by with a small frame.
    match order {
        Order::Model(schemas) => {
            keep.edits = None;
            model(alloc, schemas, &mut keep.producer)
        }
        Order::Grow(schemas) => {
            keep.edits = None;
            grow(alloc, schemas, &mut keep.producer)
        }
        Order::Cycle(next) => {
            keep.edits = None;
            cycle(alloc, store, &mut keep.producer, next)
        }
        Order::Restore(version) => {
            keep.edits = None;
            restore(alloc, store, &mut keep.producer, *version)
        }
        Order::Change(next) => change(alloc, store, &mut keep.producer, &mut keep.edits, next),
        Order::Check(versions) => check(alloc, store, versions),
        _ => answer_reader(
            alloc,
            order,
            store,
            &mut keep.consumer,
            &mut keep.version,
            &mut keep.history,
        ),
    }
}

// Answers an order of the consumer, which leaves the store.
fn answer_reader<S: BlobStore>(
    alloc: Global,
    order: &Order,
    store: &mut S,
    consumer: &mut Consumer,
    version: &mut Option<u64>,
    history: &mut History,
) -> Result<Reply, OrderStop>
    requires order { IsOrder order.now }
    requires reader { IsOfReader order.now }
    requires reading { IsReader (reader_of consumer.old version.old history.old) }
    ensures step { MovesReader (λ machine reply next. Step machine order.now reply next) (S.seen store.old).held
        (reader_of consumer.old version.old history.old) (reader_of consumer.new version.new history.new) result }
    ensures held { (S.seen store.new).held ≡ (S.seen store.old).held }
    ensures reading { IsReader (reader_of consumer.new version.new history.new) }
    ensures store_fault { IsErrOf result OrderStop.Store → Rose (S.seen store.old).faults (S.seen store.new).faults }
    ensures later { (S.seen store.old).faults ≤ (S.seen store.new).faults }
{
    match order {
        Order::Load(wanted) => load(store, consumer, version, history, *wanted),
        Order::Step { from, to } => step(store, consumer, version, history, *from, *to),
        Order::Plan(wanted) => plan(alloc, store, *version, *wanted),
        Order::Goto(wanted) => goto(alloc, store, consumer, version, history, *wanted),
        Order::Index { type_name, paths } => index(alloc, consumer, type_name, paths),
        Order::WalkIndex { type_name, path } => walk_index(alloc, consumer, type_name, path),
        Order::History(bound) => Ok(history_orders::history(alloc, history, *bound)),
        _ => look_back(alloc, order, consumer, *version, history),
    }
}

// Answers an order that looks at a version, or at where the consumer stands.
fn look_back(
    alloc: Global,
    order: &Order,
    consumer: &Consumer,
    version: Option<u64>,
    history: &History,
) -> Result<Reply, OrderStop>
    requires order { IsLookBack order.now }
    requires reading { IsReader (reader_of consumer.now version history.now) }
    ensures reply { IfOk result (StaysSo order.now (reader_of consumer.now version history.now)) }
    ensures stop { IfErr result (λ stop. stop ≡ OrderStop.Memory) }
{
    match order {
        Order::Was {
            version: wanted,
            type_name,
            ordinal,
        } => was(
            alloc, consumer, version, history, *wanted, type_name, *ordinal,
        ),
        Order::WasGet {
            version: wanted,
            type_name,
            values,
        } => was_get(
            alloc, consumer, version, history, *wanted, type_name, values,
        ),
        _ => look(alloc, order, consumer),
    }
}

// Answers an order that looks at where the consumer stands.
fn look(alloc: Global, order: &Order, consumer: &Consumer) -> Result<Reply, OrderStop>
    requires { IsLook order.now }
    ensures reply { IfOk result (LooksAt order.now consumer.now) }
    ensures stop { IfErr result (λ stop. stop ≡ OrderStop.Memory) }
{
    match order {
        Order::Get { type_name, values } => get(alloc, consumer, type_name, values),
        Order::Find {
            type_name,
            paths,
            values,
        } => find(alloc, consumer, type_name, paths, values),
        Order::WalkFind {
            type_name,
            path,
            value,
        } => walk_find(alloc, consumer, type_name, path, value),
        Order::Live(type_name) => live(alloc, consumer, type_name),
        Order::Row { type_name, ordinal } => row(alloc, consumer, type_name, *ordinal),
        Order::Has {
            type_name,
            ordinal,
            element,
        } => has(alloc, consumer, type_name, *ordinal, *element),
        Order::At {
            type_name,
            ordinal,
            key,
        } => at(alloc, consumer, type_name, *ordinal, *key),
        Order::Past(type_name) => past(alloc, consumer, type_name),
        Order::Stat => stat(alloc, consumer),
        _ => unreachable!(),
    }
}
