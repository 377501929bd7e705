//! The order `walkindex`.
ghost use Rattle.std.specs.Prelude.{◌≡◌, ◌<◌, ℕ, IfErr, IfOk, IsSomeAnd, OnErr, Option, length};
ghost use Rattle.hol_io.specs.Store.{Store};
ghost use Rattle.hol_history.specs.History.{PastSteps};
ghost use Rattle.hollow_machine.specs.Kept.{IsReader, MovesReader, reader_of};
ghost use Rattle.hollow_machine.specs.WalkOrders.{WalkIndexStep};
ghost use Rattle.reach_orders.specs.Walked.{TellsKept};

use crate::walk_way::{WalkWay, walk_way};
use consumer_orders::type_order::{Asked, type_of};
use hol_answers::{Refusal, Reply};
use hol_io::Steps;
use hol_orders::OrderStop;
use read_engine::{Consumer, WalkIndexFault};
use schema_model::{Limit, Name};
use std::alloc::Global;
use std::marker::Brand;
use std::sync::ledger::{Blank, Ledger};

/// The consumer keeps an index of the rows of a type by the values that they reach along a walk path, and the answer tells how many rows reach a value; one that
/// is kept already is answered again. Refused with `NoState`, `NoType`, `BadPath` and `TooLarge`, in this order: the last where the index is not kept and there is
/// no room for another one, or it would have too many entries. After a refusal or a stop the consumer is as before.
#[inline(never)]
pub fn walk_index(
    alloc: Global,
    consumer: &mut Consumer,
    name: &Name,
    path: &Name,
) -> Result<Reply, OrderStop>
    ensures step { (held : Option Store) (version : Option ℕ) (history : PastSteps) → MovesReader (λ machine reply next. WalkIndexStep machine name.now path.now reply next) held
        (reader_of consumer.old version history) (reader_of consumer.new version history) result }
    ensures reading { (version : Option ℕ) (history : PastSteps) → IsReader (reader_of consumer.old version history) → IsReader (reader_of consumer.new version history) }
    ensures stopped { OnErr result (consumer.new ≡ consumer.old) }
    ensures stop { IfErr result (λ stop. stop ≡ OrderStop.Memory) }
{
    let type_index = match type_of(alloc, consumer, name)? {
        Asked::At(type_index) => type_index,
        Asked::Refused(refusal) => return Ok(Reply::Refused(refusal)),
    };
    keep_walk::<Brand>(Blank::new(1), alloc, consumer, type_index, path)
}

// The consumer keeps an index of the rows of the type at an index by the values that they reach along the walk path of a text. The steps of walk indexes are
// counted on a blank that nobody reads.
fn keep_walk<L: Ledger>(
    blank: Blank,
    alloc: Global,
    consumer: &mut Consumer,
    type_index: u32,
    text: &Name,
) -> Result<Reply, OrderStop>
    requires ledger { blank.name ≡ L.name }
    requires parts { blank.parts ≡ L.parts }
    requires some { 0 < blank.parts }
    requires type_in { IsSomeAnd consumer.old (λ now. type_index < length now.schemas) }
    ensures kept { IfOk result (λ reply. IsSomeAnd consumer.old (λ now. TellsKept text.now now type_index consumer.new reply)) }
    ensures stopped { OnErr result (consumer.new ≡ consumer.old) }
    ensures stop { IfErr result (λ stop. stop ≡ OrderStop.Memory) }
{
    let Some(model) = consumer.model() else {
        unreachable!();
    };
    let path = match walk_way(alloc, model, type_index, text)? {
        WalkWay::Resolved(path) => path,
        WalkWay::Refused(refusal) => return Ok(Reply::Refused(refusal)),
    };
    let mut steps = Steps::<L>::new(blank);
    match consumer.add_walk(path, &mut steps) {
        Ok(number) => Ok(Reply::WalkIndex(consumer.walk_keyed(number))),
        Err(WalkIndexFault::TooMany) => Ok(Reply::Refused(Refusal::TooLarge(Limit::Walks))),
        Err(WalkIndexFault::Entries) => Ok(Reply::Refused(Refusal::TooLarge(Limit::Entries))),
        Err(WalkIndexFault::Memory) => Err(OrderStop::Memory),
    }
}
