//! The order `index`.
ghost use Rattle.std.specs.Prelude.{◌≡◌, ◌<◌, ℕ, IfErr, IfOk, IsSomeAnd, OnErr, Option, length};
ghost use Rattle.serde_json.specs.View.{view};
ghost use Rattle.hol_io.specs.Store.{Store};
ghost use Rattle.hol_history.specs.History.{PastSteps};
ghost use Rattle.hollow_machine.specs.IndexOrder.{IndexStep};
ghost use Rattle.hollow_machine.specs.Kept.{IsReader, MovesReader, reader_of};
ghost use Rattle.hollow_machine.specs.KeyPaths.{texts_of_array};
ghost use Rattle.consumer_orders.specs.Sought.{TellsKept};

use crate::key_paths::{KeyPaths, key_paths, texts_of};
use crate::type_order::{Asked, type_of};
use hol_answers::{Refusal, Reply};
use hol_io::Steps;
use hol_orders::OrderStop;
use read_engine::{Consumer, IndexFault};
use schema_model::{Limit, Name, Names};
use serde_json::Value;
use std::alloc::Global;
use std::marker::Brand;
use std::sync::ledger::{Blank, Ledger};

/// The consumer keeps an index of a type by the values at the ends of paths, and the answer tells how many rows have a key; one that is kept already is
/// answered again. No path stands for the primary key. Refused with `NoState`, `NoType`, `WrongKind`, `BadPath` and `TooLarge`, in this order: the last
/// where the index is not kept and there is no room for another one. After a refusal or a stop the consumer is as before.
#[inline(never)]
pub fn index(
    alloc: Global,
    consumer: &mut Consumer,
    name: &Name,
    paths: &Value,
) -> Result<Reply, OrderStop>
    ensures step { (held : Option Store) (version : Option ℕ) (history : PastSteps) → MovesReader (λ machine reply next. IndexStep machine name.now (texts_of_array (view paths.now)) reply next) held
        (reader_of consumer.old version history) (reader_of consumer.new version history) result }
    ensures reading { (version : Option ℕ) (history : PastSteps) → IsReader (reader_of consumer.old version history) → IsReader (reader_of consumer.new version history) }
    ensures stopped { OnErr result (consumer.new ≡ consumer.old) }
    ensures stop { IfErr result (λ stop. stop ≡ OrderStop.Memory) }
{
    let type_index = match type_of(alloc, consumer, name)? {
        Asked::At(type_index) => type_index,
        Asked::Refused(refusal) => return Ok(Reply::Refused(refusal)),
    };
    let texts = texts_of(alloc, paths)?;
    keep_index::<Brand>(Blank::new(1), alloc, consumer, name, type_index, &texts)
}

// The consumer keeps an index of the type at an index, which has this name, by the values at the ends of the paths of the texts. The steps of indexes are
// counted on a blank that nobody reads.
fn keep_index<L: Ledger>(
    blank: Blank,
    alloc: Global,
    consumer: &mut Consumer,
    name: &Name,
    type_index: u32,
    texts: &Names,
) -> Result<Reply, OrderStop>
    requires ledger { blank.name ≡ L.name }
    requires parts { blank.parts ≡ L.parts }
    requires some { 0 < blank.parts }
    requires type_in { IsSomeAnd consumer.old (λ now. type_index < length now.schemas) }
    ensures kept { IfOk result (λ reply. IsSomeAnd consumer.old (λ now. TellsKept name.now texts.now now type_index consumer.new reply)) }
    ensures stopped { OnErr result (consumer.new ≡ consumer.old) }
    ensures stop { IfErr result (λ stop. stop ≡ OrderStop.Memory) }
{
    let Some(model) = consumer.model() else {
        unreachable!();
    };
    let paths = match key_paths(alloc, model, name, type_index, texts)? {
        KeyPaths::Resolved(paths) => paths,
        KeyPaths::Refused(refusal) => return Ok(Reply::Refused(refusal)),
    };
    let mut steps = Steps::<L>::new(blank);
    match consumer.add_index(type_index, paths, &mut steps) {
        Ok(number) => Ok(Reply::Index(consumer.keyed(number))),
        Err(IndexFault::TooMany) => Ok(Reply::Refused(Refusal::TooLarge(Limit::Indexes))),
        Err(IndexFault::Memory) => Err(OrderStop::Memory),
    }
}
