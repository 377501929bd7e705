//! The next state of a producer is made of the records of a cycle.
ghost use Rattle.std.specs.Prelude.{◌≡◌, ◌<◌, All, IfOk, Some, length, slice_get};
ghost use Rattle.schema_model.specs.declared.schema.Schema.{Schema};
ghost use Rattle.hol_orders.specs.Parts.{added};
ghost use Rattle.hol_orders.specs.Shapes.{AreRecords};
ghost use Rattle.hol_answers.specs.Refusal.{bad_record as refused_record};
ghost use Rattle.hollow_machine.specs.CycleOrder.{AreNamed};
ghost use Rattle.hollow_machine.specs.Kept.{IsResting};
ghost use Rattle.state_blobs.specs.Published.{published_of};
ghost use Rattle.hollow_machine.specs.Records.{AreTypes, spelled};
ghost use Rattle.producer_orders.specs.Asked.{Suit, adding_of};
ghost use Rattle.producer_orders.specs.Ends.{IsMemory, TellsEnd};
ghost use Rattle.producer_orders.specs.Making.{AreRefused, AreTaken, IsMade};

use crate::asked::Records;
use crate::cycle_end::CycleEnd;
use crate::films::take_films;
use crate::record_fault::RecordFault;
use crate::records::add_records;
use crate::types::unknown_type;
use hol_answers::{Refusal, RefusedRecord};
use hol_orders::{Added, OrderStop};
use hol_varint::{Duplicate, Ordinals};
use schema_model::{Limit, Model, Names, Reason};
use std::alloc::{AllocError, Global};
use write_engine::{Closed, Producer};

/// Adds the records to a producer, and closes the cycle. It is refused for the first name that is that of no type, then for the first record that
/// gives no tree, and then where they are too many.
pub(crate) fn make_state(
    alloc: Global,
    producer: &mut Producer,
    records: &Records<'_>,
) -> Result<Closed, CycleEnd>
    requires resting { IsResting producer.old }
    requires records { Suit producer.old.schemas records.now }
    ensures tells { TellsEnd (IsMade (published_of producer.old) (adding_of records.now) producer.new) (AreRefused (published_of producer.old) (adding_of records.now)) IsMemory result }
    ensures kept { published_of producer.new ≡ published_of producer.old }
{
    take_records(alloc, producer, records)?;
    let closed = producer.close()?;
    // Each view tells that it has rows of so many types as the model.
    let _previous = producer.previous();
    let _current = producer.current();
    Ok(closed)
}

// Adds the records to a producer.
fn take_records(
    alloc: Global,
    producer: &mut Producer,
    records: &Records<'_>,
) -> Result<(), CycleEnd>
    requires resting { IsResting producer.old }
    requires records { Suit producer.old.schemas records.now }
    ensures tells { TellsEnd (λ _. AreTaken (published_of producer.old) (adding_of records.now) producer.new.current)
        (AreRefused (published_of producer.old) (adding_of records.now)) IsMemory result }
    ensures kept { producer.new ≡ record producer.old { current = producer.new.current } }
{
    match records {
        Records::Spelled(add) => take_spelled(alloc, producer, add),
        Records::Films(script) => take_films(alloc, producer, *script),
    }
}

// Adds the records of an order to a producer.
fn take_spelled(alloc: Global, producer: &mut Producer, add: &Added) -> Result<(), CycleEnd>
    requires resting { IsResting producer.old }
    requires records { AreRecords (added add.now) }
    ensures tells { TellsEnd (λ _. AreTaken (published_of producer.old) (spelled (added add.now)) producer.new.current)
        (AreRefused (published_of producer.old) (spelled (added add.now))) IsMemory result }
    ensures kept { producer.new ≡ record producer.old { current = producer.new.current } }
{
    if let Some(name) = unknown_type(alloc, producer.model(), add)? {
        return Err(CycleEnd::Refused(Refusal::NoType(name)));
    }
    take_known(alloc, producer, add)
}

// Adds the records of an order, whose types are known, to a producer.
#[tactic(auto, using(crate::proofs::Makings::are_taken, crate::proofs::Makings::too_many))]
fn take_known(alloc: Global, producer: &mut Producer, add: &Added) -> Result<(), CycleEnd>
    requires resting { IsResting producer.old }
    requires types { AreTypes producer.old.schemas (added add.now) }
    ensures tells { TellsEnd (λ _. AreTaken (published_of producer.old) (spelled (added add.now)) producer.new.current)
        (AreRefused (published_of producer.old) (spelled (added add.now))) IsMemory result }
    ensures kept { producer.new ≡ record producer.old { current = producer.new.current } }
{
    match add_records(alloc, producer, add) {
        Ok(()) => Ok(()),
        Err(
            RecordFault::Bad {
                type_index,
                place,
                reason,
            },
        ) => {
            let refusal = bad_record(alloc, producer.model(), type_index, place, reason)?;
            Err(CycleEnd::Refused(refusal))
        }
        Err(RecordFault::TooMany) => Err(CycleEnd::Refused(Refusal::TooLarge(Limit::Ordinals))),
        Err(RecordFault::Memory) => Err(CycleEnd::Stopped(OrderStop::Memory)),
    }
}

// The refusal of a record that gives no tree.
fn bad_record(
    alloc: Global,
    model: &Model,
    type_index: u32,
    place: u64,
    reason: Reason,
) -> Result<Refusal, AllocError>
    requires { type_index < length model.now }
    ensures { IfOk result (λ refusal. (schema : Schema) × (slice_get model.now type_index ≡ Some schema) × (refusal ≡ refused_record schema.name place reason)) }
{
    Ok(Refusal::BadRecord(RefusedRecord {
        type_name: model.schema(type_index).name.copy(alloc)?,
        index: place,
        reason,
    }))
}

/// The names of some types of a model.
pub(crate) fn names_of_types(
    alloc: Global,
    model: &Model,
    types: &Ordinals,
) -> Result<Names, AllocError>
    requires { All (λ type_index. type_index < length model.now) types.now }
    ensures { IfOk result (AreNamed model.now types.now) }
{
    let mut names = Names::new(alloc);
    let indexes = types.as_slice();
    for type_index in indexes {
        names.push(model.schema(*type_index).name.copy(alloc)?)?;
    }
    Ok(names)
}
