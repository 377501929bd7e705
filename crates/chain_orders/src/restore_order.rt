//! The order `restore`.
ghost use Rattle.std.specs.Prelude.{◌≡◌, ◌≤◌, ◌<◌, IfErr, IfOk, IfSome, IsErrOf, IsSomeAnd, OnErr, length, slice_get, true};
ghost use Rattle.hol_io.specs.Causes.{Rose};
ghost use Rattle.hol_io.specs.Name.{IsVersion};
ghost use Rattle.snapshot_blob.specs.Body.{IsWholeBody};
ghost use Rattle.hol_answers.specs.Reply.{is_refusal};
ghost use Rattle.hollow_machine.specs.Kept.{IsResting, MovesProducer};
ghost use Rattle.hollow_machine.specs.RestoreOrder.{RestoreStep};
ghost use Rattle.chain_orders.specs.Restored.{RestoresFrom, TellsStored, body_of, position_of};

use crate::announced::why_not_last;
use hol_answers::{EqualRows, Refusal, Reply, blob_refusal};
use hol_io::{BlobName, BlobStore};
use hol_orders::OrderStop;
use hol_varint::Duplicate;
use read_engine::laws;
use row_model::Rows;
use schema_model::Model;
use snapshot_blob::{Loaded, read_snapshot};
use std::alloc::{AllocError, Global};
use write_engine::{Producer, RestoreFault};

/// The producer becomes that of the announced version's snapshot: its model, its rows, its tag, and the version. It is refused, with the first
/// cause, where the store announces no version, what it announces is none, or it is another one; then where the snapshot cannot be loaded; then
/// where it has two equal rows. After a refusal or a stop the producer is as before. The store stays as it is. `Store` comes only where the
/// store's count of faults rose.
#[inline(never)]
pub fn restore<S: BlobStore>(
    alloc: Global,
    store: &mut S,
    producer: &mut Option<Producer>,
    version: u64,
) -> Result<Reply, OrderStop>
    requires order { IsVersion version }
    requires resting { IfSome producer.old IsResting }
    ensures step { MovesProducer (λ machine reply after. RestoreStep machine version reply after)
        (S.seen store.old).held producer.old (S.seen store.new).held producer.new result }
    ensures resting { IfSome producer.new IsResting }
    ensures refused { IfOk result (λ reply. is_refusal reply ≡ true → producer.new ≡ producer.old) }
    ensures stopped { OnErr result (producer.new ≡ producer.old) }
    ensures held { (S.seen store.new).held ≡ (S.seen store.old).held }
    ensures puts { (S.seen store.new).puts ≡ (S.seen store.old).puts }
    ensures store_fault { IsErrOf result OrderStop.Store → Rose (S.seen store.old).faults (S.seen store.new).faults }
    ensures later { (S.seen store.old).faults ≤ (S.seen store.new).faults }
{
    if let Some(refusal) = why_not_last(store, version)? {
        return Ok(Reply::Refused(refusal));
    }
    match stored_snapshot(alloc, store, version)? {
        Ok(loaded) => restore_from(alloc, &loaded, version, producer),
        Err(refusal) => Ok(Reply::Refused(refusal)),
    }
}

// The snapshot of a version, or why it cannot be loaded.
fn stored_snapshot<S: BlobStore>(
    alloc: Global,
    store: &mut S,
    version: u64,
) -> Result<Result<Loaded, Refusal>, OrderStop>
    ensures tells { IfSome (S.seen store.old).held (λ held. IfOk result (TellsStored held version)) }
    ensures whole { IfOk result (λ found. IfOk found (λ loaded. IsWholeBody (body_of loaded))) }
    ensures held { (S.seen store.new).held ≡ (S.seen store.old).held }
    ensures puts { (S.seen store.new).puts ≡ (S.seen store.old).puts }
    ensures store_fault { IsErrOf result OrderStop.Store → Rose (S.seen store.old).faults (S.seen store.new).faults }
    ensures later { (S.seen store.old).faults ≤ (S.seen store.new).faults }
{
    laws::one_loaded_position();
    let name = BlobName::Snapshot(version);
    match read_snapshot(alloc, store, &name) {
        Ok(loaded) => Ok(Ok(loaded)),
        Err(fault) => {
            let refusal = blob_refusal(&name, fault)?;
            Ok(Err(refusal))
        }
    }
}

// The producer becomes that of a snapshot, if no row stands twice in it.
fn restore_from(
    alloc: Global,
    loaded: &Loaded,
    version: u64,
    producer: &mut Option<Producer>,
) -> Result<Reply, OrderStop>
    requires whole { IsWholeBody (body_of loaded.now) }
    requires resting { IfSome producer.old IsResting }
    ensures restored { IfOk result (RestoresFrom (position_of loaded.now) version producer.old producer.new) }
    ensures resting { IfSome producer.new IsResting }
    ensures refused { IfOk result (λ reply. is_refusal reply ≡ true → producer.new ≡ producer.old) }
    ensures stop { IfErr result (λ stop. stop ≡ OrderStop.Memory) }
    ensures stopped { OnErr result (producer.new ≡ producer.old) }
{
    let tag = loaded.header.destination;
    let rows = loaded.rows();
    match Producer::restore(alloc, &rows, tag, version) {
        Ok(made) => {
            *producer = Some(made);
            Ok(Reply::Restore { tag, version })
        }
        Err(RestoreFault::Duplicate(type_index, first, second)) => {
            let rows = equal_rows(alloc, rows.model(), type_index, first, second)?;
            Ok(Reply::Refused(Refusal::DuplicateRow(rows)))
        }
        Err(RestoreFault::Memory) => Err(OrderStop::Memory),
    }
}

// Two equal rows, by the name of their type.
fn equal_rows(
    alloc: Global,
    model: &Model,
    type_index: u32,
    first: u32,
    second: u32,
) -> Result<EqualRows, AllocError>
    requires { type_index < length model.now }
    ensures { IfOk result (λ rows. IsSomeAnd (slice_get model.now type_index) (λ schema. schema.name ≡ rows.type_name) × (rows.first ≡ first) × (rows.second ≡ second)) }
{
    let type_name = model.schema(type_index).name.copy(alloc)?;
    Ok(EqualRows {
        type_name,
        first,
        second,
    })
}
