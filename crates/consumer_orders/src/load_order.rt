//! The order `load`.
ghost use Rattle.std.specs.Prelude.{◌≡◌, ◌≤◌, IsErrOf, OnErr};
ghost use Rattle.hol_io.specs.Causes.{Rose};
ghost use Rattle.hollow_machine.specs.Kept.{IsReader, MovesReader, reader_of};
ghost use Rattle.hollow_machine.specs.LoadOrder.{LoadStep};
ghost use Rattle.consumer_orders.specs.Unmoved.{Unmoved};

use hol_answers::{Reply, blob_refusal};
use hol_history::History;
use hol_io::{BlobName, BlobStore};
use hol_orders::OrderStop;
use read_engine::Consumer;

/// The consumer becomes the state of the snapshot of a version, which is its version then, no older states are kept of it, and the answer tells its tag; or
/// the snapshot is refused, with its first fault: `NoBlob`, `TooLarge` or `BadBlob`. After a refusal or a stop the consumer, its version and its history are
/// as before. The store stays as it is. `Store` comes only where the store's count of faults rose.
#[inline(never)]
pub fn load<S: BlobStore>(
    store: &mut S,
    consumer: &mut Consumer,
    version: &mut Option<u64>,
    history: &mut History,
    wanted: u64,
) -> Result<Reply, OrderStop>
    ensures step { MovesReader (λ machine reply next. LoadStep machine wanted reply next) (S.seen store.old).held
        (reader_of consumer.old version.old history.old) (reader_of consumer.new version.new history.new) result }
    ensures reading { IsReader (reader_of consumer.old version.old history.old) → IsReader (reader_of consumer.new version.new history.new) }
    ensures unmoved { Unmoved (reader_of consumer.old version.old history.old) (reader_of consumer.new version.new history.new) result }
    ensures stopped { OnErr result (reader_of consumer.new version.new history.new ≡ reader_of consumer.old version.old history.old) }
    ensures held { (S.seen store.new).held ≡ (S.seen store.old).held }
    ensures puts { (S.seen store.new).puts ≡ (S.seen store.old).puts }
    ensures store_fault { IsErrOf result OrderStop.Store → Rose (S.seen store.old).faults (S.seen store.new).faults }
    ensures later { (S.seen store.old).faults ≤ (S.seen store.new).faults }
{
    if let Err(fault) = consumer.load(store, wanted) {
        let refusal = blob_refusal(&BlobName::Snapshot(wanted), fault)?;
        return Ok(Reply::Refused(refusal));
    }
    match consumer.tag() {
        Some(tag) => {
            *version = Some(wanted);
            history.clear();
            Ok(Reply::Load(tag))
        }
        None => unreachable!(),
    }
}
