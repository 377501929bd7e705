//! A consumer that walks along a chain.
ghost use Rattle.std.specs.Prelude.{◌≡◌, ◌≢◌, ◌≤◌, ◌<◌, Err, IsSome, None};
ghost use Rattle.hol_io.specs.Causes.{Rose};
ghost use Rattle.hol_io.specs.Name.{IsStepName, step_name};
ghost use Rattle.read_engine.specs.Walking.{WalksStep, schemas_at, table_at};

use crate::Consumer;
use blob_frame::BlobFault;
use chain_check::Walk;
use column_rows::{ColumnRows, PackedItems};
use hol_io::{BlobName, BlobStore, Steps};
use object_codec::Column;
use row_model::{LentRow, Row, Rows};
use schema_model::Model;
use state_moves::{Now, has_same_rows_in, now_of};
use std::alloc::{AllocError, Global};
use std::marker::Brand;
use std::sync::ledger::{Blank, Ledger};

/// A consumer that walks along a chain. Until a load is answered Ok it has no types, and its tag is 0.
#[derive(Drop)]
pub struct Walker {
    consumer: Consumer,
}

impl std::marker::Model for Walker {
    ghost use Rattle.std.specs.Prelude.{Option};
    ghost use Rattle.std.specs.Coded.{coded_option};
    ghost use Rattle.read_engine.specs.Position.{Position, position_code};

    ghost Value = { Option Position };

    ghost coded = { coded_option position_code };

    ghost view = { λ w. w.consumer };
}

impl Walker {
    /// A walker that has no state. It takes no memory.
    pub fn new(alloc: Global) -> Walker
        ensures { result ≡ None }
    {
        Walker {
            consumer: Consumer::new(alloc),
        }
    }

    // The rows of its state, none where it has no state.
    fn rows(&self) -> Now<'_>
        ensures schemas { result.schemas ≡ schemas_at self.now }
        ensures table { result.table ≡ table_at self.now }
    {
        now_of(self.consumer.types(), self.consumer.states())
    }
}

impl Rows for Walker {
    ghost use Rattle.read_engine.specs.Walking.{schemas_at, table_at};

    ghost schemas = { schemas_at };

    ghost table = { table_at };

    fn model(&self) -> &Model {
        self.consumer.types()
    }

    fn bound(&self, type_index: u32) -> u32 {
        self.rows().bound(type_index)
    }

    fn is_live(&self, type_index: u32, ordinal: u32) -> bool {
        self.rows().is_live(type_index, ordinal)
    }

    fn row(&self, alloc: Global, type_index: u32, ordinal: u32) -> Result<Row, AllocError> {
        self.rows().row(alloc, type_index, ordinal)
    }

    fn lend(
        &self,
        alloc: Global,
        type_index: u32,
        ordinal: u32,
    ) -> Result<LentRow<'_>, AllocError> {
        self.rows().lent(alloc, type_index, ordinal)
    }
}

impl ColumnRows for Walker {
    fn column(&self, type_index: u32, field: u32) -> Option<Column<'_>> {
        self.rows().column_lent(type_index, field)
    }

    fn lists(&self, type_index: u32) -> Option<PackedItems<'_>> {
        self.rows().lists_lent(type_index)
    }

    fn runs(&self, type_index: u32) -> Option<PackedItems<'_>> {
        self.rows().runs_lent(type_index)
    }
}

impl Walk for Walker {
    ghost use Rattle.std.specs.Prelude.{◌≡◌, IsSome};
    ghost use Rattle.blob_frame.specs.declared.fault.BlobFault.TheVariants.{Store as store_failed};
    ghost use Rattle.read_engine.specs.Walking.{WalksLoad, WalksStep, loads_once, steps_once, tag_at};

    type Fault = BlobFault;

    ghost tag = { tag_at };

    ghost is_loaded = { IsSome };

    ghost loads = { WalksLoad };

    ghost steps = { WalksStep };

    ghost is_failure = { λ fault. fault ≡ store_failed };

    ghost one_load = { loads_once };

    ghost one_step = { steps_once };

    fn walk_load<S: BlobStore>(&mut self, store: &mut S, version: u64) -> Result<(), BlobFault> {
        self.consumer.load(store, version)
    }

    fn walk_step<S: BlobStore>(
        &mut self,
        store: &mut S,
        from: u64,
        to: u64,
    ) -> Result<(), BlobFault> {
        step_along::<S, Brand>(Blank::new(1), self, store, from, to)
    }

    fn walk_tag(&self) -> i64 {
        self.consumer.tag_or_zero()
    }

    fn has_same_rows(&self, other: &Self, type_index: u32) -> bool {
        has_same_rows_in(self.consumer.states(), other.consumer.states(), type_index)
    }
}

// A step of a walker that has a state. The steps of its indexes, of which it keeps none, are counted on a blank that nobody reads.
fn step_along<S: BlobStore, L: Ledger>(
    blank: Blank,
    walker: &mut Walker,
    store: &mut S,
    from: u64,
    to: u64,
) -> Result<(), BlobFault>
    requires ledger { blank.name ≡ L.name }
    requires parts { blank.parts ≡ L.parts }
    requires some { 0 < blank.parts }
    requires loaded { IsSome walker.old }
    requires apart { from ≢ to }
    ensures steps { WalksStep (S.seen store.old).held from to walker.old walker.new result }
    ensures still { IsSome walker.new }
    ensures cause { result ≡ Err BlobFault.Store → Rose (S.seen store.old).faults (S.seen store.new).faults }
    ensures kept { (S.seen store.new).held ≡ (S.seen store.old).held }
    ensures later { (S.seen store.old).faults ≤ (S.seen store.new).faults }
    ensures unput { (S.seen store.new).puts ≡ (S.seen store.old).puts }
{
    let mut steps = Steps::<L>::new(blank);
    walker
        .consumer
        .step(store, &BlobName::between(from, to), &mut steps)
}
