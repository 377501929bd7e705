//! A producer: the previous state, and the cycle that makes the next one.
ghost use Rattle.std.specs.Prelude.{◌≡◌, ◌↔◌, ◌<◌, ◌^◌, ℕ, Ok, Err, IfOk, IsTrue, OnErr, OnOk, true, false, length};
ghost use Rattle.hol_varint.specs.Yields.{Yields};
ghost use Rattle.schema_model.specs.Growth.{Grows};
ghost use Rattle.row_model.specs.Table.{Table, IsClosed, IsLive};
ghost use Rattle.row_model.specs.PlainTree.{PlainTree};
ghost use Rattle.record_trees.specs.Tree.{plain};
ghost use Rattle.row_packing.specs.Measured.{AreMeasured};
ghost use Rattle.ordinal_map.specs.Assign.{IsFreePut, IsPut};
ghost use Rattle.write_engine.specs.Agreement.{HoldsOnce, TablesAgree};
ghost use Rattle.write_engine.specs.Cycle.{Adds, PutsRow, no_rows, rows_in, with_row};
ghost use Rattle.write_engine.specs.CycleLimit.{IsToPublish, TellsCycle};
ghost use Rattle.write_engine.specs.Grown.{grown_to};
ghost use Rattle.record_trees.specs.FitsTree.{FitsTree};
ghost use Rattle.record_trees.specs.Rows.{IsRowOf};
ghost use Rattle.write_engine.specs.Production.{AreChanged, IsProducing, IsStart, advanced_to, current_of, previous_of, without_rows};
ghost use Rattle.write_engine.specs.Restoring.{HasLowOrdinals, IsFirstDuplicate, IsFreeRestore, TellsRestored, restored_of};
ghost use Rattle.write_engine.specs.RowDrops.{MayLeave, without_row};
ghost use Rattle.write_engine.specs.RowPuts.{FitsRow, TellsRowPut};
ghost use Rattle.write_engine.specs.Soundness.{IsClosedTableOf};
ghost use Rattle.write_engine.specs.StoredRows.{AreStored};

use crate::adding::{add_tree, put_row};
use crate::growing::grow_maps;
use crate::limits::{cycle_limit, measure_cycle};
use crate::restoring::{RestoreFault, restore_states};
use crate::states::{
    advance_all, changed_types, drop_row, keep_all, make_states, reserve, undo_all,
};
use crate::views::{Current, Previous};
use hol_varint::{List, Ordinals};
use model_rules::copy_model;
use ordinal_map::{OrdinalMap, PutRowFault};
use record_trees::Tree;
use row_model::{Row, Rows};
use row_packing::Measured;
use schema_model::{Limit, Model};
use std::alloc::{AllocError, Global};

/// What a closed cycle has changed.
#[derive(Drop)]
pub struct Closed {
    /// The indexes of the types whose ordinals and rows differ from the previous state's, rising.
    pub changed: Ordinals,
    /// Whether the producer's version is 0.
    pub first: bool,
    /// What is measured of each type, in model order; nothing where the state is not the first and no type is changed.
    pub measured: List<Measured>,
}

/// The previous state with its tag and version, and the rows of the cycle that makes the next one.
#[derive(Drop)]
pub struct Producer {
    alloc: Global,
    model: Model,
    /// The rows of each type, in model order.
    maps: Vec<OrdinalMap>,
    tag: i64,
    version: u64,
    closed: bool,
    /// The limit that the closed cycle passes.
    over: Option<Limit>,
}

impl std::marker::Model for Producer {
    ghost use Rattle.write_engine.specs.Production.{IsProducing, Production, current_of, previous_of, production_code};

    ghost Value = { Production };

    ghost coded = { production_code };

    ghost view = { λ p. record { schemas = p.model; previous = previous_of p.maps.items; current = current_of p.maps.items; tag = p.tag; version = p.version; closed = p.closed; over = p.over } };

    ghost invariant = { λ p. IsProducing p.model p.maps.items };
}

// Adds a tree to the rows of its type, with all that it refers to.
fn add_rows(
    alloc: Global,
    model: &Model,
    maps: &mut Vec<OrdinalMap>,
    type_index: u32,
    tree: &Tree,
) -> Result<u32, PutRowFault>
    requires types { length maps.old.items ≡ length model.now }
    requires agree { TablesAgree (previous_of maps.old.items) (current_of maps.old.items) }
    requires fits { FitsTree model.now type_index (plain tree.now) }
    ensures previous { previous_of maps.new.items ≡ previous_of maps.old.items }
    ensures added { IfOk result (λ ordinal. Adds model.now (previous_of maps.old.items) type_index (plain tree.now) (current_of maps.old.items) ordinal (current_of maps.new.items)) }
    ensures too_many { result ≡ Err PutRowFault.TooMany → (ordinal : ℕ) (after : Table) → ¬ Adds model.now (previous_of maps.old.items) type_index (plain tree.now) (current_of maps.old.items) ordinal after }
{
    add_tree(alloc, model, maps.as_mut_slice(), type_index, tree)
}

// Adds a tree; where it is refused, drops the cycle's rows.
fn add_or_undo(
    alloc: Global,
    model: &Model,
    maps: &mut Vec<OrdinalMap>,
    type_index: u32,
    tree: &Tree,
) -> Result<u32, PutRowFault>
    requires producing { IsProducing model.now maps.old.items }
    requires fits { FitsTree model.now type_index (plain tree.now) }
    ensures producing { IsProducing model.now maps.new.items }
    ensures previous { previous_of maps.new.items ≡ previous_of maps.old.items }
    ensures added { IfOk result (λ ordinal. Adds model.now (previous_of maps.old.items) type_index (plain tree.now) (current_of maps.old.items) ordinal (current_of maps.new.items)) }
    ensures too_many { result ≡ Err PutRowFault.TooMany → (ordinal : ℕ) (after : Table) → ¬ Adds model.now (previous_of maps.old.items) type_index (plain tree.now) (current_of maps.old.items) ordinal after }
    ensures undone { OnErr result (current_of maps.new.items ≡ no_rows (length model.now)) }
{
    match add_rows(alloc, model, maps, type_index, tree) {
        Ok(ordinal) => Ok(ordinal),
        Err(fault) => {
            undo_all(maps);
            Err(fault)
        }
    }
}

// Puts a row of a type.
fn put_one(maps: &mut Vec<OrdinalMap>, type_index: u32, row: Row) -> Result<u32, PutRowFault>
    requires known { type_index < length maps.old.items }
    requires agree { TablesAgree (previous_of maps.old.items) (current_of maps.old.items) }
    ensures previous { previous_of maps.new.items ≡ previous_of maps.old.items }
    ensures tells { TellsRowPut (previous_of maps.old.items) type_index row (current_of maps.old.items) result (current_of maps.new.items) }
{
    put_row(maps.as_mut_slice(), type_index, row)
}

// Makes room for rows of a type.
fn reserve_one(maps: &mut Vec<OrdinalMap>, type_index: u32, ordinal: u32) -> Result<(), AllocError>
    requires known { type_index < length maps.old.items }
    requires low { ordinal < 2 ^ 22 }
    ensures previous { previous_of maps.new.items ≡ previous_of maps.old.items }
    ensures current { current_of maps.new.items ≡ current_of maps.old.items }
{
    reserve(maps.as_mut_slice(), type_index, ordinal)
}

// Takes out a row of a type.
fn drop_one(maps: &mut Vec<OrdinalMap>, type_index: u32, ordinal: u32)
    requires { IsLive (current_of maps.old.items) type_index ordinal }
    ensures previous { previous_of maps.new.items ≡ previous_of maps.old.items }
    ensures current { current_of maps.new.items ≡ without_row (current_of maps.old.items) type_index ordinal }
{
    drop_row(maps.as_mut_slice(), type_index, ordinal);
}

// Takes out a row of a type that no row names.
fn drop_unnamed(model: &Model, maps: &mut Vec<OrdinalMap>, type_index: u32, ordinal: u32)
    requires producing { IsProducing model.now maps.old.items }
    requires leaves { MayLeave model.now (current_of maps.old.items) type_index ordinal }
    ensures producing { IsProducing model.now maps.new.items }
    ensures previous { previous_of maps.new.items ≡ previous_of maps.old.items }
    ensures current { current_of maps.new.items ≡ without_row (current_of maps.old.items) type_index ordinal }
{
    drop_one(maps, type_index, ordinal);
}

// Puts the row of a record that refers to no others.
fn put_plain(
    model: &Model,
    maps: &mut Vec<OrdinalMap>,
    type_index: u32,
    row: Row,
) -> Result<u32, PutRowFault>
    requires producing { IsProducing model.now maps.old.items }
    requires fits { (tree : PlainTree) × FitsTree model.now type_index tree × IsRowOf tree row }
    ensures producing { IsProducing model.now maps.new.items }
    ensures previous { previous_of maps.new.items ≡ previous_of maps.old.items }
    ensures added { (tree : PlainTree) → FitsTree model.now type_index tree → IsRowOf tree row
        → IfOk result (λ ordinal. Adds model.now (previous_of maps.old.items) type_index tree (current_of maps.old.items) ordinal (current_of maps.new.items)) }
    ensures too_many { (tree : PlainTree) → IsRowOf tree row → result ≡ Err PutRowFault.TooMany
        → (ordinal : ℕ) (after : Table) → ¬ Adds model.now (previous_of maps.old.items) type_index tree (current_of maps.old.items) ordinal after }
    ensures refused { OnErr result (current_of maps.new.items ≡ current_of maps.old.items) }
{
    put_one(maps, type_index, row)
}

impl Producer {
    /// A producer at version 0, whose previous state has no rows.
    pub fn new(alloc: Global, model: Model) -> Result<Producer, AllocError>
        ensures { IfOk result (IsStart model) }
    {
        let maps = make_states(alloc, model.len())?;
        Ok(Producer {
            alloc,
            model,
            maps,
            tag: 0,
            version: 0,
            closed: false,
            over: None,
        })
    }

    /// A producer whose previous state has these rows, under this tag and version, and whose cycle is open and has no rows: it goes on as if
    /// the run that made them had never ended. The rows are closed, have ordinals below 2^22, and hold no least INT and no least LONG.
    ///
    /// `Duplicate` comes exactly where a type has two equal rows. It names the first such type in model order, the least ordinal whose row a
    /// lesser one has too, behind that lesser one.
    pub fn restore<R: Rows>(
        alloc: Global,
        rows: &R,
        tag: i64,
        version: u64,
    ) -> Result<Producer, RestoreFault>
        requires closed { IsClosed (R.schemas rows.now) (R.table rows.now) }
        requires low { HasLowOrdinals (R.table rows.now) }
        requires stored { AreStored (R.table rows.now) }
        ensures tells { TellsRestored (R.schemas rows.now) (R.table rows.now) tag version result }
        ensures restored { Yields IsFreeRestore result (Ok (restored_of (R.schemas rows.now) (R.table rows.now) tag version)) (HoldsOnce (R.table rows.now)) }
        ensures duplicate { (type_index first second : ℕ) → Yields IsFreeRestore result (Err (RestoreFault.Duplicate type_index first second)) (IsFirstDuplicate (R.table rows.now) type_index first second) }
    {
        let maps = restore_states(alloc, rows)?;
        let model = copy_model(alloc, rows.model())?;
        Ok(Producer {
            alloc,
            model,
            maps,
            tag,
            version,
            closed: false,
            over: None,
        })
    }

    /// The model of the rows.
    pub fn model(&self) -> &Model
        ensures { result.now ≡ self.now.schemas }
    {
        &self.model
    }

    /// The tag of the previous state.
    pub fn tag(&self) -> i64
        ensures { result ≡ self.now.tag }
    {
        self.tag
    }

    /// The version of the previous state, 0 for none.
    pub fn version(&self) -> u64
        ensures { result ≡ self.now.version }
    {
        self.version
    }

    /// The rows of the previous state. They are closed, and hold no least INT and no least LONG.
    pub fn previous(&self) -> Previous<'_>
        ensures schemas { result.schemas ≡ self.now.schemas }
        ensures table { result.table ≡ self.now.previous }
        ensures closed { IsClosedTableOf self.now.schemas self.now.previous }
        ensures stored { AreStored self.now.previous }
    {
        Previous::new(&self.model, self.maps.as_slice())
    }

    /// The rows of the cycle so far. They are closed, and hold no least INT and no least LONG.
    pub fn current(&self) -> Current<'_>
        ensures schemas { result.schemas ≡ self.now.schemas }
        ensures table { result.table ≡ self.now.current }
        ensures closed { IsClosedTableOf self.now.schemas self.now.current }
        ensures agree { TablesAgree self.now.previous self.now.current }
        ensures stored { AreStored self.now.current }
    {
        Current::new(&self.model, self.maps.as_slice())
    }

    /// Adds a record to the cycle, with all that it refers to, and gives the ordinal of its top row.
    ///
    /// `TooMany` comes where a row of the record would get the ordinal 2^22. After a refusal the cycle has no rows: all that it added is dropped.
    pub fn add(&mut self, type_index: u32, tree: &Tree) -> Result<u32, PutRowFault>
        requires fits { FitsTree self.old.schemas type_index (plain tree.now) }
        requires open { self.old.closed ≡ false }
        ensures added { IfOk result (λ ordinal. Adds self.old.schemas self.old.previous type_index (plain tree.now) self.old.current ordinal self.new.current) }
        ensures too_many { result ≡ Err PutRowFault.TooMany → (ordinal : ℕ) (after : Table) → ¬ Adds self.old.schemas self.old.previous type_index (plain tree.now) self.old.current ordinal after }
        ensures kept { self.new ≡ record self.old { current = self.new.current } }
        ensures undone { OnErr result (self.new.current ≡ no_rows (length self.old.schemas)) }
    {
        add_or_undo(self.alloc, &self.model, &mut self.maps, type_index, tree)
    }

    /// Adds a record that refers to no others, as the row that it is, and gives its ordinal.
    ///
    /// `TooMany` comes where it would get the ordinal 2^22. After a refusal the producer is as it was, and the cycle keeps its rows.
    pub fn add_row(&mut self, type_index: u32, row: Row) -> Result<u32, PutRowFault>
        requires fits { (tree : PlainTree) × FitsTree self.old.schemas type_index tree × IsRowOf tree row }
        requires open { self.old.closed ≡ false }
        ensures added { (tree : PlainTree) → FitsTree self.old.schemas type_index tree → IsRowOf tree row
            → IfOk result (λ ordinal. Adds self.old.schemas self.old.previous type_index tree self.old.current ordinal self.new.current) }
        ensures too_many { (tree : PlainTree) → IsRowOf tree row → result ≡ Err PutRowFault.TooMany
            → (ordinal : ℕ) (after : Table) → ¬ Adds self.old.schemas self.old.previous type_index tree self.old.current ordinal after }
        ensures kept { self.new ≡ record self.old { current = self.new.current } }
        ensures refused { OnErr result (self.new ≡ self.old) }
    {
        put_plain(&self.model, &mut self.maps, type_index, row)
    }

    /// Puts one row of a type into the cycle as it is, beside the rows that it names, and gives its ordinal. A row that stands there already keeps
    /// its ordinal, and nothing changes.
    ///
    /// `TooMany` comes where its ordinal would be 2^22. After a refusal the producer is as it was.
    pub fn put_row(&mut self, type_index: u32, row: Row) -> Result<u32, PutRowFault>
        requires fits { FitsRow self.old.schemas self.old.current type_index row }
        requires open { self.old.closed ≡ false }
        ensures tells { TellsRowPut self.old.previous type_index row self.old.current result self.new.current }
        ensures put { (ordinal : ℕ) → Yields IsFreePut result (Ok ordinal) (PutsRow self.old.previous type_index row self.old.current ordinal (with_row self.old.current type_index ordinal row)) }
        ensures too_many { Yields IsFreePut result (Err PutRowFault.TooMany) (IsPut (rows_in self.old.previous type_index) (rows_in self.old.current type_index) row (2 ^ 22)) }
        ensures kept { self.new ≡ record self.old { current = self.new.current } }
        ensures refused { OnErr result (self.new ≡ self.old) }
    {
        put_one(&mut self.maps, type_index, row)
    }

    /// Makes room for the links of the rows of a type up to an ordinal, so that they are not made anew while these rows are put: 12 bytes an
    /// ordinal, and 8 for the heads of the chains, of as many as the next power of two. The producer stays as it is, also where memory is refused.
    pub fn reserve(&mut self, type_index: u32, ordinal: u32) -> Result<(), AllocError>
        requires known { type_index < length self.old.schemas }
        requires low { ordinal < 2 ^ 22 }
        ensures { self.new ≡ self.old }
    {
        reserve_one(&mut self.maps, type_index, ordinal)
    }

    /// Opens a cycle that begins with all rows of the previous state, where no cycle is open. Its only memory is a bit for each ordinal.
    ///
    /// Where memory is refused no cycle is open.
    pub fn keep_all(&mut self) -> Result<(), AllocError>
        requires none { self.old.current ≡ no_rows (length self.old.schemas) }
        requires open { self.old.closed ≡ false }
        ensures kept { OnOk result (self.new ≡ record self.old { current = self.old.previous }) }
        ensures refused { OnErr result (self.new ≡ self.old) }
    {
        keep_all(&mut self.maps)
    }

    /// Takes a row out of the cycle, which no row of the cycle names. It takes no memory.
    pub fn drop_row(&mut self, type_index: u32, ordinal: u32)
        requires leaves { MayLeave self.old.schemas self.old.current type_index ordinal }
        requires open { self.old.closed ≡ false }
        ensures { self.new ≡ record self.old { current = without_row self.old.current type_index ordinal } }
    {
        drop_unnamed(&self.model, &mut self.maps, type_index, ordinal);
    }

    /// Gives the producer a model that grows its own, where no cycle is open. Its previous rows are then those that are seen through that model: each
    /// type has the rows that it had, with null in the fields that are new, under the same ordinals, and a new type has none. The tag and the version
    /// stay, and so the next cycle is the first one that is of the new model.
    ///
    /// Types that stay keep their rows where they are; of a type that has more fields each row is copied once. After a refusal the producer is as it was.
    pub fn grow(&mut self, model: Model) -> Result<(), AllocError>
        requires grows { Grows self.old.schemas model }
        requires none { self.old.current ≡ no_rows (length self.old.schemas) }
        requires open { self.old.closed ≡ false }
        ensures grown { OnOk result (self.new ≡ grown_to model self.old) }
        ensures refused { OnErr result (self.new ≡ self.old) }
    {
        grow_maps(self.alloc, &self.model, &mut self.maps, &model)?;
        self.model = model;
        Ok(())
    }

    /// Closes the cycle, tells which types it has changed, and finds the limit that it passes. After a refusal the cycle is open, with its rows.
    pub fn close(&mut self) -> Result<Closed, AllocError>
        requires open { self.old.closed ≡ false }
        ensures changed { IfOk result (λ closed. AreChanged self.old.previous self.old.current closed.changed) }
        ensures first { IfOk result (λ closed. IsTrue closed.first ↔ (self.old.version ≡ 0)) }
        ensures over { IfOk result (λ closed. TellsCycle self.old.schemas self.old.previous self.old.current self.old.version closed.changed self.new.over) }
        ensures measured { IfOk result (λ closed. IsToPublish self.old.version closed.changed → AreMeasured self.old.schemas self.old.previous self.old.current closed.measured) }
        ensures ok { OnOk result (self.new ≡ record self.old { closed = true; over = self.new.over }) }
        ensures err { OnErr result (self.new ≡ self.old) }
    {
        let maps = self.maps.as_slice();
        let changed = changed_types(self.alloc, maps, self.model.len())?;
        let measured = measure_cycle(self.alloc, &self.model, maps, self.version, &changed)?;
        Ok(self.close_with(changed, measured))
    }

    /// Closes the cycle by what was measured of each type, with no walk over rows, tells which types it has changed, and finds the limit that it passes. After
    /// a refusal the cycle is open, with its rows.
    pub fn close_by(&mut self, measured: List<Measured>) -> Result<Closed, AllocError>
        requires open { self.old.closed ≡ false }
        requires measured { AreMeasured self.old.schemas self.old.previous self.old.current measured }
        ensures changed { IfOk result (λ closed. AreChanged self.old.previous self.old.current closed.changed) }
        ensures first { IfOk result (λ closed. IsTrue closed.first ↔ (self.old.version ≡ 0)) }
        ensures over { IfOk result (λ closed. TellsCycle self.old.schemas self.old.previous self.old.current self.old.version closed.changed self.new.over) }
        ensures measured { IfOk result (λ closed. IsToPublish self.old.version closed.changed → AreMeasured self.old.schemas self.old.previous self.old.current closed.measured) }
        ensures ok { OnOk result (self.new ≡ record self.old { closed = true; over = self.new.over }) }
        ensures err { OnErr result (self.new ≡ self.old) }
    {
        let changed = changed_types(self.alloc, self.maps.as_slice(), self.model.len())?;
        Ok(self.close_with(changed, measured))
    }

    // Closes the cycle, which has changed these types, by what was measured of each.
    fn close_with(&mut self, changed: Ordinals, measured: List<Measured>) -> Closed
        requires changed { AreChanged self.old.previous self.old.current changed }
        requires measured { IsToPublish self.old.version changed → AreMeasured self.old.schemas self.old.previous self.old.current measured }
        ensures is { result ≡ record { changed = changed; first = result.first; measured = measured } }
        ensures first { IsTrue result.first ↔ (self.old.version ≡ 0) }
        ensures over { TellsCycle self.old.schemas self.old.previous self.old.current self.old.version changed self.new.over }
        ensures closed { self.new ≡ record self.old { closed = true; over = self.new.over } }
    {
        self.over = cycle_limit(&self.model, self.version, &changed, measured.as_slice());
        self.closed = true;
        Closed {
            changed,
            first: self.version == 0,
            measured,
        }
    }

    /// The limit that the closed cycle passes, none where it keeps all. It takes no memory.
    pub fn over_limit(&self) -> Option<Limit>
        requires { self.now.closed ≡ true }
        ensures { result ≡ self.now.over }
    {
        self.over
    }

    /// Drops the cycle: its rows leave, and it is open. It takes no memory.
    pub fn undo(&mut self)
        ensures { self.new ≡ without_rows self.old }
    {
        undo_all(&mut self.maps);
        self.closed = false;
        self.over = None;
    }

    /// Makes the closed cycle the previous state, with its tag and version. The next cycle has no rows. It takes no memory.
    pub fn advance(&mut self, tag: i64, version: u64)
        requires closed { self.old.closed ≡ true }
        ensures { self.new ≡ advanced_to tag version self.old }
    {
        advance_all(&mut self.maps);
        self.tag = tag;
        self.version = version;
        self.closed = false;
        self.over = None;
    }
}
