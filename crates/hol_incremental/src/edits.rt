//! What is kept beside a producer for changes.
ghost use Rattle.std.specs.Prelude.{◌≡◌, ◌+◌, ◌≤◌, List, [], Err, IfOk, IfSome, None, OnErr, OnOk, false, length, option_copied};
ghost use Rattle.hol_varint.specs.Yields.{Yields};
ghost use Rattle.row_model.specs.Table.{IsClosed, Table};
ghost use Rattle.schema_model.specs.declared.schema.Schema.{Schema};
ghost use Rattle.row_packing.specs.Measured.{AreMeasured};
ghost use Rattle.row_packing.specs.States.{AreWritable};
ghost use Rattle.kept_sections.specs.Sections.{AreSectionsFor};
ghost use Rattle.write_engine.specs.Cycle.{no_rows};
ghost use Rattle.hol_incremental.specs.Beside.{IsFromEither};
ghost use Rattle.hol_incremental.specs.Changes.{AreFitting, CountsChange, CountsMissing, HaveKeys, IsFreeChange, records};
ghost use Rattle.hol_incremental.specs.Counts.{keyed_size_of, size_of};
ghost use Rattle.hol_incremental.specs.EditKeys.{AreEditsOf, AreReady, IsComing, IsReadied};
ghost use Rattle.hol_incremental.specs.Edited.{IsNextEdited};
ghost use Rattle.hol_incremental.specs.NextTallies.{coming_of};
ghost use Rattle.hol_incremental.specs.Leaves.{AreLeaving, CountsUnfound, HasLowKeys};

use crate::counting::{count_all, count_beside};
use crate::drops::drop_all;
use crate::fault::ChangeFault;
use crate::key_indexes::{build_all, forget_all, reserve_all, update_all};
use crate::leaving::{add_removed, add_replaced, unnamed_of};
use crate::lists::{Keys, Records};
use crate::measuring::measured_all;
use crate::putting::put_all;
use crate::row_set::RowSet;
use crate::tally::Tally;
use hol_io::Steps;
use hol_varint::{Duplicate, List};
use kept_sections::{PackedSections, sections_of};
use kept_sums::Sums;
use key_index::KeyIndex;
use row_model::Rows;
use row_packing::{Measured, OrdinalRows};
use std::alloc::{AllocError, Global};
use std::marker::Model;
use std::sync::ledger::Ledger;
use write_engine::Producer;

/// What is kept beside a producer for changes of its state: how often each row is named, what the rows of each type take, these as they stand packed in its snapshot,
/// and the rows by their primary keys.
#[derive(Drop)]
pub struct Edits {
    alloc: Global,
    /// What is counted of the state.
    tally: Tally,
    /// The rows of the state as they stand packed in its snapshot, where a change has made it.
    sections: Option<PackedSections>,
    /// What is counted of the next state, where a change has made it.
    next: Option<NextTally>,
    /// The rows of the next state, once they are packed for its snapshot.
    next_sections: Option<PackedSections>,
    /// For each type the index of its rows by its primary key, if it has one.
    keys: Vec<Option<KeyIndex>>,
}

/// What is counted of the state that a change makes.
#[derive(Drop)]
pub(crate) struct NextTally {
    /// What is counted of its rows.
    tally: Tally,
    /// For each type the sums of the rows of both states.
    both: Vec<Sums>,
}

impl Model for Edits {
    ghost use Rattle.std.specs.Option.{option_map};
    ghost use Rattle.hol_incremental.specs.EditKeys.{Editing, editing_code};
    ghost use Rattle.hol_incremental.specs.NextTallies.{coming_of};

    ghost Value = { Editing };

    ghost coded = { editing_code };

    ghost view = { λ e. record { counts = e.tally.counts; sums = e.tally.sums.items; sections = e.sections; next = option_map coming_of e.next; next_sections = e.next_sections; keys = e.keys.items } };
}

impl Edits {
    /// What is kept for the rows of a state, which are closed. It counts a step for each row, and one more for each row of a type with a primary key.
    pub fn build<R: Rows, L: Ledger>(
        alloc: Global,
        rows: &R,
        steps: &mut Steps<L>,
    ) -> Result<Edits, AllocError>
        requires { IsClosed (R.schemas rows.now) (R.table rows.now) }
        ensures edits { IfOk result (AreEditsOf (R.schemas rows.now) (R.table rows.now)) }
        ensures counted { OnOk result (steps.new ≡ steps.old + size_of (R.schemas rows.now) (R.table rows.now) + keyed_size_of (R.schemas rows.now) (R.table rows.now)) }
    {
        let mut tally = Tally::new(alloc, rows.model())?;
        count_all(alloc, rows, &mut tally, steps)?;
        let keys = build_all(alloc, rows, steps)?;
        Ok(Edits {
            alloc,
            tally,
            sections: None,
            next: None,
            next_sections: None,
            keys,
        })
    }

    /// Makes the producer's cycle the state that the edited list makes next: of each type the records of its roots, without those whose primary key is a
    /// removed one or that of a record that is put, and then the records that are put. A row is a root that has a primary key or that no row names. Answers how
    /// many of the removed keys are those of no row.
    ///
    /// No cycle is open, and the records fit and have keys. `TooMany` comes exactly where a row of the next state would get the ordinal 2^22. It counts at most
    /// a step for each row that leaves or comes, and one more for each that comes in a type with a primary key.
    ///
    /// What is kept stays that of the previous state, also after a refusal: `accept` or `forget` follows.
    pub fn change<L: Ledger>(
        &mut self,
        producer: &mut Producer,
        puts: &Records,
        removes: &Keys,
        steps: &mut Steps<L>,
    ) -> Result<u64, ChangeFault>
        requires edits { AreEditsOf producer.old.schemas producer.old.previous self.old }
        requires none { producer.old.current ≡ no_rows (length producer.old.schemas) }
        requires open { producer.old.closed ≡ false }
        requires fits { AreFitting producer.old.schemas (records puts.now) }
        requires keyed { HaveKeys producer.old.schemas (records puts.now) }
        ensures next { OnOk result (IsNextEdited producer.old.schemas producer.old.previous (records puts.now) removes.now producer.new.current) }
        ensures ready { OnOk result (AreReady producer.old.schemas producer.old.previous producer.new.current self.new) }
        ensures missing { IfOk result (CountsMissing producer.old.schemas producer.old.previous removes.now) }
        ensures too_many { Yields IsFreeChange result (Err ChangeFault.TooMany) ((next : Table) → ¬ IsNextEdited producer.old.schemas producer.old.previous (records puts.now) removes.now next) }
        ensures kept { producer.new ≡ record producer.old { current = producer.new.current } }
        ensures refused { OnErr result (AreEditsOf producer.old.schemas producer.old.previous self.new) }
        ensures counted { OnOk result (CountsChange producer.old.schemas producer.old.previous producer.new.current steps.old steps.new) }
    {
        let _types = producer.model().len();
        let mut tally = self.tally.copy(self.alloc)?;
        let mut tops = RowSet::new(self.alloc);
        producer.keep_all()?;
        put_all(producer, puts.as_slice(), &mut tops)?;
        count_beside(
            self.alloc,
            &producer.current(),
            &producer.previous(),
            &mut tally,
            steps,
        )?;
        let both = Sums::copy_all(self.alloc, tally.sums.as_slice())?;
        let mut leaving = RowSet::new(self.alloc);
        let missing = self.find_leaving(puts, removes, &tops, &mut leaving)?;
        let mut pending = unnamed_of(self.alloc, leaving.as_slice(), &tally.counts)?;
        drop_all(
            self.alloc,
            producer,
            &mut tally,
            &leaving,
            &mut pending,
            steps,
        )?;
        self.make_ready(producer, NextTally { tally, both }, steps)?;
        Ok(missing)
    }

    // The rows that leave the edited list, and how many of the removed keys are those of no row.
    fn find_leaving(
        &self,
        puts: &Records,
        removes: &Keys,
        tops: &RowSet,
        leaving: &mut RowSet,
    ) -> Result<u64, AllocError>
        requires low { HasLowKeys self.now.keys }
        requires none { leaving.old ≡ [] }
        ensures leaving { OnOk result (AreLeaving self.now.keys (records puts.now) removes.now tops.now leaving.new) }
        ensures missing { IfOk result (CountsUnfound self.now.keys removes.now) }
    {
        let keys = self.keys.as_slice();
        add_replaced(self.alloc, keys, puts.as_slice(), tops, leaving)?;
        add_removed(self.alloc, keys, removes.as_slice(), tops, leaving)
    }

    // Makes the indexes ready for the rows of the cycle, and keeps what is counted of them.
    fn make_ready<L: Ledger>(
        &mut self,
        producer: &Producer,
        next: NextTally,
        steps: &mut Steps<L>,
    ) -> Result<(), AllocError>
        requires edits { AreEditsOf producer.now.schemas producer.now.previous self.old }
        requires counts { IsComing producer.now.schemas producer.now.previous producer.now.current (coming_of next) }
        ensures ready { OnOk result (AreReady producer.now.schemas producer.now.previous producer.now.current self.new) }
        ensures edits { AreEditsOf producer.now.schemas producer.now.previous self.new }
        ensures closed { IsClosed producer.now.schemas producer.now.current }
        ensures counted { OnOk result ((both : Table) → IsFromEither producer.now.previous producer.now.current both
            → steps.new + keyed_size_of producer.now.schemas producer.now.previous ≤ steps.old + keyed_size_of producer.now.schemas both) }
    {
        reserve_all(
            self.alloc,
            self.keys.as_mut_slice(),
            &producer.previous(),
            &producer.current(),
            steps,
        )?;
        self.next = Some(next);
        self.next_sections = None;
        Ok(())
    }

    /// What is measured of each type over the rows of the previous state and of the one that a change has made, once it has. No row is looked at.
    pub fn measured<A: Rows, B: Rows>(
        &self,
        previous: &A,
        next: &B,
    ) -> Result<List<Measured>, AllocError>
        requires model { A.schemas previous.now ≡ B.schemas next.now }
        requires ready { AreReady (B.schemas next.now) (A.table previous.now) (B.table next.now) self.now }
        ensures { IfOk result (AreMeasured (B.schemas next.now) (A.table previous.now) (B.table next.now)) }
    {
        let Some(coming) = &self.next else {
            unreachable!();
        };
        measured_all(
            self.alloc,
            previous,
            next,
            self.tally.sums.as_slice(),
            coming.tally.sums.as_slice(),
            coming.both.as_slice(),
        )
    }

    /// Packs the rows of the state that a change has made for its snapshot, by what was measured of each type. Of a type whose rows stand packed for the previous
    /// state only those that left or came are looked at, where they have no variable bytes and their widths stay.
    ///
    /// The two states keep the limits on ordinals, items and bytes.
    pub fn pack<A: OrdinalRows, B: OrdinalRows>(
        &mut self,
        previous: &A,
        next: &B,
        measured: &[Measured],
    ) -> Result<(), AllocError>
        requires model { A.schemas previous.now ≡ B.schemas next.now }
        requires states { AreWritable (B.schemas next.now) (A.table previous.now) (B.table next.now) }
        requires measured { AreMeasured (B.schemas next.now) (A.table previous.now) (B.table next.now) measured.now }
        requires ready { AreReady (B.schemas next.now) (A.table previous.now) (B.table next.now) self.old }
        ensures ready { AreReady (B.schemas next.now) (A.table previous.now) (B.table next.now) self.new }
    {
        let kept = self.sections.as_ref();
        let sections = sections_of(self.alloc, kept, previous, next, measured)?;
        self.next_sections = Some(sections);
        Ok(())
    }

    /// The rows of the state that a change has made as they are packed for its snapshot, where they are.
    pub fn packed(&self) -> Option<&PackedSections>
        ensures { (schemas : List Schema) (previous next : Table) → AreReady schemas previous next self.now → IfSome (option_copied result) (AreSectionsFor schemas previous next) }
    {
        self.next_sections.as_ref()
    }

    /// What is kept becomes that of the state that a change has made, once the producer has advanced to it. It takes no memory.
    pub fn accept(&mut self)
        requires { IsReadied self.old }
        ensures { (schemas : List Schema) (previous next : Table) → AreReady schemas previous next self.old → AreEditsOf schemas next self.new }
    {
        kept_sections::laws::kept_for_next();
        if let Some(next) = self.next.take() {
            self.tally = next.tally;
        }
        self.sections = self.next_sections.take();
        update_all(&mut self.keys);
    }

    /// What is kept stays that of the previous state, as the change is dropped. It takes no memory.
    pub fn forget(&mut self)
        ensures dropped { self.new.next ≡ None }
        ensures kept { (schemas : List Schema) (table : Table) → AreEditsOf schemas table self.old → AreEditsOf schemas table self.new }
    {
        self.next = None;
        self.next_sections = None;
        forget_all(&mut self.keys);
    }
}
