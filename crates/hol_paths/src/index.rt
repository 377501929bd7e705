//! An index of the rows of a type by the values that they reach, kept over the steps of a consumer.
ghost use Rattle.std.specs.Prelude.{◌≡◌, ◌+◌, ◌≤◌, ◌↔◌, Err, IfOk, IsSome, IsSomeAnd, IsTrue, None, OnOk, OnErr, Some, length};
ghost use Rattle.hol_varint.specs.Yields.{Yields};
ghost use Rattle.row_model.specs.Reach.{AreEntries};
ghost use Rattle.row_model.specs.Table.{IsClosed};
ghost use Rattle.key_index.specs.Indexed.{CountsLive};
ghost use Rattle.hol_paths.specs.declared.fault.WalkFault.{WalkFault as Fault};
ghost use Rattle.hol_paths.specs.Walked.{AreLiveOf, AreWith, CountsOwners, FollowsWalk, HasManyEntries, IsFree, IsWalkIndexOf};

use crate::entries::Entries;
use crate::fault::WalkFault;
use crate::reserved::{Reserved, read_next};
use column_rows::ColumnRows;
use hol_io::Steps;
use hol_varint::Ordinals;
use row_model::{Rows, Value};
use schema_model::WalkPath;
use std::alloc::{AllocError, Global};
use std::marker::Model;
use std::sync::ledger::Ledger;

/// The live rows of a type by the values that they reach along a path, of which a row may reach many.
#[derive(Drop)]
pub struct WalkIndex {
    alloc: Global,
    path: WalkPath,
    /// The entries now.
    entries: Entries,
    /// How many rows have an entry now.
    keyed: u64,
    /// The entries by which the next state differs, where it is reserved.
    next: Option<Reserved>,
}

impl Model for WalkIndex {
    ghost use Rattle.std.specs.Prelude.{option_map};
    ghost use Rattle.hol_paths.specs.Slots.{IsWalkKept, entries_of, next_of};
    ghost use Rattle.hol_paths.specs.Walked.{Walked, walked_code};

    ghost Value = { Walked };

    ghost coded = { walked_code };

    ghost view = { λ a. record { path = a.path; entries = entries_of a.entries.values a.entries.slots; next = option_map (next_of a.entries) a.next } };

    ghost invariant = { λ a. IsWalkKept a.entries a.keyed a.next };
}

/// The live ordinals of a type, rising.
fn live_ordinals<R: Rows>(alloc: Global, rows: &R, type_index: u32) -> Result<Ordinals, AllocError>
    ensures { IfOk result (AreLiveOf (R.table rows.now) type_index) }
{
    let bound = rows.bound(type_index);
    let mut live = Ordinals::new(alloc);
    for ordinal in 0..bound {
        if rows.is_live(type_index, ordinal) {
            live.push(ordinal)?;
        }
    }
    Ok(live)
}

impl WalkIndex {
    /// An index of the live rows of a path's type by the values that they reach along it. It counts a step for each live row.
    ///
    /// The rows are closed. `Entries` where there would be more than 2^22 entries, pairs of a row and a value that it reaches.
    pub fn build<R: ColumnRows, L: Ledger>(
        alloc: Global,
        rows: &R,
        path: WalkPath,
        steps: &mut Steps<L>,
    ) -> Result<WalkIndex, WalkFault>
        requires { IsClosed (R.schemas rows.now) (R.table rows.now) }
        ensures index { IfOk result (IsWalkIndexOf (R.schemas rows.now) (R.table rows.now) path) }
        ensures unreserved { IfOk result (λ index. index.next ≡ None) }
        ensures many { Yields IsFree result (Err Fault.Entries) (HasManyEntries (R.schemas rows.now) (R.table rows.now) path.type_index path.parts) }
        ensures counted { OnOk result (CountsLive (R.table rows.now) path.type_index steps.old steps.new) }
    {
        let live = live_ordinals(alloc, rows, path.type_index)?;
        let entries = Entries::new(alloc);
        let none = Ordinals::new(alloc);
        let mut index = WalkIndex {
            alloc,
            path,
            entries,
            keyed: 0,
            next: None,
        };
        index.reserve(rows, &none, &live, steps)?;
        index.update();
        Ok(index)
    }

    /// Makes ready for the rows of the next state: reads what those that are added reach, and makes the room for it. What the index answers stays as it is,
    /// also on a refusal; what was reserved before is forgotten. It counts a step for each row that is added, and on a refusal no more.
    ///
    /// The rows are closed. `Entries` where there would be more than 2^22 entries, pairs of a row and a value that it reaches.
    pub fn reserve<R: ColumnRows, L: Ledger>(
        &mut self,
        next: &R,
        removed: &Ordinals,
        added: &Ordinals,
        steps: &mut Steps<L>,
    ) -> Result<(), WalkFault>
        requires closed { IsClosed (R.schemas next.now) (R.table next.now) }
        requires follows { FollowsWalk self.old.entries (R.schemas next.now) (R.table next.now) self.old.path.type_index self.old.path.parts removed.now added.now }
        ensures reserved { OnOk result (IsSomeAnd self.new.next (AreEntries (R.schemas next.now) (R.table next.now) self.old.path.type_index self.old.path.parts)) }
        ensures kept { record self.new { next = None } ≡ record self.old { next = None } }
        ensures many { Yields IsFree result (Err Fault.Entries) (HasManyEntries (R.schemas next.now) (R.table next.now) self.old.path.type_index self.old.path.parts) }
        ensures counted { OnOk result (steps.new ≡ steps.old + length added.now) }
        ensures bounded { (steps.old ≤ steps.new) × (steps.new ≤ steps.old + length added.now) }
        ensures refused { OnErr result (self.new.next ≡ None) }
    {
        self.next = None;
        let reserved = read_next(
            self.alloc,
            next,
            &self.path,
            removed,
            added,
            &mut self.entries,
            self.keyed,
            steps,
        )?;
        self.next = Some(reserved);
        Ok(())
    }

    /// Makes what was reserved the entries that it answers by. It takes no memory.
    pub fn update(&mut self)
        requires { IsSome self.old.next }
        ensures updated { self.old.next ≡ Some self.new.entries }
        ensures kept { self.new.path ≡ self.old.path }
        ensures unreserved { self.new.next ≡ None }
    {
        let Some(reserved) = self.next.take() else {
            unreachable!()
        };
        self.keyed = reserved.keyed;
        reserved.turn(&mut self.entries);
    }

    /// Drops what was reserved. It takes no memory.
    pub fn forget(&mut self)
        ensures { self.new ≡ record self.old { next = None } }
    {
        self.next = None;
    }

    /// The ordinals of the rows that reach a value, rising. It costs its answer, and no walk over the rows.
    pub fn matches(&self, alloc: Global, value: &Value) -> Result<Ordinals, AllocError>
        ensures { IfOk result (AreWith self.now.entries value.now) }
    {
        self.entries.owners_with(alloc, value)
    }

    /// How many rows have an entry: how many reach a value.
    pub fn keyed(&self) -> u64
        ensures { CountsOwners self.now.entries result }
    {
        self.keyed
    }

    /// Whether the next state is reserved.
    pub fn is_reserved(&self) -> bool
        ensures { IsTrue result ↔ IsSome self.now.next }
    {
        self.next.is_some()
    }

    /// The path along which values are reached.
    pub fn path(&self) -> &WalkPath
        ensures { result.now ≡ self.now.path }
    {
        &self.path
    }
}
