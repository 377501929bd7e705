//! An index of the rows of a type by their keys, kept over the steps of a consumer.
ghost use Rattle.std.specs.Prelude.{◌≡◌, ◌+◌, ◌≤◌, ◌<◌, All, IfOk, IsSome, IsSomeAnd, None, OnOk, OnErr, length};
ghost use Rattle.row_model.specs.Key.{IsResolved};
ghost use Rattle.row_model.specs.Table.{IsClosed};
ghost use Rattle.key_index.specs.Indexed.{AreKeysOf, AreUnder, CountsKeys, CountsLive, Follows, IsIndexBy};

use crate::key_rows::KeyRows;
use crate::key_slots::KeySlots;
use crate::reserved::Reserved;
use crate::simple_key::{key_column, read_slot};
use column_rows::ColumnRows;
use hol_io::Steps;
use hol_varint::Ordinals;
use row_model::{Rows, Values};
use schema_model::Paths;
use std::alloc::{AllocError, Global};
use std::marker::Model;
use std::sync::ledger::Ledger;

/// The keys of the live rows of a type, by which its rows are found.
#[derive(Drop)]
pub struct KeyIndex {
    alloc: Global,
    type_index: u32,
    paths: Paths,
    /// The rows now, by their keys.
    rows: KeyRows,
    /// The rows by which the next state differs, where it is reserved.
    next: Option<Reserved>,
}

impl Model for KeyIndex {
    ghost use Rattle.std.specs.Prelude.{All, IfSome, option_map};
    ghost use Rattle.key_index.specs.Indexed.{Indexed, indexed_code};
    ghost use Rattle.key_index.specs.Slots.{Fits, next_of};

    ghost Value = { Indexed };

    ghost coded = { indexed_code };

    ghost view = { λ a. record { type_index = a.type_index; paths = a.paths; keys = a.rows.keys; next = option_map (next_of a.rows.keys) a.next } };

    ghost invariant = { λ a. IfSome a.next (λ reserved. All (Fits a.rows) reserved.added) };
}

impl KeyIndex {
    /// An index of the live rows of a type by the values at the ends of paths. It counts a step for each live row.
    ///
    /// The rows are closed, and the paths are resolved paths of the type.
    pub fn build<R: ColumnRows, L: Ledger>(
        alloc: Global,
        rows: &R,
        type_index: u32,
        paths: Paths,
        steps: &mut Steps<L>,
    ) -> Result<KeyIndex, AllocError>
        requires type_there { type_index < length (R.schemas rows.now) }
        requires closed { IsClosed (R.schemas rows.now) (R.table rows.now) }
        requires resolved { All (IsResolved (R.schemas rows.now) type_index) paths }
        ensures index { IfOk result (IsIndexBy (R.schemas rows.now) (R.table rows.now) type_index paths) }
        ensures unreserved { IfOk result (λ index. index.next ≡ None) }
        ensures counted { OnOk result (CountsLive (R.table rows.now) type_index steps.old steps.new) }
    {
        let bound = rows.bound(type_index);
        let mut slots = KeySlots::new(alloc);
        slots.make_room(bound)?;
        let column = key_column(rows, &paths, type_index);
        for ordinal in 0..bound {
            if rows.is_live(type_index, ordinal) {
                let slot = read_slot(alloc, rows, &column, &paths, type_index, ordinal, steps)?;
                slots.put(alloc, ordinal, slot)?;
            }
        }
        let kept = KeyRows::of_slots(alloc, slots)?;
        Ok(KeyIndex {
            alloc,
            type_index,
            paths,
            rows: kept,
            next: None,
        })
    }

    /// Makes ready for the rows of the next state: reads the keys of those that are added, and makes the room for them. What the index answers stays as
    /// it is, also where memory is refused; what was reserved before is forgotten. It counts a step for each row that is added, and on a refusal no more.
    pub fn reserve<R: ColumnRows, L: Ledger>(
        &mut self,
        next: &R,
        removed: &Ordinals,
        added: &Ordinals,
        steps: &mut Steps<L>,
    ) -> Result<(), AllocError>
        requires type_there { self.old.type_index < length (R.schemas next.now) }
        requires closed { IsClosed (R.schemas next.now) (R.table next.now) }
        requires resolved { All (IsResolved (R.schemas next.now) self.old.type_index) self.old.paths }
        requires follows { Follows self.old.keys (R.schemas next.now) (R.table next.now) self.old.type_index self.old.paths removed.now added.now }
        ensures reserved { OnOk result (IsSomeAnd self.new.next (AreKeysOf (R.schemas next.now) (R.table next.now) self.old.type_index self.old.paths)) }
        ensures kept { record self.new { next = None } ≡ record self.old { next = None } }
        ensures counted { OnOk result (steps.new ≡ steps.old + length added.now) }
        ensures bounded { (steps.old ≤ steps.new) × (steps.new ≤ steps.old + length added.now) }
        ensures refused { OnErr result (self.new.next ≡ None) }
    {
        self.forget();
        self.rows.reserve(next.bound(self.type_index))?;
        let reserved = Reserved::read(
            self.alloc,
            next,
            &self.paths,
            self.type_index,
            removed,
            added,
            steps,
        )?;
        self.rows.fit(reserved.is_small())?;
        self.next = Some(reserved);
        Ok(())
    }

    /// Makes what was reserved the keys that it answers by. It takes no memory.
    pub fn update(&mut self)
        requires { IsSome self.old.next }
        ensures updated { self.old.next ≡ Some self.new.keys }
        ensures kept { (self.new.type_index ≡ self.old.type_index) × (self.new.paths ≡ self.old.paths) }
        ensures unreserved { self.new.next ≡ None }
    {
        if let Some(reserved) = self.next.take() {
            reserved.turn(&mut self.rows);
        }
    }

    /// Drops what was reserved. It takes no memory.
    pub fn forget(&mut self)
        ensures { self.new ≡ record self.old { next = None } }
    {
        self.next = None;
    }

    /// The indexed ordinals whose rows have a key, rising. It costs its answer, and no walk over the rows.
    pub fn matches(&self, alloc: Global, key: &Values) -> Result<Ordinals, AllocError>
        ensures { IfOk result (AreUnder self.now.keys key.now) }
    {
        self.rows.matches(alloc, key)
    }

    /// How many of the indexed rows have a key.
    pub fn keyed(&self) -> u64
        ensures { CountsKeys self.now.keys result }
    {
        self.rows.keyed()
    }

    /// The type of the indexed rows.
    pub fn type_index(&self) -> u32
        ensures { result ≡ self.now.type_index }
    {
        self.type_index
    }

    /// The paths of the keys.
    pub fn paths(&self) -> &Paths
        ensures { result.now ≡ self.now.paths }
    {
        &self.paths
    }
}
