//! The rows by which the next state differs from the state of now.
ghost use Rattle.std.specs.Prelude.{◌≡◌, ◌+◌, ◌≤◌, ◌<◌, All, IfOk, OnOk, length, map};
ghost use Rattle.std.specs.List.{list_all};
ghost use Rattle.row_model.specs.Key.{key_of};
ghost use Rattle.row_model.specs.Table.{IsClosed, IsLive};
ghost use Rattle.key_index.specs.Slots.{Fits, added_row, is_small, keyed_row, next_of, with_added, without};

use crate::key_rows::KeyRows;
use crate::simple_key::{key_column, read_slot};
use crate::slot::Slot;
use column_rows::ColumnRows;
use hol_io::Steps;
use hol_varint::{Duplicate, List, Ordinals};
use row_model::Rows;
use schema_model::Paths;
use std::alloc::{AllocError, Global};
use std::sync::ledger::Ledger;

/// A row that comes, under its ordinal.
#[derive(Drop)]
pub(crate) struct AddedRow {
    pub(crate) ordinal: u32,
    /// What stands for it in the index: its key, or that it has none.
    pub(crate) slot: Slot,
}

/// Rows that come, in their order.
pub(crate) type AddedRows = List<AddedRow>;

/// The rows that leave, and those that come with their keys.
#[derive(Drop)]
pub(crate) struct Reserved {
    pub(crate) removed: Ordinals,
    pub(crate) added: AddedRows,
}

// The rows under ordinals with their keys. It counts a step for each.
fn read_added<R: ColumnRows, L: Ledger>(
    alloc: Global,
    next: &R,
    paths: &Paths,
    type_index: u32,
    added: &[u32],
    steps: &mut Steps<L>,
) -> Result<AddedRows, AllocError>
    requires type_there { type_index < length (R.schemas next.now) }
    requires closed { IsClosed (R.schemas next.now) (R.table next.now) }
    requires live { All (λ ordinal. IsLive (R.table next.now) type_index ordinal) added.now }
    ensures rows { IfOk result (λ rows. map added_row rows ≡ map (keyed_row (key_of (R.schemas next.now) (R.table next.now) type_index paths.now)) added.now) }
    ensures counted { OnOk result (steps.new ≡ steps.old + length added.now) }
    ensures bounded { (steps.old ≤ steps.new) × (steps.new ≤ steps.old + length added.now) }
{
    let mut rows = AddedRows::with_capacity(alloc, added.len())?;
    let column = key_column(next, paths, type_index);
    for ordinal in added {
        let slot = read_slot(alloc, next, &column, paths, type_index, *ordinal, steps)?;
        rows.push(AddedRow {
            ordinal: *ordinal,
            slot,
        })?;
    }
    Ok(rows)
}

// Whether small slots have room for the keys of rows.
fn are_small(rows: &[AddedRow]) -> bool
    ensures { result ≡ list_all (λ row. is_small row.slot) rows.now }
{
    rows.iter().all(|row| row.slot.is_small())
}

// Takes the rows under these ordinals out of the index.
fn remove_all(rows: &mut KeyRows, removed: &[u32])
    ensures { rows.new ≡ record rows.old { keys = without rows.old.keys removed.now } }
{
    for ordinal in removed {
        rows.remove(*ordinal);
    }
}

// Puts the rows that come into the index, which has room for them. It takes no memory.
fn put_all(rows: &mut KeyRows, added: AddedRows)
    requires { All (Fits rows.old) added }
    ensures { rows.new ≡ record rows.old { keys = with_added rows.old.keys added } }
{
    for row in added.into_vec() {
        rows.place(row.ordinal, row.slot);
    }
}

impl Reserved {
    /// The rows that leave, and those that come with their keys. It counts a step for each row that comes, and on a refusal no more.
    pub(crate) fn read<R: ColumnRows, L: Ledger>(
        alloc: Global,
        next: &R,
        paths: &Paths,
        type_index: u32,
        removed: &Ordinals,
        added: &Ordinals,
        steps: &mut Steps<L>,
    ) -> Result<Reserved, AllocError>
        requires type_there { type_index < length (R.schemas next.now) }
        requires closed { IsClosed (R.schemas next.now) (R.table next.now) }
        requires live { All (λ ordinal. IsLive (R.table next.now) type_index ordinal) added.now }
        ensures removed { IfOk result (λ reserved. reserved.removed ≡ removed.now) }
        ensures added { IfOk result (λ reserved. map added_row reserved.added ≡ map (keyed_row (key_of (R.schemas next.now) (R.table next.now) type_index paths.now)) added.now) }
        ensures counted { OnOk result (steps.new ≡ steps.old + length added.now) }
        ensures bounded { (steps.old ≤ steps.new) × (steps.new ≤ steps.old + length added.now) }
    {
        let removed = removed.copy(alloc)?;
        let added = read_added(alloc, next, paths, type_index, added.as_slice(), steps)?;
        Ok(Reserved { removed, added })
    }

    /// Whether small slots have room for the keys of the rows that come.
    pub(crate) fn is_small(&self) -> bool
        ensures { result ≡ list_all (λ row. is_small row.slot) self.now.added }
    {
        are_small(self.added.as_slice())
    }

    /// Makes the rows those of the next state. It takes no memory.
    pub(crate) fn turn(self, rows: &mut KeyRows)
        requires { All (Fits rows.old) self.added }
        ensures { rows.new ≡ record rows.old { keys = next_of rows.old.keys self } }
    {
        remove_all(rows, self.removed.as_slice());
        put_all(rows, self.added);
    }
}
