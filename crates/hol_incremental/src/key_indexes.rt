//! The indexes of rows by the primary keys of their types.
ghost use Rattle.std.specs.Prelude.{◌≡◌, ◌+◌, ◌<◌, ◌≤◌, All, IfOk, OnOk, Some, length, map};
ghost use Rattle.row_model.specs.Table.{IsClosed, Table};
ghost use Rattle.key_index.specs.Indexed.{HaveOneRow};
ghost use Rattle.hol_incremental.specs.Beside.{IsFromEither};
ghost use Rattle.hol_incremental.specs.Counts.{keyed_size_of};
ghost use Rattle.hol_incremental.specs.EditKeys.{AreIndexes, TellsIndex};
ghost use Rattle.hol_incremental.specs.Keeping.{AreLacking, AreReadyKeys, CountsComing, CountsKeyed, IsReadyIndex, IsReserved, moved, settled};

use crate::key_paths::key_paths;
use crate::plain_rows::PlainRows;
use hol_io::Steps;
use hol_varint::Ordinals;
use key_index::KeyIndex;
use row_model::Rows;
use row_packing::OrdinalRows;
use std::alloc::{AllocError, Global};
use std::sync::ledger::Ledger;

/// For each type the index of its rows by its primary key, if it has one. It counts a step for each row of a type that has one.
pub(crate) fn build_all<R: Rows, L: Ledger>(
    alloc: Global,
    rows: &R,
    steps: &mut Steps<L>,
) -> Result<Vec<Option<KeyIndex>>, AllocError>
    requires { IsClosed (R.schemas rows.now) (R.table rows.now) }
    ensures keys { IfOk result (λ keys. AreIndexes (R.schemas rows.now) (R.table rows.now) keys.items) }
    ensures counted { OnOk result (steps.new ≡ steps.old + keyed_size_of (R.schemas rows.now) (R.table rows.now)) }
{
    let mut keys = Vec::new(alloc);
    for type_index in 0..rows.model().len() {
        let index = build_one(alloc, rows, type_index, steps)?;
        keys.push(index)?;
    }
    Ok(keys)
}

// The index of a type, if it has a primary key.
#[tactic(auto, using(crate::proofs::IndexRows::all_resolved, crate::proofs::IndexRows::built_tells, crate::proofs::IndexRows::built_counts, crate::proofs::IndexRows::none_counts))]
fn build_one<R: Rows, L: Ledger>(
    alloc: Global,
    rows: &R,
    type_index: u32,
    steps: &mut Steps<L>,
) -> Result<Option<KeyIndex>, AllocError>
    requires closed { IsClosed (R.schemas rows.now) (R.table rows.now) }
    requires known { type_index < length (R.schemas rows.now) }
    ensures index { IfOk result (TellsIndex (R.schemas rows.now) (R.table rows.now) type_index) }
    ensures counted { OnOk result (CountsKeyed (R.schemas rows.now) (R.table rows.now) type_index steps.old steps.new) }
{
    match key_paths(alloc, rows.model(), type_index)? {
        Some(paths) => {
            let plain = PlainRows::new(rows);
            Ok(Some(KeyIndex::build(alloc, &plain, type_index, paths, steps)?))
        }
        None => Ok(None),
    }
}

/// Makes each index ready for the rows of the next state. What the indexes answer stays as it is, also where memory is refused. It counts a step for each row
/// that comes in a type that has one.
pub(crate) fn reserve_all<A: OrdinalRows, B: OrdinalRows, L: Ledger>(
    alloc: Global,
    keys: &mut [Option<KeyIndex>],
    before: &A,
    next: &B,
    steps: &mut Steps<L>,
) -> Result<(), AllocError>
    requires model { B.schemas next.now ≡ A.schemas before.now }
    requires before { IsClosed (A.schemas before.now) (A.table before.now) }
    requires closed { IsClosed (B.schemas next.now) (B.table next.now) }
    requires agree { HaveOneRow (A.table before.now) (B.table next.now) }
    requires keys { AreIndexes (A.schemas before.now) (A.table before.now) keys.old }
    ensures ready { OnOk result (AreReadyKeys (A.schemas before.now) (B.table next.now) keys.new) }
    ensures kept { map settled keys.new ≡ map settled keys.old }
    ensures counted { OnOk result ((both : Table) → IsFromEither (A.table before.now) (B.table next.now) both
        → steps.new + keyed_size_of (A.schemas before.now) (A.table before.now) ≤ steps.old + keyed_size_of (A.schemas before.now) both) }
{
    for type_index in 0..next.model().len() {
        let place = type_index as usize;
        reserve_type(alloc, &mut keys[place], before, next, type_index, steps)?;
    }
    Ok(())
}

// Makes the index of a type, if it has one, ready for the rows of the next state. It counts a step for each row that comes.
#[tactic(auto, using(crate::proofs::IndexRows::none_comes))]
fn reserve_type<A: OrdinalRows, B: OrdinalRows, L: Ledger>(
    alloc: Global,
    index: &mut Option<KeyIndex>,
    before: &A,
    next: &B,
    type_index: u32,
    steps: &mut Steps<L>,
) -> Result<(), AllocError>
    requires model { B.schemas next.now ≡ A.schemas before.now }
    requires known { type_index < length (A.schemas before.now) }
    requires before { IsClosed (A.schemas before.now) (A.table before.now) }
    requires closed { IsClosed (B.schemas next.now) (B.table next.now) }
    requires agree { HaveOneRow (A.table before.now) (B.table next.now) }
    requires index { TellsIndex (A.schemas before.now) (A.table before.now) type_index index.old }
    ensures ready { OnOk result (IsReadyIndex (A.schemas before.now) (B.table next.now) index.new) }
    ensures kept { settled index.new ≡ settled index.old }
    ensures counted { OnOk result (CountsComing (A.schemas before.now) (A.table before.now) (B.table next.now) type_index steps.old steps.new) }
{
    match index {
        Some(index) => reserve_one(alloc, index, before, next, type_index, steps),
        None => Ok(()),
    }
}

// Makes an index, which is that of a type, ready for the rows of the next state. It counts a step for each row that comes.
#[tactic(auto, using(crate::proofs::IndexRows::some_come))]
fn reserve_one<A: OrdinalRows, B: OrdinalRows, L: Ledger>(
    alloc: Global,
    index: &mut KeyIndex,
    before: &A,
    next: &B,
    type_index: u32,
    steps: &mut Steps<L>,
) -> Result<(), AllocError>
    requires model { B.schemas next.now ≡ A.schemas before.now }
    requires known { type_index < length (A.schemas before.now) }
    requires before { IsClosed (A.schemas before.now) (A.table before.now) }
    requires closed { IsClosed (B.schemas next.now) (B.table next.now) }
    requires agree { HaveOneRow (A.table before.now) (B.table next.now) }
    requires index { TellsIndex (A.schemas before.now) (A.table before.now) type_index (Some index.old) }
    ensures ready { OnOk result (IsReadyIndex (A.schemas before.now) (B.table next.now) (Some index.new)) }
    ensures kept { settled (Some index.new) ≡ settled (Some index.old) }
    ensures counted { OnOk result (CountsComing (A.schemas before.now) (A.table before.now) (B.table next.now) type_index steps.old steps.new) }
{
    let removed = lacking(alloc, before, next, type_index)?;
    let added = lacking(alloc, next, before, type_index)?;
    index.reserve(&PlainRows::new(next), &removed, &added, steps)
}

// The ordinals under which a type has rows in one state and none in another, rising.
fn lacking<A: OrdinalRows, B: OrdinalRows>(
    alloc: Global,
    rows: &A,
    other: &B,
    type_index: u32,
) -> Result<Ordinals, AllocError>
    requires known { type_index < length (A.schemas rows.now) }
    requires model { B.schemas other.now ≡ A.schemas rows.now }
    ensures { IfOk result (AreLacking (A.table rows.now) (B.table other.now) type_index) }
{
    rows.ordinals(type_index)
        .without(alloc, other.ordinals(type_index))
}

/// Makes what each index is ready for the keys that it answers by. It takes no memory.
pub(crate) fn update_all(keys: &mut Vec<Option<KeyIndex>>)
    requires { All IsReserved keys.old.items }
    ensures { keys.new.items ≡ map moved keys.old.items }
{
    for index in keys.iter_mut() {
        update_one(index);
    }
}

// Makes what an index, if there is one, is ready for the keys that it answers by.
fn update_one(index: &mut Option<KeyIndex>)
    requires { IsReserved index.old }
    ensures { index.new ≡ moved index.old }
{
    if let Some(index) = index {
        index.update();
    }
}

/// Drops what the indexes are ready for. It takes no memory.
pub(crate) fn forget_all(keys: &mut Vec<Option<KeyIndex>>)
    ensures { keys.new.items ≡ map settled keys.old.items }
{
    for index in keys.iter_mut() {
        forget_one(index);
    }
}

// Drops what an index, if there is one, is ready for.
fn forget_one(index: &mut Option<KeyIndex>)
    ensures { index.new ≡ settled index.old }
{
    if let Some(index) = index {
        index.forget();
    }
}
