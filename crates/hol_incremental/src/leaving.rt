//! The rows of the previous state that leave the edited list.
ghost use Rattle.std.specs.Prelude.{◌≡◌, ◌<◌, ◌-◌, ◌^◌, ◌↔◌, ℕ, List, All, Contains, IfOk, IsTrue, OnOk, filter, nat_eq, option_and_then, option_copied, slice_get};
ghost use Rattle.record_trees.specs.Tree.{plain};
ghost use Rattle.row_model.specs.PlainTree.{PlainTree};
ghost use Rattle.row_model.specs.declared.row.Value.{Value as RowValue};
ghost use Rattle.hol_incremental.specs.Changes.{records};
ghost use Rattle.hol_incremental.specs.EditKeys.{count_at};
ghost use Rattle.hol_incremental.specs.Leaves.{CountsUnfound, HasLowKeys, HasUnder, IsOfRecord, IsUnder, LeaveMore};

use crate::counts::Counts;
use crate::row_set::RowSet;
use crate::tree_key::tree_key;
use key_index::KeyIndex;
use record_trees::Tree;
use row_model::Values;
use std::alloc::{AllocError, Global};

/// The indexed rows leave that have the key of a record that is put, but for those that are top rows of such records.
pub(crate) fn add_replaced(
    alloc: Global,
    keys: &[Option<KeyIndex>],
    puts: &[(u32, Tree)],
    tops: &RowSet,
    leaving: &mut RowSet,
) -> Result<(), AllocError>
    requires { HasLowKeys keys.now }
    ensures { OnOk result (LeaveMore (λ row. (tree : PlainTree) × Contains (records puts.now) (row.0, tree) × IsOfRecord keys.now row.0 tree row.1) tops.now leaving.old leaving.new) }
{
    for entry in puts {
        add_of_record(alloc, keys, entry.0, &entry.1, tops, leaving)?;
    }
    Ok(())
}

/// The indexed rows leave that have one of these keys, but for those that are top rows of records that are put. Answers how many of the keys are those of no
/// row.
pub(crate) fn add_removed(
    alloc: Global,
    keys: &[Option<KeyIndex>],
    removes: &[(u32, Values)],
    tops: &RowSet,
    leaving: &mut RowSet,
) -> Result<u64, AllocError>
    requires { HasLowKeys keys.now }
    ensures leaving { OnOk result (LeaveMore (λ row. (key : List RowValue) × Contains removes.now (row.0, key) × IsUnder keys.now row.0 key row.1) tops.now leaving.old leaving.new) }
    ensures missing { IfOk result (CountsUnfound keys.now removes.now) }
{
    let mut missing = 0u64;
    for entry in removes {
        if !add_of_key(alloc, keys, entry.0, &entry.1, tops, leaving)? {
            missing += 1;
        }
    }
    Ok(missing)
}

// The indexed rows leave that have the key of a record of a type.
fn add_of_record(
    alloc: Global,
    keys: &[Option<KeyIndex>],
    type_index: u32,
    tree: &Tree,
    tops: &RowSet,
    leaving: &mut RowSet,
) -> Result<(), AllocError>
    requires { HasLowKeys keys.now }
    ensures { OnOk result (LeaveMore (λ row. (row.0 ≡ type_index) × IsOfRecord keys.now type_index (plain tree.now) row.1) tops.now leaving.old leaving.new) }
{
    let Some(index) = index_at(keys, type_index) else {
        return Ok(());
    };
    if let Some(key) = tree_key(alloc, tree, index.paths())? {
        add_of_key(alloc, keys, type_index, &key, tops, leaving)?;
    }
    Ok(())
}

// The indexed rows of a type leave that have a key. Answers whether there are any.
fn add_of_key(
    alloc: Global,
    keys: &[Option<KeyIndex>],
    type_index: u32,
    key: &Values,
    tops: &RowSet,
    leaving: &mut RowSet,
) -> Result<bool, AllocError>
    requires { HasLowKeys keys.now }
    ensures leaving { OnOk result (LeaveMore (λ row. (row.0 ≡ type_index) × IsUnder keys.now type_index key.now row.1) tops.now leaving.old leaving.new) }
    ensures found { IfOk result (λ found. IsTrue found ↔ HasUnder keys.now (type_index, key.now)) }
{
    let Some(index) = index_at(keys, type_index) else {
        return Ok(false);
    };
    let ordinals = index.matches(alloc, key)?;
    add_all(type_index, ordinals.as_slice(), tops, leaving)?;
    Ok(!ordinals.is_empty())
}

// The index of a type, if it has one.
fn index_at(keys: &[Option<KeyIndex>], type_index: u32) -> Option<&KeyIndex>
    ensures { option_copied result ≡ option_and_then (λ index. index) (slice_get keys.now type_index) }
{
    keys.get(type_index as usize)?.as_ref()
}

// The rows of a type under these ordinals leave, but for those that are among the top rows.
fn add_all(
    type_index: u32,
    ordinals: &[u32],
    tops: &RowSet,
    leaving: &mut RowSet,
) -> Result<(), AllocError>
    requires { All (λ ordinal. ordinal < 2 ^ 32 - 1) ordinals.now }
    ensures { OnOk result (LeaveMore (λ row. (row.0 ≡ type_index) × Contains ordinals.now row.1) tops.now leaving.old leaving.new) }
{
    for ordinal in ordinals {
        let row = (type_index, *ordinal);
        if !tops.contains(row) && !leaving.contains(row) {
            leaving.insert(row)?;
        }
    }
    Ok(())
}

/// Those of some rows that no row names, by the counts.
pub(crate) fn unnamed_of(
    alloc: Global,
    rows: &[(u32, u32)],
    counts: &Counts,
) -> Result<Vec<(u32, u32)>, AllocError>
    ensures { IfOk result (λ unnamed. unnamed.items ≡ filter (λ row. nat_eq (count_at counts.now row.0 row.1) 0) rows.now) }
{
    let mut unnamed = Vec::new(alloc);
    for row in rows {
        if counts.at(*row) == 0 {
            unnamed.push(*row)?;
        }
    }
    Ok(unnamed)
}
