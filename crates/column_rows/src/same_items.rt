//! Whether the lists, sets or maps of a type are the same in two states.
ghost use Rattle.std.specs.Prelude.{ℕ, ◌≡◌, All, IsTrue};
ghost use Rattle.bucket_codec.specs.Run.{taken_of, IsPairInRange};
ghost use Rattle.bucket_codec.specs.Buckets.{run_of};
ghost use Rattle.list_codec.specs.Elements.{elements_of};
ghost use Rattle.column_rows.specs.Items.{AreListsOf, AreRunsOf};
ghost use Rattle.column_rows.specs.Same.{HaveSameElements, HaveSameLive, HaveSamePairs, IsSoOfBoth};

use crate::{ColumnRows, PackedItems};
use bucket_codec::{Buckets, laws};
use list_codec::Elements;

/// Whether these are as many elements, and the same one by one.
fn are_elements_same(elements: &Elements<'_>, others: &Elements<'_>) -> bool
    ensures { IsTrue result → elements_of elements.now ≡ elements_of others.now }
{
    if elements.len != others.len {
        return false;
    }
    for index in 0..elements.len {
        if elements.element(index) != others.element(index) {
            return false;
        }
    }
    true
}

/// Whether the lists under an ordinal, if there are such, are the same.
fn is_list_same<A: ColumnRows, B: ColumnRows>(
    rows: &A,
    others: &B,
    lists: &PackedItems<'_>,
    beside: &PackedItems<'_>,
    type_index: u32,
    ordinal: u32,
) -> bool
    requires live { HaveSameLive (A.table rows.now) (B.table others.now) type_index }
    requires lists_of { AreListsOf (A.table rows.now) type_index lists.now }
    requires beside_of { AreListsOf (B.table others.now) type_index beside.now }
    ensures { IsTrue result → IsSoOfBoth HaveSameElements (A.table rows.now) (B.table others.now) type_index ordinal }
{
    if !rows.is_live(type_index, ordinal) {
        return true;
    }
    let Some(elements) = lists.elements(ordinal) else {
        return false;
    };
    let Some(other_elements) = beside.elements(ordinal) else {
        return false;
    };
    are_elements_same(&elements, &other_elements)
}

/// Whether the lists of a type are the same in both states; false also where they do not stand packed.
pub(crate) fn are_lists_same<A: ColumnRows, B: ColumnRows>(
    rows: &A,
    others: &B,
    type_index: u32,
) -> bool
    requires { HaveSameLive (A.table rows.now) (B.table others.now) type_index }
    ensures { IsTrue result → (ordinal : ℕ) → IsSoOfBoth HaveSameElements (A.table rows.now) (B.table others.now) type_index ordinal }
{
    let Some(lists) = rows.lists(type_index) else {
        return false;
    };
    let Some(beside) = others.lists(type_index) else {
        return false;
    };
    for ordinal in 0..rows.bound(type_index) {
        if !is_list_same(rows, others, &lists, &beside, type_index, ordinal) {
            return false;
        }
    }
    true
}

/// Whether these are as many buckets, and the same one by one, the empty ones too.
fn are_buckets_same(buckets: &Buckets<'_>, others: &Buckets<'_>) -> bool
    requires ranges { All IsPairInRange (taken_of (run_of buckets.now)) }
    requires other_ranges { All IsPairInRange (taken_of (run_of others.now)) }
    ensures { IsTrue result → run_of buckets.now ≡ run_of others.now }
{
    if buckets.len != others.len {
        return false;
    }
    for index in 0..buckets.len {
        if buckets.bucket(index) != others.bucket(index) {
            return false;
        }
    }
    true
}

/// Whether the sets or maps under an ordinal, if there are such, have the same buckets.
fn is_run_same<A: ColumnRows, B: ColumnRows>(
    rows: &A,
    others: &B,
    runs: &PackedItems<'_>,
    beside: &PackedItems<'_>,
    type_index: u32,
    ordinal: u32,
) -> bool
    requires live { HaveSameLive (A.table rows.now) (B.table others.now) type_index }
    requires runs_of { AreRunsOf (A.table rows.now) type_index runs.now }
    requires beside_of { AreRunsOf (B.table others.now) type_index beside.now }
    ensures { IsTrue result → IsSoOfBoth HaveSamePairs (A.table rows.now) (B.table others.now) type_index ordinal }
{
    if !rows.is_live(type_index, ordinal) {
        return true;
    }
    let Some(buckets) = runs.buckets(ordinal) else {
        return false;
    };
    let Some(other_buckets) = beside.buckets(ordinal) else {
        return false;
    };
    laws::one_set();
    are_buckets_same(&buckets, &other_buckets)
}

/// Whether the sets or maps of a type have the same buckets in both states; false also where they do not stand packed.
pub(crate) fn are_runs_same<A: ColumnRows, B: ColumnRows>(
    rows: &A,
    others: &B,
    type_index: u32,
) -> bool
    requires { HaveSameLive (A.table rows.now) (B.table others.now) type_index }
    ensures { IsTrue result → (ordinal : ℕ) → IsSoOfBoth HaveSamePairs (A.table rows.now) (B.table others.now) type_index ordinal }
{
    let Some(runs) = rows.runs(type_index) else {
        return false;
    };
    let Some(beside) = others.runs(type_index) else {
        return false;
    };
    for ordinal in 0..rows.bound(type_index) {
        if !is_run_same(rows, others, &runs, &beside, type_index, ordinal) {
            return false;
        }
    }
    true
}
