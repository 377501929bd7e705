//! Whether the lists, sets or maps of a type name live rows alone.
ghost use Rattle.std.specs.Prelude.{ℕ, ◌≡◌, ◌<◌, IsTrue, All};
ghost use Rattle.row_model.specs.Table.{IsLive};
ghost use Rattle.bucket_codec.specs.Run.{taken_of, IsPairInRange};
ghost use Rattle.bucket_codec.specs.Buckets.{run_of};
ghost use Rattle.list_codec.specs.Elements.{elements_of};
ghost use Rattle.column_rows.specs.Closed.{IsBucketLive, IsPairLive, ListNamesLive, RunNamesLive};
ghost use Rattle.column_rows.specs.Items.{AreListsOf, AreRunsOf};
ghost use Rattle.column_rows.specs.Looked.{IsLooked};

use crate::looked::Looked;
use crate::{ColumnRows, PackedItems};
use bucket_codec::Buckets;
use list_codec::Elements;
use row_model::Rows;

/// Whether a number is a live ordinal of a type.
#[inline(always)]
pub(crate) fn is_number_live<R: Rows>(rows: &R, target: u32, number: u64) -> bool
    ensures { IsTrue result → IsLive (R.table rows.now) target number }
{
    number <= u64::from(u32::MAX) && rows.is_live(target, number as u32)
}

/// Whether each element is a live ordinal of a type.
fn elements_live<R: Rows>(rows: &R, elements: &Elements<'_>, target: u32) -> bool
    ensures { IsTrue result → All (IsLive (R.table rows.now) target) (elements_of elements.now) }
{
    for index in 0..elements.len {
        if !is_number_live(rows, target, elements.element(index)) {
            return false;
        }
    }
    true
}

/// Whether the list under an ordinal, if there is one, names live rows of a type alone.
fn is_list_live<R: ColumnRows>(
    rows: &R,
    lists: &PackedItems<'_>,
    type_index: u32,
    target: u32,
    ordinal: u32,
) -> bool
    requires { AreListsOf (R.table rows.now) type_index lists.now }
    ensures { IsTrue result → ListNamesLive (R.table rows.now) type_index target ordinal }
{
    if !rows.is_live(type_index, ordinal) {
        return true;
    }
    let Some(elements) = lists.elements(ordinal) else {
        return false;
    };
    elements_live(rows, &elements, target)
}

/// Whether the lists that are looked at in a type name live rows of another type alone.
pub(crate) fn lists_live<R: ColumnRows>(
    rows: &R,
    lists: &PackedItems<'_>,
    type_index: u32,
    target: u32,
    looked: Looked<'_>,
) -> bool
    requires { AreListsOf (R.table rows.now) type_index lists.now }
    ensures { IsTrue result → (ordinal : ℕ) → IsLooked looked.entry ordinal → ListNamesLive (R.table rows.now) type_index target ordinal }
{
    let count = looked.count(rows.bound(type_index));
    for index in 0..count {
        let ordinal = looked.ordinal(index);
        if !is_list_live(rows, lists, type_index, target, ordinal) {
            return false;
        }
    }
    true
}

/// Whether the key of a pair is live in one type, and its value in the other one, if there is one.
#[inline(always)]
fn is_pair_live<R: Rows>(rows: &R, key: u32, value: Option<u32>, pair: (u32, u32)) -> bool
    ensures { IsTrue result → IsPairLive (R.table rows.now) key value pair }
{
    if !rows.is_live(key, pair.0) {
        return false;
    }
    match value {
        Some(target) => rows.is_live(target, pair.1),
        None => true,
    }
}

/// Whether the pair of a bucket, if it is taken, is live.
#[inline(always)]
fn is_bucket_live<R: Rows>(
    rows: &R,
    buckets: &Buckets<'_>,
    key: u32,
    value: Option<u32>,
    index: u64,
) -> bool
    requires inside { index < buckets.now.len }
    requires ranges { All IsPairInRange (taken_of (run_of buckets.now)) }
    ensures { IsTrue result → IsBucketLive (R.table rows.now) key value (run_of buckets.now) index }
{
    match buckets.bucket(index) {
        Some(pair) => is_pair_live(rows, key, value, pair),
        None => true,
    }
}

/// Whether the pairs of buckets are live.
fn buckets_live<R: Rows>(rows: &R, buckets: &Buckets<'_>, key: u32, value: Option<u32>) -> bool
    requires { All IsPairInRange (taken_of (run_of buckets.now)) }
    ensures { IsTrue result → All (IsPairLive (R.table rows.now) key value) (taken_of (run_of buckets.now)) }
{
    for index in 0..buckets.len {
        if !is_bucket_live(rows, buckets, key, value, index) {
            return false;
        }
    }
    true
}

/// Whether the set or map under an ordinal, if there is one, names live rows of these types alone.
fn is_run_live<R: ColumnRows>(
    rows: &R,
    runs: &PackedItems<'_>,
    type_index: u32,
    key: u32,
    value: Option<u32>,
    ordinal: u32,
) -> bool
    requires { AreRunsOf (R.table rows.now) type_index runs.now }
    ensures { IsTrue result → RunNamesLive (R.table rows.now) type_index key value ordinal }
{
    if !rows.is_live(type_index, ordinal) {
        return true;
    }
    let Some(buckets) = runs.buckets(ordinal) else {
        return false;
    };
    buckets_live(rows, &buckets, key, value)
}

/// Whether the sets or maps that are looked at in a type name live rows of these types alone: by their keys of the first one, and by their values of the other one, if
/// there is one.
pub(crate) fn runs_live<R: ColumnRows>(
    rows: &R,
    runs: &PackedItems<'_>,
    type_index: u32,
    key: u32,
    value: Option<u32>,
    looked: Looked<'_>,
) -> bool
    requires { AreRunsOf (R.table rows.now) type_index runs.now }
    ensures { IsTrue result → (ordinal : ℕ) → IsLooked looked.entry ordinal → RunNamesLive (R.table rows.now) type_index key value ordinal }
{
    let count = looked.count(rows.bound(type_index));
    for index in 0..count {
        let ordinal = looked.ordinal(index);
        if !is_run_live(rows, runs, type_index, key, value, ordinal) {
            return false;
        }
    }
    true
}
