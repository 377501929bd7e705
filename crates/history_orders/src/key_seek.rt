//! How the rows of a type are found that have a key.
ghost use Rattle.std.specs.Prelude.{◌<◌, Contains, IfOk, IfSome, IsSome, IsSomeAnd, length};
ghost use Rattle.row_model.specs.Key.{AreMatches};
ghost use Rattle.row_model.specs.Table.{IsClosed};
ghost use Rattle.hol_history.specs.History.{versions};
ghost use Rattle.history_orders.specs.Older.{HasCandidates, HasMatches, HasMatchesNow, SeeksIn};

use crate::key_columns::rows_with_first;
use crate::key_rows::{rows_among, rows_with_key};
use crate::left_rows::add_left_since;
use hol_history::History;
use hol_varint::Ordinals;
use read_engine::Consumer;
use row_model::{Rows, Values};
use schema_model::Paths;
use std::alloc::{AllocError, Global};

/// Where rows are sought that have a key.
#[derive(Drop)]
pub(crate) enum KeySeek<'a> {
    /// The rows are those where this consumer stands: by the index that is kept, or by a column.
    Now(&'a Consumer),
    /// The rows are those of this version, from which the history led to the rows of the consumer: among those that left since, and those that have the key
    /// now, where an index or a column tells them.
    Older(&'a Consumer, &'a History, u64),
}

/// The live ordinals of a type whose rows have a key along these paths, rising.
pub(crate) fn seek_rows<R: Rows>(
    alloc: Global,
    seek: &KeySeek<'_>,
    rows: &R,
    type_index: u32,
    paths: &Paths,
    key: &Values,
) -> Result<Ordinals, AllocError>
    requires seek { SeeksIn seek.now (R.schemas rows.now) (R.table rows.now) }
    requires type_there { type_index < length (R.schemas rows.now) }
    requires closed { IsClosed (R.schemas rows.now) (R.table rows.now) }
    ensures { IfOk result (AreMatches (R.schemas rows.now) (R.table rows.now) type_index paths.now key.now) }
{
    match seek {
        KeySeek::Now(consumer) => {
            let found = candidates_now(alloc, consumer, type_index, paths, key)?;
            rows_found(alloc, rows, type_index, paths, key, found)
        }
        KeySeek::Older(consumer, history, wanted) => {
            let found = candidates(alloc, consumer, history, *wanted, type_index, paths, key)?;
            rows_found(alloc, rows, type_index, paths, key, found)
        }
    }
}

// The live ordinals of a type whose rows have a key along these paths, rising. Where ordinals are found, these have all of them; else each
// row of the type is looked at.
fn rows_found<R: Rows>(
    alloc: Global,
    rows: &R,
    type_index: u32,
    paths: &Paths,
    key: &Values,
    found: Option<Vec<u32>>,
) -> Result<Ordinals, AllocError>
    requires type_there { type_index < length (R.schemas rows.now) }
    requires closed { IsClosed (R.schemas rows.now) (R.table rows.now) }
    requires whole { IfSome found (λ among. HasMatches (R.schemas rows.now) (R.table rows.now) type_index paths.now key.now among.items) }
    ensures { IfOk result (AreMatches (R.schemas rows.now) (R.table rows.now) type_index paths.now key.now) }
{
    match found {
        Some(among) => rows_among(alloc, rows, type_index, paths, key, among),
        None => rows_with_key(alloc, rows, type_index, paths, key),
    }
}

// The ordinals among which those are whose rows had a key in an older version: those of rows that left since and may have the key, and those among which the
// rows are that have the key now. None where nothing tells the latter.
fn candidates(
    alloc: Global,
    consumer: &Consumer,
    history: &History,
    wanted: u64,
    type_index: u32,
    paths: &Paths,
    key: &Values,
) -> Result<Option<Vec<u32>>, AllocError>
    requires reached { Contains (versions history.now.steps) wanted }
    requires state { IsSome consumer.now }
    ensures { IfOk result (λ found. IfSome found (λ among. IsSomeAnd consumer.now
        (HasCandidates history.now.steps wanted type_index paths.now key.now among.items))) }
{
    let Some(mut among) = candidates_now(alloc, consumer, type_index, paths, key)? else {
        return Ok(None);
    };
    add_left_since(history, wanted, type_index, paths, key, &mut among)?;
    Ok(Some(among))
}

// The ordinals among which those are whose rows have a key where the consumer stands: those that the index tells which is kept, and where there is none those
// that a column tells. None where it tells none.
fn candidates_now(
    alloc: Global,
    consumer: &Consumer,
    type_index: u32,
    paths: &Paths,
    key: &Values,
) -> Result<Option<Vec<u32>>, AllocError>
    requires { IsSome consumer.now }
    ensures { IfOk result (λ found. IfSome found (λ among. IsSomeAnd consumer.now (HasMatchesNow type_index paths.now key.now among.items))) }
{
    let Some(number) = consumer.index_of(type_index, paths) else {
        return rows_with_first(alloc, &consumer.now(), type_index, paths, key);
    };
    let mut among = Vec::new(alloc);
    among.extend_from_slice(consumer.find(number, key)?.as_slice())?;
    Ok(Some(among))
}
