//! The rows of a type that have a key, wherever they stand: a pass over all of them.
ghost use Rattle.std.specs.Prelude.{◌≡◌, ◌<◌, ◌↔◌, IfOk, IsTrue, Some, length};
ghost use Rattle.std.specs.List.Sorted.{IsStrictlyIncreasing};
ghost use Rattle.row_model.specs.Key.{AreMatches, key_of, unless_null, value_along};
ghost use Rattle.row_model.specs.Table.{IsClosed, IsLive};
ghost use Rattle.history_orders.specs.Older.{HasMatches};

use column_rows::value_in;
use hol_varint::Ordinals;
use key_index::type_behind;
use row_model::{Rows, Value, Values};
use schema_model::{Path, Paths};
use std::alloc::{AllocError, Global};

/// The live ordinals of a type whose rows have a key along these paths, rising. It looks at each row of the type.
pub(crate) fn rows_with_key<R: Rows>(
    alloc: Global,
    rows: &R,
    type_index: u32,
    paths: &Paths,
    key: &Values,
) -> Result<Ordinals, AllocError>
    requires type_there { type_index < length (R.schemas rows.now) }
    requires closed { IsClosed (R.schemas rows.now) (R.table rows.now) }
    ensures { IfOk result (AreMatches (R.schemas rows.now) (R.table rows.now) type_index paths.now key.now) }
{
    let mut ordinals = Ordinals::new(alloc);
    for ordinal in 0..rows.bound(type_index) {
        if is_match(alloc, rows, type_index, ordinal, paths, key)? {
            ordinals.push(ordinal)?;
        }
    }
    Ok(ordinals)
}

/// The live ordinals of a type whose rows have a key along these paths, rising, where all of them are among these ordinals. These stand in any order.
pub(crate) fn rows_among<R: Rows>(
    alloc: Global,
    rows: &R,
    type_index: u32,
    paths: &Paths,
    key: &Values,
    mut among: Vec<u32>,
) -> Result<Ordinals, AllocError>
    requires type_there { type_index < length (R.schemas rows.now) }
    requires closed { IsClosed (R.schemas rows.now) (R.table rows.now) }
    requires whole { HasMatches (R.schemas rows.now) (R.table rows.now) type_index paths.now key.now among.items }
    ensures { IfOk result (AreMatches (R.schemas rows.now) (R.table rows.now) type_index paths.now key.now) }
{
    among.sort_unstable();
    among.dedup();
    matches_among(alloc, rows, type_index, paths, key, among.as_slice())
}

// The live ordinals of a type whose rows have a key along these paths, rising, where all of them are among these ordinals, which rise.
fn matches_among<R: Rows>(
    alloc: Global,
    rows: &R,
    type_index: u32,
    paths: &Paths,
    key: &Values,
    among: &[u32],
) -> Result<Ordinals, AllocError>
    requires type_there { type_index < length (R.schemas rows.now) }
    requires closed { IsClosed (R.schemas rows.now) (R.table rows.now) }
    requires whole { HasMatches (R.schemas rows.now) (R.table rows.now) type_index paths.now key.now among.now }
    requires rising { IsStrictlyIncreasing among.now }
    ensures { IfOk result (AreMatches (R.schemas rows.now) (R.table rows.now) type_index paths.now key.now) }
{
    let mut ordinals = Ordinals::new(alloc);
    for ordinal in among {
        if is_match(alloc, rows, type_index, *ordinal, paths, key)? {
            ordinals.push(*ordinal)?;
        }
    }
    Ok(ordinals)
}

// Whether an ordinal of a type is live, and its row has the key.
fn is_match<R: Rows>(
    alloc: Global,
    rows: &R,
    type_index: u32,
    ordinal: u32,
    paths: &Paths,
    key: &Values,
) -> Result<bool, AllocError>
    requires type_there { type_index < length (R.schemas rows.now) }
    requires closed { IsClosed (R.schemas rows.now) (R.table rows.now) }
    ensures { IfOk result (λ is. IsTrue is ↔ (IsLive (R.table rows.now) type_index ordinal × (key_of (R.schemas rows.now) (R.table rows.now) type_index paths.now ordinal ≡ Some key.now))) }
{
    if !rows.is_live(type_index, ordinal) {
        return Ok(false);
    }
    has_key(
        alloc,
        rows,
        type_index,
        ordinal,
        paths.as_slice(),
        key.as_slice(),
    )
}

// Whether the row under a live ordinal has the key: a value at the end of each path, and no other ones.
fn has_key<R: Rows>(
    alloc: Global,
    rows: &R,
    type_index: u32,
    ordinal: u32,
    paths: &[Path],
    key: &[Value],
) -> Result<bool, AllocError>
    requires type_there { type_index < length (R.schemas rows.now) }
    requires closed { IsClosed (R.schemas rows.now) (R.table rows.now) }
    requires live { IsLive (R.table rows.now) type_index ordinal }
    ensures { IfOk result (λ has. IsTrue has ↔ (key_of (R.schemas rows.now) (R.table rows.now) type_index paths.now ordinal ≡ Some key.now)) }
{
    let [path, paths @ ..] = paths else {
        return Ok(key.is_empty());
    };
    let [value, values @ ..] = key else {
        return Ok(false);
    };
    let fields = path.fields.as_slice();
    if !has_value(alloc, rows, type_index, ordinal, fields, value)? {
        return Ok(false);
    }
    has_key(alloc, rows, type_index, ordinal, paths, values)
}

// Whether fields lead from the row under a live ordinal to this value, which no null is.
fn has_value<R: Rows>(
    alloc: Global,
    rows: &R,
    type_index: u32,
    ordinal: u32,
    fields: &[u32],
    value: &Value,
) -> Result<bool, AllocError>
    requires type_there { type_index < length (R.schemas rows.now) }
    requires closed { IsClosed (R.schemas rows.now) (R.table rows.now) }
    requires live { IsLive (R.table rows.now) type_index ordinal }
    ensures { IfOk result (λ has. IsTrue has ↔ (value_along (R.schemas rows.now) (R.table rows.now) type_index ordinal fields.now ≡ Some value.now)) }
{
    let [field, rest @ ..] = fields else {
        return Ok(false);
    };
    let lent = rows.lend(alloc, type_index, ordinal)?;
    let Some(found) = value_in(lent.row(), *field) else {
        return Ok(false);
    };
    if rest.is_empty() {
        return Ok(is_value(found, value));
    }
    let (Value::Ref(named), Some(next)) = (found, type_behind(rows.model(), type_index, *field))
    else {
        return Ok(false);
    };
    has_value(alloc, rows, next, *named, rest, value)
}

/// Whether a value is this one, which no null is.
#[inline(always)]
pub(crate) fn is_value(found: &Value, value: &Value) -> bool
    ensures { IsTrue result ↔ (unless_null (Some found.now) ≡ Some value.now) }
{
    match (found, value) {
        (Value::Int(number), Value::Int(another)) => number == another,
        (Value::Long(number), Value::Long(another)) => number == another,
        (Value::Bool(flag), Value::Bool(another)) => flag == another,
        (Value::Text(units), Value::Text(others)) => units == others,
        (Value::Bytes(bytes), Value::Bytes(others)) => bytes == others,
        (Value::Ref(ordinal), Value::Ref(another)) => ordinal == another,
        _ => false,
    }
}
