//! The rows of a type among which those are that have a key, by the columns of its first path.
ghost use Rattle.std.specs.Prelude.{◌≡◌, ◌≤◌, Contains, IfOk, IfSome, IsTrue, OnOk, Some};
ghost use Rattle.row_model.specs.declared.row.Value.{Value as ValueOf};
ghost use Rattle.row_model.specs.Key.{type_behind as type_led_to, unless_null, value_in as field_of};
ghost use Rattle.row_model.specs.Table.{IsClosed, IsLive, row_at};
ghost use Rattle.object_codec.specs.Bytes.{bytes_of};
ghost use Rattle.object_codec.specs.Columns.{Shows};
ghost use Rattle.column_rows.specs.Columns.{IsColumnOf};
ghost use Rattle.history_orders.specs.Left.{HasAll};
ghost use Rattle.history_orders.specs.Older.{HasMatches};
ghost use Rattle.history_orders.specs.Scanned.{HasNumbered, HasWordsBelow};
ghost use Rattle.history_orders.specs.Valued.{AreBytesOf, HasLed, HasNaming, HasValued, HasValuedBelow};

use crate::number_scan::{near, next_with};
use bit_array::all_ones;
use column_rows::ColumnRows;
use hol_varint::put_units;
use key_index::type_behind;
use object_codec::{Column, PackedBytes, ValueRef, stored_number};
use row_model::{Rows, Value, Values};
use schema_model::{Model, Paths};
use std::alloc::{AllocError, Global};

/// The ordinals of a type among which those are whose rows have a key along these paths: those from whose rows the first path leads to the first value of the key.
/// None where records on this way do not stand packed, or more than one row of a type behind a reference leads to the value. It makes no row.
pub(crate) fn rows_with_first<R: ColumnRows>(
    alloc: Global,
    rows: &R,
    type_index: u32,
    paths: &Paths,
    key: &Values,
) -> Result<Option<Vec<u32>>, AllocError>
    requires closed { IsClosed (R.schemas rows.now) (R.table rows.now) }
    ensures { IfOk result (λ found. IfSome found (λ among. HasMatches (R.schemas rows.now) (R.table rows.now) type_index paths.now key.now among.items)) }
{
    let [path, ..] = paths.as_slice() else {
        return Ok(None);
    };
    let [value, ..] = key.as_slice() else {
        return Ok(None);
    };
    rows_led(alloc, rows, type_index, path.fields.as_slice(), value)
}

// The ordinals of a type among which those are from whose rows fields lead to a value.
fn rows_led<R: ColumnRows>(
    alloc: Global,
    rows: &R,
    type_index: u32,
    fields: &[u32],
    value: &Value,
) -> Result<Option<Vec<u32>>, AllocError>
    requires closed { IsClosed (R.schemas rows.now) (R.table rows.now) }
    ensures { IfOk result (λ found. IfSome found (λ among. HasLed (R.schemas rows.now) (R.table rows.now) type_index fields.now value.now among.items)) }
{
    let [field, rest @ ..] = fields else {
        return Ok(None);
    };
    let Some(column) = rows.column(type_index, *field) else {
        return Ok(None);
    };
    if rest.is_empty() {
        let among = rows_with_value(alloc, rows, &column, type_index, *field, value)?;
        return Ok(Some(among));
    }
    let Some(next) = type_led(rows.model(), type_index, *field) else {
        return Ok(None);
    };
    let Some(ends) = rows_led(alloc, rows, next, rest, value)? else {
        return Ok(None);
    };
    rows_naming(alloc, rows, &column, type_index, *field, ends.as_slice())
}

// The type to which a field of a type leads, if there is such a type.
fn type_led(model: &Model, type_index: u32, field: u32) -> Option<u32>
    ensures { IfSome result (λ next. type_led_to model.now type_index field ≡ Some next) }
{
    if type_index >= model.len() {
        return None;
    }
    type_behind(model, type_index, field)
}

// The ordinals of a type among which those are whose records name in the field of a column one of some rows. None where these are more than one.
fn rows_naming<R: ColumnRows>(
    alloc: Global,
    rows: &R,
    column: &Column<'_>,
    type_index: u32,
    field: u32,
    named: &[u32],
) -> Result<Option<Vec<u32>>, AllocError>
    requires { IsColumnOf (R.table rows.now) type_index field column.now }
    ensures { IfOk result (λ found. IfSome found (λ among. HasNaming (R.table rows.now) type_index field named.now among.items)) }
{
    match named {
        [] => Ok(Some(Vec::new(alloc))),
        [ordinal] => {
            let value = Value::Ref(*ordinal);
            let among = rows_with_value(alloc, rows, column, type_index, field, &value)?;
            Ok(Some(among))
        }
        _ => Ok(None),
    }
}

// The ordinals of a type among which those are whose records have a value in the field of a column: by its number, where it has one, as far as a pass over the
// packed words goes, and from there on by the value.
fn rows_with_value<R: ColumnRows>(
    alloc: Global,
    rows: &R,
    column: &Column<'_>,
    type_index: u32,
    field: u32,
    value: &Value,
) -> Result<Vec<u32>, AllocError>
    requires { IsColumnOf (R.table rows.now) type_index field column.now }
    ensures { IfOk result (λ among. HasValued (R.table rows.now) type_index field value.now among.items) }
{
    let spelled = bytes_of_value(alloc, value)?;
    let bytes = spelled.as_slice();
    let mut among = Vec::new(alloc);
    let passed = add_with_number(rows, column, type_index, field, value, &mut among)?;
    for ordinal in passed..rows.bound(type_index) {
        if may_have(rows, column, type_index, field, ordinal, value, bytes) {
            among.push(ordinal)?;
        }
    }
    Ok(among)
}

// Adds the ordinals below one that is answered whose records have a value in the field of a column, where the packed words tell it by a number.
#[tactic(auto, using(crate::proofs::Scanning::valued_none, crate::proofs::Scanning::numbered_valued, crate::proofs::Scanning::past_valued))]
fn add_with_number<R: ColumnRows>(
    rows: &R,
    column: &Column<'_>,
    type_index: u32,
    field: u32,
    value: &Value,
    among: &mut Vec<u32>,
) -> Result<u32, AllocError>
    requires { IsColumnOf (R.table rows.now) type_index field column.now }
    ensures { IfOk result (λ passed. HasValuedBelow (R.table rows.now) type_index field value.now passed among.new.items) }
{
    let Some(number) = stored_number(value) else {
        return Ok(0);
    };
    if column.width > 64 {
        return Ok(0);
    }
    let bound = rows.bound(type_index);
    if number >= all_ones(column.width) {
        return Ok(bound);
    }
    let passed = near(column, bound);
    add_numbered(rows, column, type_index, number, passed, among)?;
    Ok(passed)
}

// Adds the live ordinals below one whose elements in a column are a number.
#[tactic(auto, using(crate::proofs::Scanning::numbered_none, crate::proofs::Scanning::numbered_to, crate::proofs::Scanning::numbered_more))]
fn add_numbered<R: ColumnRows>(
    rows: &R,
    column: &Column<'_>,
    type_index: u32,
    number: u64,
    end: u32,
    among: &mut Vec<u32>,
) -> Result<(), AllocError>
    requires some { 1 ≤ column.now.width }
    requires narrow { column.now.width ≤ 64 }
    requires words { HasWordsBelow column.now end }
    ensures { OnOk result (HasNumbered (R.table rows.now) type_index column.now number end among.new.items) }
{
    let mut next = 0;
    while next < end {
        let found = next_with(column, number, next, end);
        if found == end {
            return Ok(());
        }
        add_live(rows, type_index, found, among)?;
        next = found + 1;
    }
    Ok(())
}

// Adds an ordinal, if it is live.
#[tactic(auto, using(crate::proofs::Scanning::pushed_keeps, crate::proofs::Scanning::pushed_has))]
fn add_live<R: Rows>(
    rows: &R,
    type_index: u32,
    ordinal: u32,
    among: &mut Vec<u32>,
) -> Result<(), AllocError>
    ensures added { OnOk result (IsLive (R.table rows.now) type_index ordinal → Contains among.new.items ordinal) }
    ensures kept { OnOk result (HasAll among.old.items among.new.items) }
{
    if rows.is_live(type_index, ordinal) {
        among.push(ordinal)?;
    }
    Ok(())
}

// The bytes of a value, if it is a text or bytes.
fn bytes_of_value(alloc: Global, value: &Value) -> Result<Vec<u8>, AllocError>
    ensures { IfOk result (λ bytes. AreBytesOf value.now bytes.items) }
{
    let mut bytes = Vec::new(alloc);
    match value {
        Value::Text(units) => put_units(&mut bytes, units)?,
        Value::Bytes(octets) => bytes.extend_from_slice(octets.as_slice())?,
        _ => {}
    }
    Ok(bytes)
}

// Whether the record under an ordinal, if there is one, may have a value in the field of a column: false only where it has another one.
#[inline(always)]
fn may_have<R: ColumnRows>(
    rows: &R,
    column: &Column<'_>,
    type_index: u32,
    field: u32,
    ordinal: u32,
    value: &Value,
    bytes: &[u8],
) -> bool
    requires column_of { IsColumnOf (R.table rows.now) type_index field column.now }
    requires bytes { AreBytesOf value.now bytes.now }
    ensures { IsLive (R.table rows.now) type_index ordinal → unless_null (field_of (row_at (R.table rows.now) type_index ordinal) field) ≡ Some value.now → IsTrue result }
{
    if !rows.is_live(type_index, ordinal) {
        return false;
    }
    may_be(column.value(u64::from(ordinal)), value, bytes)
}

// Whether what stands in a field may be a value: false only where it is another one.
#[inline(always)]
fn may_be(shown: ValueRef<'_>, value: &Value, bytes: &[u8]) -> bool
    requires { AreBytesOf value.now bytes.now }
    ensures { (found : ValueOf) → Shows shown.entry found → unless_null (Some found) ≡ Some value.now → IsTrue result }
{
    match (shown, value) {
        (ValueRef::Int(number), Value::Int(wanted)) => number == *wanted,
        (ValueRef::Long(number), Value::Long(wanted)) => number == *wanted,
        (ValueRef::Bool(flag), Value::Bool(wanted)) => flag == *wanted,
        (ValueRef::Text(packed), Value::Text(_)) => are_bytes(packed, bytes),
        (ValueRef::Bytes(packed), Value::Bytes(_)) => are_bytes(packed, bytes),
        (ValueRef::Ref(ordinal), Value::Ref(wanted)) => ordinal == *wanted,
        _ => false,
    }
}

// Whether packed bytes are these. The last ones are looked at first: keys have their fronts in common more often than their ends.
fn are_bytes(packed: PackedBytes<'_>, bytes: &[u8]) -> bool
    ensures { bytes_of packed.entry ≡ bytes.now → IsTrue result }
{
    if packed.len != bytes.len() as u64 {
        return false;
    }
    for behind in 0..packed.len {
        let at = packed.len - 1 - behind;
        if packed.byte(at) != bytes[at as usize] {
            return false;
        }
    }
    true
}
