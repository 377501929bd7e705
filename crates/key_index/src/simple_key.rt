//! Keys that are one field of the records of a type, read where these stand packed.
ghost use Rattle.std.specs.Prelude.{◌≡◌, ◌+◌, ◌<◌, IfOk, IfSome, Some, length};
ghost use Rattle.object_codec.specs.Columns.{Shows};
ghost use Rattle.row_model.specs.declared.row.Value.{Value as StoredValue};
ghost use Rattle.row_model.specs.Key.{key_of};
ghost use Rattle.row_model.specs.Table.{IsClosed, IsLive};
ghost use Rattle.key_index.specs.SimpleKey.{IsKeyColumn};
ghost use Rattle.key_index.specs.Slots.{row_key};

use crate::read::read_key;
use crate::slot::Slot;
use column_rows::ColumnRows;
use hol_io::Steps;
use object_codec::{Column, ValueRef};
use row_model::{Rows, Value};
use schema_model::Paths;
use std::alloc::{AllocError, Global};
use std::sync::ledger::Ledger;

/// The field that is the key of the rows of a type by these paths, of all its records; none where the key is no single field, or the records do
/// not stand packed.
pub(crate) fn key_column<'a, R: ColumnRows>(
    rows: &'a R,
    paths: &Paths,
    type_index: u32,
) -> Option<Column<'a>>
    ensures { IfSome result (IsKeyColumn (R.table rows.now) type_index paths.now) }
{
    let [path] = paths.as_slice() else {
        return None;
    };
    let [field] = path.fields.as_slice() else {
        return None;
    };
    rows.column(type_index, *field)
}

/// The value that is shown, where it has no text and no bytes.
fn plain_value(shown: ValueRef<'_>) -> Option<Value>
    ensures { (value : StoredValue) → Shows shown.entry value → IfSome result (λ plain. plain ≡ value) }
{
    match shown {
        ValueRef::Null => Some(Value::Null),
        ValueRef::Int(number) => Some(Value::Int(number)),
        ValueRef::Long(number) => Some(Value::Long(number)),
        ValueRef::Bool(flag) => Some(Value::Bool(flag)),
        ValueRef::Ref(ordinal) => Some(Value::Ref(ordinal)),
        ValueRef::Text(_) | ValueRef::Bytes(_) => None,
    }
}

/// The slot of the row under a live ordinal with its key, as `read_key` reads it, where this column is that of the keys, if there is one. It counts
/// one step.
///
/// The rows are closed.
pub(crate) fn read_slot<R: ColumnRows, L: Ledger>(
    alloc: Global,
    rows: &R,
    column: &Option<Column<'_>>,
    paths: &Paths,
    type_index: u32,
    ordinal: u32,
    steps: &mut Steps<L>,
) -> Result<Slot, AllocError>
    requires type_there { type_index < length (R.schemas rows.now) }
    requires closed { IsClosed (R.schemas rows.now) (R.table rows.now) }
    requires column { IfSome column.now (IsKeyColumn (R.table rows.now) type_index paths.now) }
    requires live { IsLive (R.table rows.now) type_index ordinal }
    ensures key { IfOk result (λ slot. row_key slot ≡ Some (key_of (R.schemas rows.now) (R.table rows.now) type_index paths.now ordinal)) }
    ensures counted { steps.new ≡ steps.old + 1 }
{
    if let Some(column) = column {
        if let Some(value) = plain_value(column.value(u64::from(ordinal))) {
            steps.tick();
            return Ok(Slot::of_value(value));
        }
    }
    Ok(Slot::of_row(read_key(alloc, rows, paths, type_index, ordinal, steps)?))
}
