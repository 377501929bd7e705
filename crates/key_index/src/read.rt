//! Reading the key of a row.
ghost use Rattle.std.specs.Prelude.{◌≡◌, ◌+◌, ◌<◌, IfOk, Some, length};
ghost use Rattle.row_model.specs.Key.{key_of, type_behind as type_led_to, unless_null as not_null, value_along as value_at};
ghost use Rattle.row_model.specs.Table.{IsClosed, IsLive};

use column_rows::{ColumnRows, field_value};
use hol_io::Steps;
use row_model::{Rows, Value, Values};
use schema_model::{FieldKind, Model, Paths};
use std::alloc::{AllocError, Global};
use std::sync::ledger::Ledger;

/// The key of the row under a live ordinal: the values at the ends of the paths, none where a null stands on one of them. It counts one step.
///
/// The rows are closed.
pub fn read_key<R: ColumnRows, L: Ledger>(
    alloc: Global,
    rows: &R,
    paths: &Paths,
    type_index: u32,
    ordinal: u32,
    steps: &mut Steps<L>,
) -> Result<Option<Values>, AllocError>
    requires type_there { type_index < length (R.schemas rows.now) }
    requires closed { IsClosed (R.schemas rows.now) (R.table rows.now) }
    requires live { IsLive (R.table rows.now) type_index ordinal }
    ensures key { IfOk result (λ key. key ≡ key_of (R.schemas rows.now) (R.table rows.now) type_index paths.now ordinal) }
    ensures counted { steps.new ≡ steps.old + 1 }
{
    steps.tick();
    let mut key = Values::with_capacity(alloc, paths.len())?;
    for path in paths.as_slice() {
        match value_along(alloc, rows, type_index, ordinal, path.fields.as_slice())? {
            Some(value) => key.push(value)?,
            None => return Ok(None),
        }
    }
    Ok(Some(key))
}

// The value to which fields lead from the row under a live ordinal; none where a null stands on the way or at its end.
fn value_along<R: ColumnRows>(
    alloc: Global,
    rows: &R,
    type_index: u32,
    ordinal: u32,
    fields: &[u32],
) -> Result<Option<Value>, AllocError>
    requires type_there { type_index < length (R.schemas rows.now) }
    requires closed { IsClosed (R.schemas rows.now) (R.table rows.now) }
    requires live { IsLive (R.table rows.now) type_index ordinal }
    ensures { IfOk result (λ value. value ≡ value_at (R.schemas rows.now) (R.table rows.now) type_index ordinal fields.now) }
{
    let [field, rest @ ..] = fields else {
        return Ok(None);
    };
    let Some(value) = field_value(alloc, rows, type_index, ordinal, *field)? else {
        return Ok(None);
    };
    if rest.is_empty() {
        return Ok(unless_null(value));
    }
    let (Value::Ref(named), Some(next)) = (value, type_behind(rows.model(), type_index, *field))
    else {
        return Ok(None);
    };
    value_along(alloc, rows, next, named, rest)
}

// The value, unless it is null.
fn unless_null(value: Value) -> Option<Value>
    ensures { result ≡ not_null (Some value) }
{
    match value {
        Value::Null => None,
        _ => Some(value),
    }
}

/// The type to which a field of a type leads.
pub fn type_behind(model: &Model, type_index: u32, field: u32) -> Option<u32>
    requires { type_index < length model.now }
    ensures { result ≡ type_led_to model.now type_index field }
{
    let fields = model.schema(type_index).shape.fields();
    match &fields.get(field as usize)?.kind {
        FieldKind::Reference(name) => model.index_of(name.text()),
        _ => None,
    }
}
