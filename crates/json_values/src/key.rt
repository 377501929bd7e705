//! The values of keys from their JSON.
ghost use Rattle.std.specs.Prelude.{◌≡◌, All, IsSomeAnd, Some};
ghost use Rattle.serde_json.specs.Data.{array};
ghost use Rattle.serde_json.specs.View.{view, items_view};
ghost use Rattle.closed_rows.specs.Dangling.{IsPlain};
ghost use Rattle.row_model.specs.Key.{IsResolved, kind_along};
ghost use Rattle.row_model.specs.Row.{stored_value};
ghost use Rattle.json_values.specs.KeyFrom.{TellsKey, TellsPart, if_stored, key_part};
ghost use Rattle.json_values.specs.ReadValue.{read_value};

use crate::values::value_from;
use crate::{KeyFault, ValueFault};
use row_model::{Value as FieldValue, Values};
use schema_model::{FieldKind, Model, Path, Paths};
use serde_json::Value;
use std::alloc::Global;

/// The values of a key, one for each path, in their order. `Shape` where the JSON is no array of as many values as there are
/// paths, each a value of the field at the end of its path that is not null. The least INT and the least LONG count as null.
pub fn key_from(
    alloc: Global,
    model: &Model,
    paths: &Paths,
    values: &Value,
) -> Result<Values, KeyFault>
    requires resolved { All (λ path. IsResolved model.now path.type_index path) paths.now }
    ensures tells { TellsKey model.now paths.now (view values.now) result }
{
    match values {
        Value::Array(values) => parts_from(alloc, model, paths.as_slice(), values.as_slice()),
        _ => Err(KeyFault::Shape),
    }
}

// The values of a key, one for each path, from the values of an array. `Shape` where these are not as many as the paths, each a value of the field at the end
// of its path that is not null.
fn parts_from(
    alloc: Global,
    model: &Model,
    paths: &[Path],
    values: &[Value],
) -> Result<Values, KeyFault>
    requires resolved { All (λ path. IsResolved model.now path.type_index path) paths.now }
    ensures tells { TellsKey model.now paths.now (array (items_view values.now)) result }
{
    if values.len() != paths.len() {
        return Err(KeyFault::Shape);
    }
    let mut key = Values::with_capacity(alloc, paths.len())?;
    for (place, value) in values.iter().enumerate() {
        let path = &paths[place];
        let kind = kind_behind(model, path.type_index, path.fields.as_slice());
        key.push(part_from(alloc, kind, value)?)?;
    }
    Ok(key)
}

// The kind of the field to which fields lead from a type.
fn kind_behind<'a>(model: &'a Model, type_index: u32, fields: &[u32]) -> &'a FieldKind
    requires ends { IsSomeAnd (kind_along model.now type_index fields.now) IsPlain }
    ensures kind { kind_along model.now type_index fields.now ≡ Some result.now }
    ensures plain { IsPlain result.now }
{
    let [field, rest @ ..] = fields else {
        unreachable!();
    };
    let kind = &model.schema(type_index).shape.fields()[*field as usize].kind;
    let FieldKind::Reference(name) = kind else {
        return kind;
    };
    match model.index_of(name.text()) {
        Some(next) => kind_behind(model, next, rest),
        None => unreachable!(),
    }
}

/// The value of a kind, as one of a key. `Shape` where the JSON is of another kind, out of its range, or null, as which the least
/// INT and the least LONG count.
pub fn part_from(alloc: Global, kind: &FieldKind, value: &Value) -> Result<FieldValue, KeyFault>
    requires plain { IsPlain kind.now }
    ensures { TellsPart (key_part (read_value kind.now (view value.now))) result }
{
    match value_from(alloc, kind, value) {
        Ok(value) => unless_null(value),
        Err(ValueFault::Memory) => Err(KeyFault::Memory),
        Err(ValueFault::Field(_)) => Err(KeyFault::Shape),
    }
}

// A value that is not null once it is stored.
fn unless_null(value: FieldValue) -> Result<FieldValue, KeyFault>
    ensures { TellsPart (if_stored value (stored_value value)) result }
{
    match value.stored() {
        FieldValue::Null => Err(KeyFault::Shape),
        value => Ok(value),
    }
}
