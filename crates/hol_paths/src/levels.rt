//! One level of a walk: what the rows under some ordinals name by a part, or have in a field.
ghost use Rattle.std.specs.Prelude.{◌≡◌, All, IfOk};
ghost use Rattle.std.specs.Option.{option_and_then, option_copied};
ghost use Rattle.schema_model.specs.Parts.{referenced};
ghost use Rattle.schema_model.specs.WalkPath.{part_kind};
ghost use Rattle.row_model.specs.Key.{unless_null as not_null};
ghost use Rattle.row_model.specs.Reach.{type_by};
ghost use Rattle.row_model.specs.Table.{IsLive, IsTableOf};
ghost use Rattle.hol_paths.specs.Reached.{AreNamed, AreOnceOf, AreRisingOf, values_by};
ghost use Rattle.std.specs.List.{flat_map};

use crate::distinct::Distinct;
use crate::named::push_named;
use column_rows::{ColumnRows, field_value};
use hol_varint::Ordinals;
use row_model::{Rows, Value, Values};
use schema_model::{FieldKind, Model, Name, Shape, WalkPart};
use std::alloc::{AllocError, Global};

/// The type to which a part of a type leads.
pub fn type_behind(model: &Model, type_index: u32, part: WalkPart) -> Option<u32>
    ensures { result ≡ type_by model.now type_index part }
{
    let schema = model.schemas().as_slice().get(type_index as usize)?;
    let name = name_behind(&schema.shape, part)?;
    model.index_of(name.text())
}

/// The name of the type to which a part of a type of this shape leads.
fn name_behind(shape: &Shape, part: WalkPart) -> Option<&Name>
    ensures { option_copied result ≡ option_and_then (λ kind. referenced kind) (part_kind shape.now part) }
{
    match (shape, part) {
        (Shape::Object(_, fields), WalkPart::Field(place)) => {
            match &fields.as_slice().get(place as usize)?.kind {
                FieldKind::Reference(name) => Some(name),
                _ => None,
            }
        }
        (Shape::Set(element), WalkPart::Element) => Some(element),
        (Shape::List(element), WalkPart::Element) => Some(element),
        (Shape::Map(key, _), WalkPart::MapKey) => Some(key),
        (Shape::Map(_, value), WalkPart::MapValue) => Some(value),
        _ => None,
    }
}

/// The ordinals that rows under live ordinals name by a part, rising.
pub(crate) fn named_ordinals<R: ColumnRows>(
    alloc: Global,
    rows: &R,
    type_index: u32,
    part: WalkPart,
    level: &[u32],
) -> Result<Ordinals, AllocError>
    requires fits { IsTableOf (R.schemas rows.now) (R.table rows.now) }
    requires live { All (IsLive (R.table rows.now) type_index) level.now }
    ensures { IfOk result (AreNamed (R.table rows.now) type_index part level.now) }
{
    let mut named = Vec::new(alloc);
    for ordinal in level {
        push_named(alloc, rows, type_index, part, *ordinal, &mut named)?;
    }
    Ok(rising(named))
}

/// Ordinals, each once and rising. It takes no memory.
pub(crate) fn rising(mut ordinals: Vec<u32>) -> Ordinals
    ensures { AreRisingOf ordinals.items result }
{
    ordinals.sort_unstable();
    ordinals.dedup();
    Ordinals::from_vec(ordinals)
}

/// The values that rows under live ordinals have in a field and that are not null, each once; none of a part that is no field.
pub(crate) fn values_of<R: ColumnRows>(
    alloc: Global,
    rows: &R,
    type_index: u32,
    part: WalkPart,
    level: &[u32],
) -> Result<Values, AllocError>
    requires { All (IsLive (R.table rows.now) type_index) level.now }
    ensures { IfOk result (AreOnceOf (flat_map (values_by (R.table rows.now) type_index part) level.now)) }
{
    match part {
        WalkPart::Field(field) => field_values(alloc, rows, type_index, field, level),
        _ => Ok(Values::new(alloc)),
    }
}

/// The values that rows under live ordinals have in a field and that are not null, each once.
fn field_values<R: ColumnRows>(
    alloc: Global,
    rows: &R,
    type_index: u32,
    field: u32,
    level: &[u32],
) -> Result<Values, AllocError>
    requires { All (IsLive (R.table rows.now) type_index) level.now }
    ensures { IfOk result (AreOnceOf (flat_map (values_by (R.table rows.now) type_index (WalkPart.Field field)) level.now)) }
{
    if let [ordinal] = level {
        return own_values(alloc, rows, type_index, *ordinal, field);
    }
    let mut values = Distinct::new(alloc);
    for ordinal in level {
        let value = field_value(alloc, rows, type_index, *ordinal, field)?;
        values.add_some(unless_null(value))?;
    }
    Ok(values.into_values())
}

/// The value that one row has in a field, if it is not null.
fn own_values<R: ColumnRows>(
    alloc: Global,
    rows: &R,
    type_index: u32,
    ordinal: u32,
    field: u32,
) -> Result<Values, AllocError>
    requires { IsLive (R.table rows.now) type_index ordinal }
    ensures { IfOk result (λ values. values ≡ values_by (R.table rows.now) type_index (WalkPart.Field field) ordinal) }
{
    let mut values = Values::new(alloc);
    let value = field_value(alloc, rows, type_index, ordinal, field)?;
    if let Some(stored) = unless_null(value) {
        values.push(stored)?;
    }
    Ok(values)
}

/// The value, unless there is none or it is null.
fn unless_null(value: Option<Value>) -> Option<Value>
    ensures { result ≡ not_null value }
{
    match value {
        Some(Value::Null) => None,
        _ => value,
    }
}
