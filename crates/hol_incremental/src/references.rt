//! The rows that a row names.
ghost use Rattle.std.specs.Prelude.{◌≡◌, ◌+◌, ◌++◌, ◌∷◌, [], ℕ, IfOk, OnOk, flat_map, length, map, zip};
ghost use Rattle.row_model.specs.Row.{references_of_value};
ghost use Rattle.row_model.specs.Table.{IsLive};
ghost use Rattle.hol_incremental.specs.Counts.{indexed, named_at, named_by};
ghost use Rattle.hol_incremental.specs.Sums.{AddsRowAt, TakesRowAt};

use hol_io::Steps;
use kept_sums::Sums;
use row_model::{Row, Rows, Value};
use schema_model::{Field, FieldKind, Model, Name, Shape};
use std::alloc::{AllocError, Global};
use std::sync::ledger::Ledger;

/// The rows that the row under a live ordinal names, in its order, each by its type and ordinal; and the row is added to the sums of its type. It counts a step.
pub(crate) fn read_coming<R: Rows, L: Ledger>(
    alloc: Global,
    rows: &R,
    type_index: u32,
    ordinal: u32,
    sums: &mut Vec<Sums>,
    steps: &mut Steps<L>,
) -> Result<Vec<(u32, u32)>, AllocError>
    requires live { IsLive (R.table rows.now) type_index ordinal }
    requires types { length sums.old.items ≡ length (R.schemas rows.now) }
    ensures named { IfOk result (λ named. named.items ≡ named_at (R.schemas rows.now) (R.table rows.now) type_index ordinal) }
    ensures sums { OnOk result (AddsRowAt (R.schemas rows.now) (R.table rows.now) type_index ordinal sums.old.items sums.new.items) }
    ensures counted { OnOk result (steps.new ≡ steps.old + 1) }
{
    steps.tick();
    let lent = rows.lend(alloc, type_index, ordinal)?;
    let model = rows.model();
    let shape = &model.schema(type_index).shape;
    let named = rows_named(alloc, model, shape, lent.row())?;
    sums[type_index as usize].add(shape, lent.row())?;
    Ok(named)
}

/// The rows that the row under a live ordinal names, in its order, each by its type and ordinal; and the row, which leaves, is taken from the sums of its type.
/// It counts a step.
pub(crate) fn read_leaving<R: Rows, L: Ledger>(
    alloc: Global,
    rows: &R,
    type_index: u32,
    ordinal: u32,
    sums: &mut Vec<Sums>,
    steps: &mut Steps<L>,
) -> Result<Vec<(u32, u32)>, AllocError>
    requires live { IsLive (R.table rows.now) type_index ordinal }
    requires types { length sums.old.items ≡ length (R.schemas rows.now) }
    ensures named { IfOk result (λ named. named.items ≡ named_at (R.schemas rows.now) (R.table rows.now) type_index ordinal) }
    ensures sums { OnOk result (TakesRowAt (R.schemas rows.now) (R.table rows.now) type_index ordinal sums.old.items sums.new.items) }
    ensures counted { OnOk result (steps.new ≡ steps.old + 1) }
{
    steps.tick();
    let lent = rows.lend(alloc, type_index, ordinal)?;
    let model = rows.model();
    let shape = &model.schema(type_index).shape;
    let named = rows_named(alloc, model, shape, lent.row())?;
    sums[type_index as usize].take(shape, lent.row())?;
    Ok(named)
}

// The rows that a row of a type of this shape names.
fn rows_named(
    alloc: Global,
    model: &Model,
    shape: &Shape,
    row: &Row,
) -> Result<Vec<(u32, u32)>, AllocError>
    ensures { IfOk result (λ named. named.items ≡ named_by model.now shape.now row.now) }
{
    let mut named = Vec::new(alloc);
    push_row(model, shape, row, &mut named)?;
    Ok(named)
}

// Adds the rows that a row of a type of this shape names.
fn push_row(
    model: &Model,
    shape: &Shape,
    row: &Row,
    named: &mut Vec<(u32, u32)>,
) -> Result<(), AllocError>
    ensures { OnOk result (named.new.items ≡ named.old.items ++ named_by model.now shape.now row.now) }
{
    match (shape, row) {
        (Shape::Object(_, fields), Row::Object(values)) => {
            push_values(model, fields.as_slice(), values.as_slice(), named)
        }
        (Shape::List(element), Row::List(ordinals)) => {
            push_all(model, element, ordinals.as_slice(), named)
        }
        (Shape::Set(element), Row::Set(ordinals)) => {
            push_all(model, element, ordinals.as_slice(), named)
        }
        (Shape::Map(key, value), Row::Map(pairs)) => {
            push_pairs(model, key, value, pairs.as_slice(), named)
        }
        _ => Ok(()),
    }
}

// Adds the row of the type of this name, if there is such a type.
fn push_one(
    model: &Model,
    name: &Name,
    ordinal: u32,
    named: &mut Vec<(u32, u32)>,
) -> Result<(), AllocError>
    ensures { OnOk result (named.new.items ≡ named.old.items ++ indexed model.now ((name.now, ordinal) ∷ [])) }
{
    if let Some(type_index) = model.index_of(name.text()) {
        named.push((type_index, ordinal))?;
    }
    Ok(())
}

// Adds the row that a value of a field names, if it names one.
fn push_value(
    model: &Model,
    kind: &FieldKind,
    value: &Value,
    named: &mut Vec<(u32, u32)>,
) -> Result<(), AllocError>
    ensures { OnOk result (named.new.items ≡ named.old.items ++ indexed model.now (references_of_value kind.now value.now)) }
{
    match (kind, value) {
        (FieldKind::Reference(name), Value::Ref(ordinal)) => {
            push_one(model, name, *ordinal, named)
        }
        _ => Ok(()),
    }
}

// Adds the rows that the values of a record name.
fn push_values(
    model: &Model,
    fields: &[Field],
    values: &[Value],
    named: &mut Vec<(u32, u32)>,
) -> Result<(), AllocError>
    ensures { OnOk result (named.new.items ≡ named.old.items ++ indexed model.now (flat_map (λ part. references_of_value part.0.kind part.1) (zip fields.now values.now))) }
{
    for place in 0..fields.len().min(values.len()) {
        push_value(model, &fields[place].kind, &values[place], named)?;
    }
    Ok(())
}

// Adds the rows of the type of this name under some ordinals.
fn push_all(
    model: &Model,
    name: &Name,
    ordinals: &[u32],
    named: &mut Vec<(u32, u32)>,
) -> Result<(), AllocError>
    ensures { OnOk result (named.new.items ≡ named.old.items ++ indexed model.now (map (λ ordinal. (name.now, ordinal)) ordinals.now)) }
{
    for ordinal in ordinals {
        push_one(model, name, *ordinal, named)?;
    }
    Ok(())
}

// Adds the keys and values of a map.
fn push_pairs(
    model: &Model,
    key: &Name,
    value: &Name,
    pairs: &[(u32, u32)],
    named: &mut Vec<(u32, u32)>,
) -> Result<(), AllocError>
    ensures { OnOk result (named.new.items ≡ named.old.items ++ indexed model.now (flat_map (λ pair. (key.now, pair.0) ∷ (value.now, pair.1) ∷ []) pairs.now)) }
{
    for pair in pairs {
        push_one(model, key, pair.0, named)?;
        push_one(model, value, pair.1, named)?;
    }
    Ok(())
}
