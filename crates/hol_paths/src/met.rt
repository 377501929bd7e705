//! Values that were read already, by the ordinals through which rows reach them.
ghost use Rattle.std.specs.Prelude.{◌≡◌, ◌∷◌, ℕ, [], IfOk, IfSome, None, Some};
ghost use Rattle.row_model.specs.declared.row.Value.{Value as ValueOf};
ghost use Rattle.row_model.specs.Table.{IsLive};
ghost use Rattle.object_codec.specs.Columns.{Shows};
ghost use Rattle.hol_paths.specs.Met.{IsFirstColumn, IsPartColumn, KeepsMet, NamesOnly, met_at};
ghost use Rattle.hol_paths.specs.Reached.{named_at};

use column_rows::{ColumnRows, field_value};
use object_codec::{Column, ValueRef};
use row_model::{Rows, Value};
use schema_model::{WalkPart, WalkPath};
use std::alloc::{AllocError, Global};

/// So many of the entries that come, from a place on: those of one row.
#[derive(Clone, Copy)]
pub(crate) struct Run {
    pub(crate) start: u32,
    pub(crate) count: u32,
}

/// So many ordinals, none of which was met.
pub(crate) fn none_met(alloc: Global, count: usize) -> Result<Vec<Option<Run>>, AllocError>
    ensures { IfOk result (λ met. (named : ℕ) → met_at met.items named ≡ None) }
{
    vec![in alloc; None; count]
}

/// The run that is kept for an ordinal, if it was met.
pub(crate) fn run_through(met: &[Option<Run>], named: Option<u32>) -> Option<Run>
    ensures { IfSome result (λ run. (place : ℕ) × (named ≡ Some place) × (met_at met.now place ≡ Some run)) }
{
    let place = named? as usize;
    if place < met.len() { met[place] } else { None }
}

/// Keeps a run for an ordinal, if there is room for it.
pub(crate) fn keep_run(met: &mut Vec<Option<Run>>, named: Option<u32>, run: Run)
    ensures { KeepsMet met.old.items named run met.new.items }
{
    if let Some(place) = named {
        if (place as usize) < met.len() {
            met[place as usize] = Some(run);
        }
    }
}

/// The first part of a path, in all records of its type; none where it is no field, or the records do not stand packed.
pub(crate) fn first_column<'a, R: ColumnRows>(rows: &'a R, path: &WalkPath) -> Option<Column<'a>>
    ensures { IfSome result (IsFirstColumn (R.table rows.now) path.now.type_index path.now.parts) }
{
    let [part, ..] = path.parts.as_slice() else {
        return None;
    };
    part_column(rows, path.type_index, *part)
}

/// A part of a type, in all its records.
fn part_column<R: ColumnRows>(rows: &R, type_index: u32, part: WalkPart) -> Option<Column<'_>>
    ensures { IfSome result (IsPartColumn (R.table rows.now) type_index part) }
{
    let WalkPart::Field(field) = part else {
        return None;
    };
    rows.column(type_index, field)
}

/// The ordinal that the row under a live ordinal names by the first part of a path, if that is a field and more parts follow. Where no runs are kept the row is
/// not looked at. The column is that of the first part, if there is one.
pub(crate) fn only_named<R: ColumnRows>(
    alloc: Global,
    rows: &R,
    column: &Option<Column<'_>>,
    type_index: u32,
    parts: &[WalkPart],
    ordinal: u32,
    met: &[Option<Run>],
) -> Result<Option<u32>, AllocError>
    requires live { IsLive (R.table rows.now) type_index ordinal }
    requires column { IfSome column.now (IsFirstColumn (R.table rows.now) type_index parts.now) }
    ensures { IfOk result (λ named. IfSome named (NamesOnly (R.table rows.now) type_index parts.now ordinal)) }
{
    let [part, rest @ ..] = parts else {
        return Ok(None);
    };
    if rest.is_empty() || met.is_empty() {
        return Ok(None);
    }
    only_named_by(alloc, rows, column, type_index, *part, ordinal)
}

/// The ordinal that the row under a live ordinal names by a part, if that is a field. The column is that of the part, if there is one.
fn only_named_by<R: ColumnRows>(
    alloc: Global,
    rows: &R,
    column: &Option<Column<'_>>,
    type_index: u32,
    part: WalkPart,
    ordinal: u32,
) -> Result<Option<u32>, AllocError>
    requires live { IsLive (R.table rows.now) type_index ordinal }
    requires column { IfSome column.now (IsPartColumn (R.table rows.now) type_index part) }
    ensures { IfOk result (λ named. IfSome named (λ other. named_at (R.table rows.now) type_index part ordinal ≡ other ∷ [])) }
{
    let WalkPart::Field(field) = part else {
        return Ok(None);
    };
    if let Some(column) = column {
        return Ok(ordinal_shown(column.value(u64::from(ordinal))));
    }
    match field_value(alloc, rows, type_index, ordinal, field)? {
        Some(Value::Ref(other)) => Ok(Some(other)),
        _ => Ok(None),
    }
}

/// The ordinal that is shown, if it is one.
fn ordinal_shown(shown: ValueRef<'_>) -> Option<u32>
    ensures { (value : ValueOf) → Shows shown.entry value → IfSome result (λ other. value ≡ ValueOf.Ref other) }
{
    match shown {
        ValueRef::Ref(other) => Some(other),
        _ => None,
    }
}
