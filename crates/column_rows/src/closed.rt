//! Whether the rows of a type name live rows alone, with no row made.
ghost use Rattle.std.specs.Prelude.{ℕ, ◌≡◌, ◌<◌, All, IsTrue, length};
ghost use Rattle.schema_model.specs.declared.schema.Shape.{Shape as ShapeOf};
ghost use Rattle.closed_rows.specs.Dangling.{IsClosedAt};
ghost use Rattle.column_rows.specs.Closed.{ShapeNamesLive};
ghost use Rattle.column_rows.specs.Looked.{IsLooked};

use crate::ColumnRows;
use crate::fields::fields_closed;
use crate::looked::Looked;
use crate::runs::{lists_live, runs_live};
use schema_model::{Name, Shape};

/// Whether the rows of a type name live rows alone; false also where that is not seen since they do not stand packed. It takes no memory, and
/// finds each type that is named once.
pub fn are_closed<R: ColumnRows>(rows: &R, type_index: u32) -> bool
    requires { type_index < length (R.schemas rows.now) }
    ensures { IsTrue result → (ordinal : ℕ) → IsClosedAt (R.schemas rows.now) (R.table rows.now) type_index ordinal }
{
    let shape = &rows.model().schema(type_index).shape;
    is_shape_closed(rows, type_index, shape, Looked::All)
}

/// Whether the rows that a type has under some ordinals name live rows alone; false also where that is not seen since they do not stand packed.
pub fn are_closed_at<R: ColumnRows>(rows: &R, type_index: u32, ordinals: &[u32]) -> bool
    requires { type_index < length (R.schemas rows.now) }
    ensures { IsTrue result → All (IsClosedAt (R.schemas rows.now) (R.table rows.now) type_index) ordinals.now }
{
    let shape = &rows.model().schema(type_index).shape;
    is_shape_closed(rows, type_index, shape, Looked::At(ordinals))
}

/// Whether the rows that are looked at in a type of this shape name live rows alone; false also where that is not seen.
fn is_shape_closed<R: ColumnRows>(
    rows: &R,
    type_index: u32,
    shape: &Shape,
    looked: Looked<'_>,
) -> bool
    ensures { IsTrue result → (ordinal : ℕ) → IsLooked looked.entry ordinal → ShapeNamesLive (R.schemas rows.now) (R.table rows.now) type_index shape.now ordinal }
{
    match shape {
        Shape::Object(_, fields) => fields_closed(rows, type_index, fields.as_slice(), looked),
        Shape::List(element) => are_lists_closed(rows, type_index, element, looked),
        Shape::Set(element) => are_sets_closed(rows, type_index, element, looked),
        Shape::Map(key, value) => are_maps_closed(rows, type_index, key, value, looked),
    }
}

/// Whether the lists that are looked at name live rows alone, their elements of the type of this name; false also where that is not seen.
fn are_lists_closed<R: ColumnRows>(
    rows: &R,
    type_index: u32,
    element: &Name,
    looked: Looked<'_>,
) -> bool
    ensures { IsTrue result → (ordinal : ℕ) → IsLooked looked.entry ordinal → ShapeNamesLive (R.schemas rows.now) (R.table rows.now) type_index (ShapeOf.List element.now) ordinal }
{
    let Some(target) = rows.model().index_of(element.text()) else {
        return false;
    };
    let Some(lists) = rows.lists(type_index) else {
        return false;
    };
    lists_live(rows, &lists, type_index, target, looked)
}

/// Whether the sets that are looked at name live rows alone, their elements of the type of this name; false also where that is not seen.
fn are_sets_closed<R: ColumnRows>(
    rows: &R,
    type_index: u32,
    element: &Name,
    looked: Looked<'_>,
) -> bool
    ensures { IsTrue result → (ordinal : ℕ) → IsLooked looked.entry ordinal → ShapeNamesLive (R.schemas rows.now) (R.table rows.now) type_index (ShapeOf.Set element.now) ordinal }
{
    let Some(target) = rows.model().index_of(element.text()) else {
        return false;
    };
    let Some(runs) = rows.runs(type_index) else {
        return false;
    };
    runs_live(rows, &runs, type_index, target, None, looked)
}

/// Whether the maps that are looked at name live rows alone, their keys and values of the types of these names; false also where that is not seen.
fn are_maps_closed<R: ColumnRows>(
    rows: &R,
    type_index: u32,
    key: &Name,
    value: &Name,
    looked: Looked<'_>,
) -> bool
    ensures { IsTrue result → (ordinal : ℕ) → IsLooked looked.entry ordinal → ShapeNamesLive (R.schemas rows.now) (R.table rows.now) type_index (ShapeOf.Map key.now value.now) ordinal }
{
    let Some(key_target) = rows.model().index_of(key.text()) else {
        return false;
    };
    let Some(value_target) = rows.model().index_of(value.text()) else {
        return false;
    };
    let Some(runs) = rows.runs(type_index) else {
        return false;
    };
    runs_live(
        rows,
        &runs,
        type_index,
        key_target,
        Some(value_target),
        looked,
    )
}
