//! Whether the rows of a type are the same in two states, with no row made.
ghost use Rattle.std.specs.Prelude.{ℕ, ◌≡◌, ◌<◌, IsTrue, length};
ghost use Rattle.row_model.specs.Table.{IsTableOf, row_at};
ghost use Rattle.column_rows.specs.Same.{HaveSameLive, HaveSameParts, IsSoOfBoth};

use crate::ColumnRows;
use crate::same_items::{are_lists_same, are_runs_same};
use crate::same_values::are_fields_same;
use row_model::Rows;
use schema_model::Shape;

/// Whether the rows of a type are the same in two states of one model; false also where that is not seen since they do not stand packed, or
/// since sets or maps stand in other buckets. It takes no memory, and looks at each row where it stands.
pub fn are_same<A: ColumnRows, B: ColumnRows>(rows: &A, others: &B, type_index: u32) -> bool
    requires type_there { type_index < length (A.schemas rows.now) }
    requires models { A.schemas rows.now ≡ B.schemas others.now }
    requires fits { IsTableOf (B.schemas others.now) (B.table others.now) }
    ensures { IsTrue result → (ordinal : ℕ) → row_at (A.table rows.now) type_index ordinal ≡ row_at (B.table others.now) type_index ordinal }
{
    let shape = &rows.model().schema(type_index).shape;
    if !have_same_live(rows, others, type_index) {
        return false;
    }
    are_parts_same(rows, others, type_index, shape)
}

/// Whether two states have rows of a type under the same ordinals.
fn have_same_live<A: Rows, B: Rows>(rows: &A, others: &B, type_index: u32) -> bool
    ensures { IsTrue result → HaveSameLive (A.table rows.now) (B.table others.now) type_index }
{
    let bound = rows.bound(type_index);
    if others.bound(type_index) != bound {
        return false;
    }
    for ordinal in 0..bound {
        if rows.is_live(type_index, ordinal) != others.is_live(type_index, ordinal) {
            return false;
        }
    }
    true
}

/// Whether the rows of a type of this shape have the same values, elements or pairs in two states.
fn are_parts_same<A: ColumnRows, B: ColumnRows>(
    rows: &A,
    others: &B,
    type_index: u32,
    shape: &Shape,
) -> bool
    requires { HaveSameLive (A.table rows.now) (B.table others.now) type_index }
    ensures { IsTrue result → (ordinal : ℕ) → IsSoOfBoth (HaveSameParts shape.now) (A.table rows.now) (B.table others.now) type_index ordinal }
{
    match shape {
        Shape::Object(_, fields) => are_fields_same(rows, others, type_index, fields.len()),
        Shape::List(_) => are_lists_same(rows, others, type_index),
        Shape::Set(_) => are_runs_same(rows, others, type_index),
        Shape::Map(_, _) => are_runs_same(rows, others, type_index),
    }
}
