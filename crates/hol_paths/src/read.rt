//! Reading what a row reaches.
ghost use Rattle.std.specs.Prelude.{◌≡◌, ◌+◌, All, IfOk};
ghost use Rattle.row_model.specs.Table.{IsClosed, IsLive};
ghost use Rattle.hol_paths.specs.Reached.{AreReached, AreReachedFrom};

use crate::levels::{named_ordinals, type_behind, values_of};
use column_rows::ColumnRows;
use hol_io::Steps;
use hol_varint::Ordinals;
use row_model::{Rows, Values};
use schema_model::{WalkPart, WalkPath};
use std::alloc::{AllocError, Global};
use std::sync::ledger::Ledger;

/// The values that the row under a live ordinal of a path's type reaches along the path, each once. It counts one step.
///
/// The rows are closed.
pub fn read_walk<R: ColumnRows, L: Ledger>(
    alloc: Global,
    rows: &R,
    path: &WalkPath,
    ordinal: u32,
    steps: &mut Steps<L>,
) -> Result<Values, AllocError>
    requires closed { IsClosed (R.schemas rows.now) (R.table rows.now) }
    requires live { IsLive (R.table rows.now) path.now.type_index ordinal }
    ensures reached { IfOk result (AreReached (R.schemas rows.now) (R.table rows.now) path.now.type_index path.now.parts ordinal) }
    ensures counted { steps.new ≡ steps.old + 1 }
{
    steps.tick();
    reached_by(alloc, rows, path, ordinal)
}

/// The values that the row under a live ordinal of a path's type reaches along the path, each once. The rows are closed, and it counts no step.
pub(crate) fn reached_by<R: ColumnRows>(
    alloc: Global,
    rows: &R,
    path: &WalkPath,
    ordinal: u32,
) -> Result<Values, AllocError>
    requires closed { IsClosed (R.schemas rows.now) (R.table rows.now) }
    requires live { IsLive (R.table rows.now) path.now.type_index ordinal }
    ensures { IfOk result (AreReached (R.schemas rows.now) (R.table rows.now) path.now.type_index path.now.parts ordinal) }
{
    let mut level = Ordinals::new(alloc);
    level.push(ordinal)?;
    values_along(alloc, rows, path.type_index, path.parts.as_slice(), &level)
}

/// The values that rows of a type under some ordinals reach along parts, each once.
fn values_along<R: ColumnRows>(
    alloc: Global,
    rows: &R,
    type_index: u32,
    parts: &[WalkPart],
    level: &Ordinals,
) -> Result<Values, AllocError>
    requires closed { IsClosed (R.schemas rows.now) (R.table rows.now) }
    requires live { All (IsLive (R.table rows.now) type_index) level.now }
    ensures { IfOk result (AreReachedFrom (R.schemas rows.now) (R.table rows.now) type_index parts.now level.now) }
{
    let [part, rest @ ..] = parts else {
        return Ok(Values::new(alloc));
    };
    if rest.is_empty() {
        return values_of(alloc, rows, type_index, *part, level.as_slice());
    }
    let Some(next) = type_behind(rows.model(), type_index, *part) else {
        return Ok(Values::new(alloc));
    };
    let named = named_ordinals(alloc, rows, type_index, *part, level.as_slice())?;
    values_along(alloc, rows, next, rest, &named)
}
