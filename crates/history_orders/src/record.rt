//! The record of a row, wherever it stands.
ghost use Rattle.std.specs.Prelude.{◌<◌, length};
ghost use Rattle.row_model.specs.Table.{IsClosed, IsLive};
ghost use Rattle.history_orders.specs.Told.{TellsRecord};

use hol_answers::PlainValue;
use record_json::{PrintFault, tree_value};
use row_model::Rows;
use schema_model::MAX_NODES;
use std::alloc::Global;

/// The record of a live row. `Nodes` where it has more than `MAX_NODES` nodes.
pub(crate) fn record<R: Rows>(
    alloc: Global,
    rows: &R,
    type_index: u32,
    ordinal: u32,
) -> Result<PlainValue, PrintFault>
    requires type_in { type_index < length (R.schemas rows.now) }
    requires closed { IsClosed (R.schemas rows.now) (R.table rows.now) }
    requires live { IsLive (R.table rows.now) type_index ordinal }
    ensures { TellsRecord (R.schemas rows.now) (R.table rows.now) type_index ordinal result }
{
    let mut budget = MAX_NODES;
    let value = tree_value(alloc, rows, type_index, ordinal, &mut budget)?;
    Ok(PlainValue::new(value))
}
