//! The rows of a type that have the key which JSON values spell.
ghost use Rattle.std.specs.Prelude.{◌<◌, All, length};
ghost use Rattle.serde_json.specs.View.{view};
ghost use Rattle.row_model.specs.Key.{IsResolved};
ghost use Rattle.row_model.specs.Table.{IsClosed};
ghost use Rattle.history_orders.specs.Older.{SeeksIn};
ghost use Rattle.history_orders.specs.Told.{TellsKeyed};

use crate::key_seek::{KeySeek, seek_rows};
use hol_varint::Ordinals;
use json_values::{KeyFault, key_from};
use row_model::Rows;
use schema_model::Paths;
use serde_json::Value;
use std::alloc::Global;

/// The live ordinals of a type whose rows have the key that the values spell along these paths, rising. `Shape` where they spell none.
pub(crate) fn keyed<R: Rows>(
    alloc: Global,
    seek: &KeySeek<'_>,
    rows: &R,
    type_index: u32,
    paths: &Paths,
    values: &Value,
) -> Result<Ordinals, KeyFault>
    requires seek { SeeksIn seek.now (R.schemas rows.now) (R.table rows.now) }
    requires type_in { type_index < length (R.schemas rows.now) }
    requires closed { IsClosed (R.schemas rows.now) (R.table rows.now) }
    requires resolved { All (IsResolved (R.schemas rows.now) type_index) paths.now }
    ensures { TellsKeyed (R.schemas rows.now) (R.table rows.now) type_index paths.now (view values.now) result }
{
    let key = key_from(alloc, rows.model(), paths, values)?;
    Ok(seek_rows(alloc, seek, rows, type_index, paths, &key)?)
}
