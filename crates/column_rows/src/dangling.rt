//! The first row that names an ordinal that is not live: a type that is closed where it stands packed is passed over, and any other is gone through
//! row by row.
ghost use Rattle.std.specs.Prelude.{◌<◌, IfOk, length};
ghost use Rattle.closed_rows.specs.Dangling.{TellsDangling, TellsType};

use crate::ColumnRows;
use crate::closed::are_closed;
use closed_rows::Dangling;
use std::alloc::{AllocError, Global};

/// The first row that names an ordinal that is not live, in the order of the types and then of the ordinals; `None`
/// exactly where the rows are closed. Of rows that stand packed and are closed it takes no memory.
pub fn first_dangling<R: ColumnRows>(
    alloc: Global,
    rows: &R,
) -> Result<Option<Dangling>, AllocError>
    ensures { IfOk result (TellsDangling (R.schemas rows.now) (R.table rows.now)) }
{
    for type_index in 0..rows.model().len() {
        if let Some(ordinal) = dangling_in(alloc, rows, type_index)? {
            return Ok(Some(Dangling {
                type_index,
                ordinal,
            }));
        }
    }
    Ok(None)
}

/// The least ordinal of a type whose row names one that is not live; `None` exactly where all rows of the type name live
/// ordinals alone. Of rows that stand packed and are closed it takes no memory.
pub fn dangling_in<R: ColumnRows>(
    alloc: Global,
    rows: &R,
    type_index: u32,
) -> Result<Option<u32>, AllocError>
    requires { type_index < length (R.schemas rows.now) }
    ensures { IfOk result (TellsType (R.schemas rows.now) (R.table rows.now) type_index) }
{
    if are_closed(rows, type_index) {
        return Ok(None);
    }
    closed_rows::dangling_in(alloc, rows, type_index)
}
