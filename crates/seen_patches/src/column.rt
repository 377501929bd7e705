//! Columns of records that stand in words one behind the other.
ghost use Rattle.std.specs.Prelude.{◌≡◌, ◌^◌, ◌<◌, IfOk, sum};
ghost use Rattle.seen_patches.specs.Elements.{columns_of};

use bit_array::total_width;
use std::alloc::{AllocError, Global};

/// A column of records: where the element of one field stands in each of them.
#[derive(Clone, Copy)]
pub(crate) struct Column {
    /// How many bits a record has.
    pub(crate) size: u64,
    /// How many bits of a record stand before the element.
    pub(crate) before: u64,
    /// How many bits the element has.
    pub(crate) width: u32,
}

/// The columns of records whose fields have these widths, in bits.
pub(crate) fn columns_of(alloc: Global, widths: &[u32]) -> Result<Vec<Column>, AllocError>
    requires { sum widths.now < 2 ^ 64 }
    ensures { IfOk result (λ columns. columns.items ≡ columns_of widths.now) }
{
    let size = total_width(widths) as u64;
    let mut columns = Vec::with_capacity(alloc, widths.len())?;
    let mut before = 0;
    for width in widths {
        columns.push(Column {
            size,
            before,
            width: *width,
        })?;
        before += u64::from(*width);
    }
    Ok(columns)
}
