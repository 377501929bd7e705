//! The rows of a type under their ordinals, and the ordinals at which there is none.
ghost use Rattle.std.specs.Prelude.{ℕ, ◌≡◌, ◌+◌, ◌<◌, ◌≤◌, length, max, OnOk};
ghost use Rattle.ordinal_map.specs.KeptRows.{row_under};
ghost use Rattle.std.specs.Option.{option_copied};

use row_model::Row;
use std::alloc::AllocError;

/// The row under an ordinal, if there is one.
pub(crate) fn row_at(rows: &[Option<Row>], ordinal: u32) -> Option<&Row>
    ensures { option_copied result ≡ row_under rows.now ordinal }
{
    match rows.get(ordinal as usize) {
        Some(row) => row.as_ref(),
        None => None,
    }
}

/// Makes places without rows behind the last one, up to an ordinal that has none.
pub(crate) fn make_room(rows: &mut Vec<Option<Row>>, ordinal: u32) -> Result<(), AllocError>
    ensures room { OnOk result (ordinal < length rows.new.items) }
    ensures same { (other : ℕ) → row_under rows.new.items other ≡ row_under rows.old.items other }
    ensures few { length rows.new.items ≤ max (length rows.old.items) (ordinal + 1) }
{
    while rows.len() <= ordinal as usize {
        rows.push(None)?;
    }
    Ok(())
}
