//! Rows that a type had, kept beside the ordinals under which they stood.
ghost use Rattle.std.specs.Prelude.{◌≡◌, ◌<◌, [], All, IfOk, IsSome, Some, length, slice_get};
ghost use Rattle.std.specs.FinMap.{get};
ghost use Rattle.std.specs.List.{AllZip};
ghost use Rattle.row_model.specs.Lent.{lent_row};
ghost use Rattle.type_state.specs.Kept.{IsHalf, half_rows};

use crate::old_copies::can_copy_each;
use crate::old_records::{OldRecords, can_pack};
use crate::packed_rows::PackedRows;
use column_rows::TypeRows;
use hol_varint::{Duplicate, List};
use packed_half::HalfRows;
use row_model::{LentRow, Row};
use schema_model::Schema;
use std::alloc::{AllocError, Global};
use std::marker::Model;

/// Rows that a type had, in the order of the ordinals under which they stood. Contracts see the list of them.
///
/// Many records stay packed, and each is made when it is asked for.
#[derive(Drop)]
pub struct OldRows {
    store: Store,
}

impl Model for OldRows {
    ghost use Rattle.std.specs.Prelude.{List as Items};
    ghost use Rattle.row_model.specs.declared.row.Row.{Row as StoredRow};
    ghost use Rattle.type_state.specs.OldRecords.{rows_code};
    ghost use Rattle.type_state.specs.OldRows.{stored_rows};

    ghost Value = { Items StoredRow };

    ghost coded = { rows_code };

    ghost view = { λ old. stored_rows old.store };
}

/// How old rows are kept.
#[derive(Drop)]
pub(crate) enum Store {
    /// Each as a row.
    Made(List<Row>),
    /// As packed records.
    Packed(OldRecords),
}

/// A copy of each row under live ordinals.
fn rows_under(
    alloc: Global,
    rows: &PackedRows<'_>,
    ordinals: &[u32],
) -> Result<List<Row>, AllocError>
    requires { All (λ ordinal. IsSome (get rows.now.rows ordinal)) ordinals.now }
    ensures { IfOk result (AllZip (λ ordinal row. get rows.now.rows ordinal ≡ Some row) ordinals.now) }
{
    let mut made = List::with_capacity(alloc, ordinals.len())?;
    for ordinal in ordinals {
        made.push(rows.row(alloc, *ordinal)?)?;
    }
    Ok(made)
}

impl OldRows {
    /// No rows. It takes no memory.
    pub fn new(alloc: Global) -> OldRows
        ensures { result ≡ [] }
    {
        OldRows {
            store: Store::Made(List::new(alloc)),
        }
    }

    /// The rows of a half under live ordinals.
    pub(crate) fn of(
        alloc: Global,
        schema: &Schema,
        current: HalfRows<'_>,
        ordinals: &[u32],
    ) -> Result<OldRows, AllocError>
        requires shape { current.shape.now ≡ schema.now.shape }
        requires kept { IsHalf schema.now.shape current.half.now current.words.now }
        requires live { All (λ ordinal. IsSome (get (half_rows schema.now.shape current.half.now current.words.now) ordinal)) ordinals.now }
        ensures { IfOk result (AllZip (λ ordinal row. get (half_rows schema.now.shape current.entry.half.now current.entry.words.now) ordinal ≡ Some row) ordinals.now) }
    {
        if can_pack(&schema.shape, current.half, ordinals.len()) {
            let records = OldRecords::of(alloc, schema, current, ordinals)?;
            return Ok(OldRows {
                store: Store::Packed(records),
            });
        }
        if can_copy_each(&schema.shape, current.half, ordinals) {
            let records = OldRecords::copied(alloc, schema, current, ordinals)?;
            return Ok(OldRows {
                store: Store::Packed(records),
            });
        }
        let rows = PackedRows::new(schema, current.half, current.words);
        let made = rows_under(alloc, &rows, ordinals)?;
        Ok(OldRows {
            store: Store::Made(made),
        })
    }

    /// A copy of the row at a place.
    pub fn row(&self, alloc: Global, place: usize) -> Result<Row, AllocError>
        requires { place < length self.now }
        ensures { IfOk result (λ row. slice_get self.now place ≡ Some row) }
    {
        match &self.store {
            Store::Made(rows) => rows.get(place).copy(alloc),
            Store::Packed(records) => records.row(alloc, place),
        }
    }

    /// The row at a place, to look at: lent where it stands as a row, and else made, for which memory is taken.
    pub fn lend(&self, alloc: Global, place: usize) -> Result<LentRow<'_>, AllocError>
        requires { place < length self.now }
        ensures { IfOk result (λ lent. slice_get self.now place ≡ Some (lent_row lent)) }
    {
        match &self.store {
            Store::Made(rows) => Ok(LentRow::Kept(rows.get(place))),
            Store::Packed(records) => Ok(LentRow::Made(records.row(alloc, place)?)),
        }
    }
}
