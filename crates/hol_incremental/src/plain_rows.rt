//! Rows of which none is looked at where it stands packed.
ghost use Rattle.std.specs.Prelude.{◌≡◌};

use column_rows::{ColumnRows, PackedItems};
use object_codec::Column;
use row_model::{LentRow, Row, Rows};
use schema_model::Model;
use std::alloc::{AllocError, Global};

/// Rows as they are, none of which stands packed.
#[derive(Drop)]
pub(crate) struct PlainRows<'a, R: Rows> {
    rows: &'a R,
}

impl<'a, R: Rows> PlainRows<'a, R> {
    /// These rows, looked at one by one where they stand.
    pub(crate) fn new(rows: &'a R) -> PlainRows<'a, R>
        ensures { result.rows.now ≡ rows.now }
    {
        PlainRows { rows }
    }
}

impl<'a, R: Rows> Rows for PlainRows<'a, R> {
    ghost schemas = { λ plain. R.schemas plain.rows.now };

    ghost table = { λ plain. R.table plain.rows.now };

    fn model(&self) -> &Model {
        self.rows.model()
    }

    fn bound(&self, type_index: u32) -> u32 {
        self.rows.bound(type_index)
    }

    fn is_live(&self, type_index: u32, ordinal: u32) -> bool {
        self.rows.is_live(type_index, ordinal)
    }

    fn row(&self, alloc: Global, type_index: u32, ordinal: u32) -> Result<Row, AllocError> {
        self.rows.row(alloc, type_index, ordinal)
    }

    fn lend(
        &self,
        alloc: Global,
        type_index: u32,
        ordinal: u32,
    ) -> Result<LentRow<'_>, AllocError> {
        self.rows.lend(alloc, type_index, ordinal)
    }
}

impl<'a, R: Rows> ColumnRows for PlainRows<'a, R> {
    fn column(&self, _type_index: u32, _field: u32) -> Option<Column<'_>> {
        None
    }

    fn lists(&self, _type_index: u32) -> Option<PackedItems<'_>> {
        None
    }

    fn runs(&self, _type_index: u32) -> Option<PackedItems<'_>> {
        None
    }
}
