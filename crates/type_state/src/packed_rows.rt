//! The rows of a half of a type, looked at where they stand packed.
ghost use Rattle.std.specs.Prelude.{◌≡◌, IfOk};
ghost use Rattle.std.specs.FinMap.{get, keys, values};
ghost use Rattle.type_rows.specs.Totals.{AreTotals};
ghost use Rattle.type_state.specs.Kept.{IsHalf, half_rows};

use crate::columns::{column_in, lists_in, runs_in};
use column_rows::{OneType, PackedItems, TypeColumns, TypeRows};
use object_codec::Column;
use ordinal_set::OrdinalSet;
use packed_half::{HalfRows, HalfShape, bytes_of_half};
use row_model::{LentRow, Row};
use schema_model::Schema;
use std::alloc::{AllocError, Global};
use std::marker::Model;
use type_rows::{Ends, Totals};

/// The rows of a half of a type, where they stand packed.
#[derive(Drop)]
pub struct PackedRows<'a> {
    schema: &'a Schema,
    half: &'a HalfShape,
    words: &'a [u64],
}

impl<'a> Model for PackedRows<'a> {
    ghost use Rattle.type_state.specs.PackedRows.{Standing, standing_code};
    ghost use Rattle.type_state.specs.Kept.{IsHalf, half_rows};

    ghost Value = { Standing };

    ghost coded = { standing_code };

    ghost view = { λ c. record { rows = half_rows c.schema.now.shape c.half.now c.words.now; widths = c.half.now.widths } };

    ghost invariant = { λ c. IsHalf c.schema.now.shape c.half.now c.words.now };
}

impl<'a> PackedRows<'a> {
    /// The rows of a half of the type.
    pub(crate) fn new(schema: &'a Schema, half: &'a HalfShape, words: &'a [u64]) -> PackedRows<'a>
        requires { IsHalf schema.now.shape half.now words.now }
        ensures { result ≡ record { rows = half_rows schema.now.shape half.now words.now; widths = half.now.widths } }
    {
        PackedRows {
            schema,
            half,
            words,
        }
    }

    /// The row under an ordinal, none where none stands there.
    pub(crate) fn find(&self, alloc: Global, ordinal: u32) -> Result<Option<Row>, AllocError>
        ensures { IfOk result (λ row. row ≡ get self.now.rows ordinal) }
    {
        if !self.is_live(ordinal) {
            return Ok(None);
        }
        Ok(Some(self.row(alloc, ordinal)?))
    }

    /// The live ordinals.
    pub(crate) fn live(&self) -> &'a OrdinalSet
        ensures { result.now ≡ keys self.now.rows }
    {
        &self.half.live
    }

    /// The widths of the parts of the rows.
    pub(crate) fn widths(&self) -> &'a [u32]
        ensures { result.now ≡ self.now.widths }
    {
        self.half.widths.as_slice()
    }

    /// What the rows add up to.
    pub(crate) fn totals(&self, alloc: Global) -> Result<Totals, AllocError>
        ensures { IfOk result (AreTotals (values self.now.rows)) }
    {
        let offsets = Vec::from_slice(alloc, self.half.lengths.as_slice())?;
        let ends = Ends {
            offsets,
            items: self.half.total,
        };
        Ok(Totals {
            ends,
            bytes: bytes_of_half(self.half),
        })
    }
}

impl<'a> OneType for PackedRows<'a> {
    ghost rows = { λ half. half.rows };
}

impl<'a> TypeRows<'a> for PackedRows<'a> {
    fn bound(&self) -> u32 {
        self.half.live.bound()
    }

    fn is_live(&self, ordinal: u32) -> bool {
        self.half.live.contains(ordinal)
    }

    fn row(&self, alloc: Global, ordinal: u32) -> Result<Row, AllocError> {
        let rows = HalfRows {
            shape: &self.schema.shape,
            half: self.half,
            words: self.words,
        };
        rows.row(alloc, self.schema, ordinal)
    }

    fn lend(&self, alloc: Global, ordinal: u32) -> Result<LentRow<'a>, AllocError> {
        Ok(LentRow::Made(self.row(alloc, ordinal)?))
    }
}

impl<'a> TypeColumns<'a> for PackedRows<'a> {
    fn column(&self, field: u32) -> Option<Column<'a>> {
        let rows = HalfRows {
            shape: &self.schema.shape,
            half: self.half,
            words: self.words,
        };
        column_in(rows, field)
    }

    fn lists(&self) -> Option<PackedItems<'a>> {
        let rows = HalfRows {
            shape: &self.schema.shape,
            half: self.half,
            words: self.words,
        };
        lists_in(rows)
    }

    fn runs(&self) -> Option<PackedItems<'a>> {
        let rows = HalfRows {
            shape: &self.schema.shape,
            half: self.half,
            words: self.words,
        };
        runs_in(rows)
    }
}
