//! The rows that a patch moves others to: each made as it is asked for, and its record or list copied from where it stands, a set or map that stays too.
ghost use Rattle.std.specs.Prelude.{◌≡◌};
ghost use Rattle.type_state.specs.Differences.{AreApart, rows_with};
ghost use Rattle.type_state.specs.KeptRecords.{AreKept, kept_rows};

use crate::differences::Differences;
use crate::kept_records::KeptRecords;
use crate::packed_rows::PackedRows;
use bit_array::total_width;
use hol_varint::Octets;
use packed_half::{NewRows, put_run};
use record_copies::RecordPlace;
use row_model::{Row, Widths};
use schema_model::Schema;
use std::alloc::{AllocError, Global};
use std::marker::Model;

/// The current rows with differences.
#[derive(Drop)]
pub(crate) struct MovedRows<'a> {
    rows: &'a PackedRows<'a>,
    records: KeptRecords<'a>,
    differences: Differences<'a, 'a>,
}

impl<'a> Model for MovedRows<'a> {
    ghost use Rattle.std.specs.Prelude.{◌≡◌};
    ghost use Rattle.type_state.specs.Differences.{AreApart, rows_with};
    ghost use Rattle.type_state.specs.KeptRecords.{AreKept, TypedRows, kept_rows, typed_code};

    ghost Value = { TypedRows };

    ghost coded = { typed_code };

    ghost view = { λ m. record { shape = m.records.shape.now; rows = rows_with m.rows.now.rows m.differences } };

    ghost invariant = { λ m. AreApart m.differences × (m.differences.schema.now.shape ≡ m.records.shape.now) × AreKept m.records × (kept_rows m.records ≡ m.rows.now.rows) };
}

impl<'a> MovedRows<'a> {
    /// These rows, whose records stand here, with these differences.
    pub(crate) fn new(
        rows: &'a PackedRows<'a>,
        records: KeptRecords<'a>,
        differences: Differences<'a, 'a>,
    ) -> MovedRows<'a>
        requires apart { AreApart differences }
        requires of { differences.schema.now.shape ≡ records.shape.now }
        requires kept { AreKept records }
        requires same { kept_rows records ≡ rows.now.rows }
        ensures shape { result.shape ≡ records.entry.shape.now }
        ensures rows { result.rows ≡ rows_with rows.now.rows differences.entry }
    {
        MovedRows {
            rows,
            records,
            differences,
        }
    }
}

impl NewRows for MovedRows<'_> {
    ghost rows = { λ m. m.rows };

    ghost suits = { λ m shape. m.shape ≡ shape };

    fn new_row(&self, alloc: Global, ordinal: u32) -> Result<Row, AllocError> {
        match self.differences.find(alloc, self.rows, ordinal)? {
            Some(row) => Ok(row),
            None => unreachable!(),
        }
    }

    fn put_record(
        &self,
        alloc: Global,
        schema: &Schema,
        widths: &[u32],
        first: &mut [u64],
        areas: &mut [Octets],
        ordinal: u32,
    ) -> Result<(), AllocError> {
        let place = u64::from(ordinal);
        match self.differences.place_of(ordinal) {
            Some(there) => {
                let size = total_width(widths) as u64;
                let here = RecordPlace {
                    widths,
                    size,
                    place,
                };
                self.differences
                    .copy_record(alloc, there, here, first, areas)
            }
            None => self
                .records
                .copy_record(alloc, schema, widths, first, areas, ordinal),
        }
    }

    fn put_list(
        &self,
        _alloc: Global,
        widths: &Widths,
        first: &mut [u64],
        second: &mut [u64],
        ordinal: u32,
        start: u64,
    ) -> Result<u64, AllocError> {
        let place = u64::from(ordinal);
        Ok(match self.differences.place_of(ordinal) {
            Some(there) => self
                .differences
                .copy_list(widths, first, second, there, place, start),
            None => self
                .records
                .copy_list(widths, first, second, ordinal, start),
        })
    }

    fn put_run(
        &self,
        alloc: Global,
        widths: &[u32],
        first: &mut [u64],
        second: &mut [u64],
        ordinal: u32,
        start: u64,
    ) -> Result<u64, AllocError> {
        let place = u64::from(ordinal);
        Ok(match self.differences.place_of(ordinal) {
            Some(there) => {
                let row = self.differences.row(alloc, there)?;
                put_run(widths, first, second, place, start, Some(&row))
            }
            None => self
                .records
                .copy_run(widths, first, second, ordinal, place, start),
        })
    }
}
