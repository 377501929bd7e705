//! Rows that are to be laid out, each asked for as its place comes.
ghost use Rattle.std.specs.Prelude.{◌≡◌, ℕ, List, Some, IsSome, IfOk, OnOk};
ghost use Rattle.std.specs.FinMap.{get};
ghost use Rattle.row_model.specs.Table.{RowMap};
ghost use Rattle.schema_model.specs.declared.schema.Shape.{Shape};
ghost use Rattle.object_codec.specs.Packing.{HasRoom, IsRowPut};
ghost use Rattle.list_codec.specs.Packing.{HasRoom as HasListRoom, elements_of_place};
ghost use Rattle.packed_half.specs.Laying.{HasRuns, HasRunRoom, IsListPut, IsRunPut};

use crate::lists::{elements_in, put_elements};
use crate::runs::put_run;
use hol_varint::Octets;
use row_model::{Row, Widths};
use schema_model::Schema;
use std::alloc::{AllocError, Global};

/// Rows by ordinal, wherever they come from.
pub trait NewRows {
    /// The rows, by ordinal.
    ghost rows: { Self → RowMap };

    /// They may be those of a type of this shape.
    ghost suits: { Self → Shape → Type 0 };

    /// The row under an ordinal that has one.
    fn new_row(&self, alloc: Global, ordinal: u32) -> Result<Row, AllocError>
        requires { IsSome (get (rows self.now) ordinal) }
        ensures { IfOk result (λ row. get (rows self.now) ordinal ≡ Some row) };

    /// Writes the record under an ordinal that has one at its place, and its bytes behind those of the fields.
    ///
    /// Memory is taken for the record and for its bytes; where it is refused, the bytes of some fields may be there.
    fn put_record(
        &self,
        alloc: Global,
        schema: &Schema,
        widths: &[u32],
        first: &mut [u64],
        areas: &mut [Octets],
        ordinal: u32,
    ) -> Result<(), AllocError>
        requires suits { suits self.now schema.now.shape }
        requires live { IsSome (get (rows self.now) ordinal) }
        requires room { HasRoom schema.now.shape widths.now first.old areas.old ordinal (get (rows self.now) ordinal) }
        ensures { OnOk result (IsRowPut schema.now.shape widths.now first.old areas.old first.new areas.new ordinal (get (rows self.now) ordinal)) }
    {
        let row = self.new_row(alloc, ordinal)?;
        object_codec::put_row(
            alloc,
            schema,
            widths,
            first,
            areas,
            u64::from(ordinal),
            Some(&row),
        )
    }

    /// Writes the list under an ordinal that has one at its place, its elements from a start on, and answers where they end.
    ///
    /// Memory is taken for the list.
    fn put_list(
        &self,
        alloc: Global,
        widths: &Widths,
        first: &mut [u64],
        second: &mut [u64],
        ordinal: u32,
        start: u64,
    ) -> Result<u64, AllocError>
        requires suits { (element : List ℕ) × suits self.now (Shape.List element) }
        requires live { IsSome (get (rows self.now) ordinal) }
        requires room { HasListRoom widths.now first.old second.old ordinal start (elements_of_place (get (rows self.now) ordinal)) }
        ensures { IfOk result (λ end. IsListPut widths.now first.old second.old first.new second.new ordinal start end (elements_of_place (get (rows self.now) ordinal))) }
    {
        let row = Some(self.new_row(alloc, ordinal)?);
        let elements = elements_in(&row);
        Ok(put_elements(widths, first, second, u64::from(ordinal), start, elements))
    }
    /// Writes the set or map under an ordinal that has one at its place, its buckets from a start on, and answers where they end.
    ///
    /// Memory is taken for the set or map.
    fn put_run(
        &self,
        alloc: Global,
        widths: &[u32],
        first: &mut [u64],
        second: &mut [u64],
        ordinal: u32,
        start: u64,
    ) -> Result<u64, AllocError>
        requires suits { (shape : Shape) × HasRuns shape × suits self.now shape }
        requires live { IsSome (get (rows self.now) ordinal) }
        requires room { HasRunRoom widths.now first.old second.old ordinal start (get (rows self.now) ordinal) }
        ensures { IfOk result (λ end. IsRunPut widths.now first.old second.old first.new second.new ordinal start end (get (rows self.now) ordinal)) }
    {
        let row = self.new_row(alloc, ordinal)?;
        Ok(put_run(widths, first, second, u64::from(ordinal), start, Some(&row)))
    }
}
