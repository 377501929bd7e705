//! The rows that a patch moves others to, as differences from these.
ghost use Rattle.std.specs.Prelude.{◌≡◌, ◌↔◌, ◌<◌, None, Some, Contains, IfOk, IsFalse, IsSome, IsTrue, MatchOption, OnOk, length, slice_get, sum};
ghost use Rattle.std.specs.FinMap.{find, get};
ghost use Rattle.std.specs.List.Sorted.{IsStrictlyIncreasing};
ghost use Rattle.std.specs.Ordering.{nat_cmp};
ghost use Rattle.list_codec.specs.ListPlace.{IsList};
ghost use Rattle.list_codec.specs.Packing.{HasRoom as HasListRoom, elements_of_place};
ghost use Rattle.object_codec.specs.Packing.{HasRoom, IsRowPut};
ghost use Rattle.packed_half.specs.Laying.{IsListPut};
ghost use Rattle.type_rows.specs.Patches.{places_in};
ghost use Rattle.type_rows.specs.Rows.{row_in};
ghost use Rattle.type_state.specs.Differences.{AreApart, IsAddedAt, added_of, removed_of, rows_with};

use crate::packed_rows::PackedRows;
use bit_array::total_width;
use column_rows::TypeRows;
use hol_varint::Octets;
use list_codec::{ListRows, copy_list};
use record_copies::{RecordPlace, SectionRecords, copy_record};
use row_model::{PlaceFault, Row, Widths};
use schema_model::Schema;
use std::alloc::{AllocError, Global};
use type_rows::PatchSection;

/// In what the rows that a patch moves others to differ from these: the patch, which is lent.
#[derive(Clone, Copy)]
pub(crate) struct Differences<'s, 'p> {
    /// The schema of the type.
    pub(crate) schema: &'s Schema,
    /// The patch: under the ordinals that it removes no row stands, and under those that it adds the rows of its places.
    pub(crate) patch: &'p PatchSection,
}

/// The place of an ordinal among some that rise, if it is one of them.
fn place_among(ordinals: &[u64], ordinal: u32) -> Option<u64>
    requires { IsStrictlyIncreasing ordinals.now }
    ensures { MatchOption result (Contains ordinals.now ordinal → ⊥) (λ place. slice_get ordinals.now place ≡ Some ordinal) }
{
    match ordinals.binary_search(&u64::from(ordinal)) {
        Ok(place) => Some(place as u64),
        Err(_) => None,
    }
}

impl Differences<'_, '_> {
    /// Whether the patch removes an ordinal.
    fn is_removed(&self, ordinal: u32) -> bool
        requires { AreApart self.now }
        ensures gone { IsTrue result → find nat_cmp ordinal (removed_of self.now) ≡ Some None }
        ensures stays { IsFalse result → find nat_cmp ordinal (removed_of self.now) ≡ None }
    {
        place_among(self.patch.removed.as_slice(), ordinal).is_some()
    }

    /// The place in the patch of the row that it adds under an ordinal, if it does.
    pub(crate) fn place_of(&self, ordinal: u32) -> Option<u64>
        requires { AreApart self.now }
        ensures { MatchOption result (find nat_cmp ordinal (added_of self.now) ≡ None) (IsAddedAt self.now ordinal) }
    {
        place_among(self.patch.added.as_slice(), ordinal)
    }

    /// The row of a place of the patch.
    pub(crate) fn row(&self, alloc: Global, place: u64) -> Result<Row, AllocError>
        requires apart { AreApart self.now }
        requires inside { place < length self.now.patch.now.added }
        ensures { IfOk result (λ row. row ≡ row_in self.now.schema.now.shape (places_in self.now.patch.now) place) }
    {
        match self.patch.row_at(alloc, self.schema, place) {
            Ok(row) => Ok(row),
            Err(PlaceFault::Bad(_)) => unreachable!(),
            Err(PlaceFault::Memory) => Err(AllocError),
        }
    }

    /// Copies the record of a place of the patch to a place in other words, and its bytes behind those of the fields.
    ///
    /// Memory is taken for the bytes alone; where it is refused, those of some fields may be there.
    pub(crate) fn copy_record(
        &self,
        alloc: Global,
        there: u64,
        here: RecordPlace<'_>,
        first: &mut [u64],
        areas: &mut [Octets],
    ) -> Result<(), AllocError>
        requires apart { AreApart self.now }
        requires inside { there < length self.now.patch.now.added }
        requires size { here.size ≡ sum here.widths.now }
        requires room { HasRoom self.now.schema.now.shape here.widths.now first.old areas.old here.place (Some (row_in self.now.schema.now.shape (places_in self.now.patch.now) there)) }
        ensures { OnOk result (IsRowPut self.now.schema.now.shape here.entry.widths.now first.old areas.old first.new areas.new here.entry.place (Some (row_in self.now.schema.now.shape (places_in self.now.patch.now) there))) }
    {
        let widths = self.patch.widths.as_slice();
        let size = total_width(widths) as u64;
        let from = SectionRecords {
            first: self.patch.first.as_slice(),
            areas: self.patch.areas.as_slice(),
        };
        let place_there = RecordPlace {
            widths,
            size,
            place: there,
        };
        copy_record(alloc, self.schema, &from, place_there, here, first, areas)
    }

    /// Copies the list of a place of the patch to a place in other words, its elements from a start on, and answers where they end.
    /// It takes no memory.
    pub(crate) fn copy_list(
        &self,
        widths: &Widths,
        first: &mut [u64],
        second: &mut [u64],
        there: u64,
        place: u64,
        start: u64,
    ) -> u64
        requires apart { AreApart self.now }
        requires list { IsList self.now.schema.now.shape }
        requires inside { there < length self.now.patch.now.added }
        requires room { HasListRoom widths.now first.old second.old place start (elements_of_place (Some (row_in self.now.schema.now.shape (places_in self.now.patch.now) there))) }
        ensures { IsListPut widths.now first.old second.old first.new second.new place start result (elements_of_place (Some (row_in self.now.schema.now.shape (places_in self.now.patch.now) there))) }
    {
        let lists = ListRows {
            widths: self.patch.widths.as_slice(),
            total: self.patch.total,
            first: self.patch.first.as_slice(),
            second: self.patch.second.as_slice(),
        };
        match lists.elements(there) {
            Some(elements) => copy_list(elements, widths.as_slice(), first, second, place, start),
            None => unreachable!(),
        }
    }

    /// Whether a row stands under an ordinal. It takes no memory.
    pub(crate) fn is_live(&self, rows: &PackedRows<'_>, ordinal: u32) -> bool
        requires { AreApart self.now }
        ensures { IsTrue result ↔ IsSome (get (rows_with rows.now.rows self.now) ordinal) }
    {
        if self.place_of(ordinal).is_some() {
            return true;
        }
        !self.is_removed(ordinal) && rows.is_live(ordinal)
    }

    /// Whether a row stands under an ordinal, which is looked for first at a place of those that are removed. It takes no memory.
    pub(crate) fn is_live_at(&self, rows: &PackedRows<'_>, place: usize, ordinal: u32) -> bool
        requires { AreApart self.now }
        ensures { IsTrue result ↔ IsSome (get (rows_with rows.now.rows self.now) ordinal) }
    {
        if let Some(removed) = self.patch.removed.as_slice().get(place) {
            if *removed == u64::from(ordinal) {
                return false;
            }
        }
        self.is_live(rows, ordinal)
    }

    /// The row that stands under an ordinal, if there is one.
    pub(crate) fn find(
        &self,
        alloc: Global,
        rows: &PackedRows<'_>,
        ordinal: u32,
    ) -> Result<Option<Row>, AllocError>
        requires { AreApart self.now }
        ensures { IfOk result (λ row. row ≡ get (rows_with rows.now.rows self.now) ordinal) }
    {
        if let Some(place) = self.place_of(ordinal) {
            return Ok(Some(self.row(alloc, place)?));
        }
        if self.is_removed(ordinal) {
            return Ok(None);
        }
        rows.find(alloc, ordinal)
    }
}
