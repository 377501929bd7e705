//! The records and lists of a half that is kept, each copied to a place of other words as it stands.
ghost use Rattle.std.specs.Prelude.{◌≡◌, IsSome, OnOk, map, sum};
ghost use Rattle.std.specs.FinMap.{get};
ghost use Rattle.object_codec.specs.Packing.{HasRoom, IsRowPut};
ghost use Rattle.list_codec.specs.ListPlace.{IsList};
ghost use Rattle.list_codec.specs.Packing.{HasRoom as HasListRoom, elements_of_place};
ghost use Rattle.packed_half.specs.Half.{section_in};
ghost use Rattle.packed_half.specs.Laying.{HasRuns, HasRunRoom, IsListPut, IsRunPut};
ghost use Rattle.object_codec.specs.Bytes.{bytes_of};
ghost use Rattle.type_state.specs.Kept.{IsHalf, half_rows};
ghost use Rattle.type_state.specs.KeptRecords.{AreKept, kept_rows};

use bit_array::total_width;
use bucket_codec::{BucketRows, copy_buckets};
use hol_varint::Octets;
use list_codec::{ListRows, copy_list};
use object_codec::{PackedBytes, put_row};
use packed_half::{HalfRows, HalfShape};
use record_copies::{RecordPlace, WordRecords, copy_record};
use row_model::Widths;
use schema_model::{Schema, Shape};
use std::alloc::{AllocError, Global};

/// The records of a half that is kept.
#[derive(Clone, Copy)]
pub(crate) struct KeptRecords<'a> {
    /// The shape of their type.
    pub(crate) shape: &'a Shape,
    /// What describes the words of the half.
    pub(crate) half: &'a HalfShape,
    /// The words of the half.
    pub(crate) words: &'a [u64],
    /// The records where they stand in the words.
    pub(crate) records: WordRecords<'a>,
    /// The elements of lists where they stand in the words.
    pub(crate) second: &'a [u64],
}

impl<'a> KeptRecords<'a> {
    /// The records of a half, the bytes of whose fields stand here.
    pub(crate) fn new(current: &'a HalfRows<'a>, areas: &'a [PackedBytes<'a>]) -> KeptRecords<'a>
        requires half { IsHalf current.now.shape.now current.now.half.now current.now.words.now }
        requires bytes { map bytes_of areas.now ≡ (section_in current.now.shape.now current.now.half.now current.now.words.now).areas }
        ensures kept { AreKept result }
        ensures shape { result.shape.now ≡ current.now.shape.now }
        ensures half { result.half.now ≡ current.now.half.now }
        ensures rows { kept_rows result ≡ half_rows current.now.shape.now current.now.half.now current.now.words.now }
    {
        let records = WordRecords {
            first: current.places(),
            areas,
        };
        KeptRecords {
            shape: current.shape,
            half: current.half,
            words: current.words,
            records,
            second: current.items(),
        }
    }

    /// Copies the record under a live ordinal to its place in other words, and its bytes behind those of the fields.
    ///
    /// Memory is taken for the bytes alone; where it is refused, those of some fields may be there.
    pub(crate) fn copy_record(
        self,
        alloc: Global,
        schema: &Schema,
        widths: &[u32],
        first: &mut [u64],
        areas: &mut [Octets],
        ordinal: u32,
    ) -> Result<(), AllocError>
        requires kept { AreKept self }
        requires shape { self.shape.now ≡ schema.now.shape }
        requires live { IsSome (get (kept_rows self) ordinal) }
        requires room { HasRoom schema.now.shape widths.now first.old areas.old ordinal (get (kept_rows self) ordinal) }
        ensures { OnOk result (IsRowPut schema.now.shape widths.now first.old areas.old first.new areas.new ordinal (get (kept_rows self.entry) ordinal)) }
    {
        let place = u64::from(ordinal);
        let widths_there = self.half.widths.as_slice();
        let size_there = total_width(widths_there) as u64;
        let size = total_width(widths) as u64;
        let there = RecordPlace {
            widths: widths_there,
            size: size_there,
            place,
        };
        let here = RecordPlace {
            widths,
            size,
            place,
        };
        copy_record(alloc, schema, &self.records, there, here, first, areas)
    }

    /// Copies the record under a live ordinal, whose width in bits is given, to a place in other words, and its bytes behind those of the fields.
    ///
    /// Memory is taken for the bytes alone; where it is refused, those of some fields may be there.
    #[inline(always)]
    pub(crate) fn copy_to(
        self,
        alloc: Global,
        schema: &Schema,
        size_there: u64,
        here: RecordPlace<'_>,
        first: &mut [u64],
        areas: &mut [Octets],
        ordinal: u32,
    ) -> Result<(), AllocError>
        requires kept { AreKept self }
        requires shape { self.shape.now ≡ schema.now.shape }
        requires live { IsSome (get (kept_rows self) ordinal) }
        requires size_there { size_there ≡ sum self.half.now.widths }
        requires size { here.size ≡ sum here.widths.now }
        requires room { HasRoom schema.now.shape here.widths.now first.old areas.old here.place (get (kept_rows self) ordinal) }
        ensures { OnOk result (IsRowPut schema.now.shape here.entry.widths.now first.old areas.old first.new areas.new here.entry.place (get (kept_rows self.entry) ordinal)) }
    {
        let there = RecordPlace {
            widths: self.half.widths.as_slice(),
            size: size_there,
            place: u64::from(ordinal),
        };
        copy_record(alloc, schema, &self.records, there, here, first, areas)
    }

    /// Copies the record of a place, whose width in bits is given, to the same place in other words, and its bytes behind those of the fields. Where
    /// no row is live the place is written as an empty one.
    ///
    /// Memory is taken for the bytes alone; where it is refused, those of some fields may be there.
    #[inline(always)]
    pub(crate) fn copy_place(
        self,
        alloc: Global,
        schema: &Schema,
        size_there: u64,
        here: RecordPlace<'_>,
        first: &mut [u64],
        areas: &mut [Octets],
    ) -> Result<(), AllocError>
        requires kept { AreKept self }
        requires shape { self.shape.now ≡ schema.now.shape }
        requires size_there { size_there ≡ sum self.half.now.widths }
        requires size { here.size ≡ sum here.widths.now }
        requires room { HasRoom schema.now.shape here.widths.now first.old areas.old here.place (get (kept_rows self) here.place) }
        ensures { OnOk result (IsRowPut schema.now.shape here.entry.widths.now first.old areas.old first.new areas.new here.entry.place (get (kept_rows self.entry) here.entry.place)) }
    {
        let ordinal = here.place as u32;
        if self.half.live.contains(ordinal) {
            let there = RecordPlace {
                widths: self.half.widths.as_slice(),
                size: size_there,
                place: here.place,
            };
            return copy_record(alloc, schema, &self.records, there, here, first, areas);
        }
        put_row(alloc, schema, here.widths, first, areas, here.place, None)
    }

    /// Copies the list under a live ordinal to its place in other words, its elements from a start on, and answers where they end. It takes no
    /// memory.
    pub(crate) fn copy_list(
        self,
        widths: &Widths,
        first: &mut [u64],
        second: &mut [u64],
        ordinal: u32,
        start: u64,
    ) -> u64
        requires kept { AreKept self }
        requires list { IsList self.shape.now }
        requires live { IsSome (get (kept_rows self) ordinal) }
        requires room { HasListRoom widths.now first.old second.old ordinal start (elements_of_place (get (kept_rows self) ordinal)) }
        ensures { IsListPut widths.now first.old second.old first.new second.new ordinal start result (elements_of_place (get (kept_rows self.entry) ordinal)) }
    {
        let place = u64::from(ordinal);
        let there = self.half.widths.as_slice();
        let lists = ListRows {
            widths: there,
            total: self.half.total,
            first: self.records.first,
            second: self.second,
        };
        match lists.elements(place) {
            Some(elements) => copy_list(elements, widths.as_slice(), first, second, place, start),
            None => unreachable!(),
        }
    }
    /// Copies the set or map under a live ordinal to a place in other words, its buckets from a start on, and answers where they end. It takes no
    /// memory.
    #[inline(always)]
    pub(crate) fn copy_run(
        self,
        widths: &[u32],
        first: &mut [u64],
        second: &mut [u64],
        ordinal: u32,
        place: u64,
        start: u64,
    ) -> u64
        requires kept { AreKept self }
        requires runs { HasRuns self.shape.now }
        requires live { IsSome (get (kept_rows self) ordinal) }
        requires room { HasRunRoom widths.now first.old second.old place start (get (kept_rows self) ordinal) }
        ensures { IsRunPut widths.now first.old second.old first.new second.new place start result (get (kept_rows self.entry) ordinal) }
    {
        let there = u64::from(ordinal);
        let runs = BucketRows {
            widths: self.half.widths.as_slice(),
            total: self.half.total,
            first: self.records.first,
            second: self.second,
        };
        match runs.buckets(there) {
            Some(buckets) => copy_buckets(
                buckets,
                runs.size(there),
                widths,
                first,
                second,
                place,
                start,
            ),
            None => unreachable!(),
        }
    }
}
