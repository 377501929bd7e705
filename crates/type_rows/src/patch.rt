//! One type's part of a delta, before its rows are read.
ghost use Rattle.std.specs.Prelude.{◌<◌, All, IfErr, length};
ghost use Rattle.std.specs.List.Sorted.{IsStrictlyIncreasing};
ghost use Rattle.type_rows.specs.Fails.{FailsPlace};
ghost use Rattle.type_rows.specs.Layout.{places_of};
ghost use Rattle.type_rows.specs.Loads.{TellsPlace};
ghost use Rattle.type_rows.specs.Patches.{IsReadablePatch, places_in};

use crate::place::read_place;
use hol_varint::GapList;
use row_model::{Areas, Parts, PlaceFault, Row, Widths, Words, area_byte, area_size};
use schema_model::Schema;
use std::alloc::Global;

/// One type's part of a delta, as it stands in the blob. The places are those of the added ordinals, in their order.
#[derive(Debug, Drop)]
pub struct PatchSection {
    /// The greatest ordinal that has a place in the state that the delta leads to; none where there is no place.
    pub max: Option<u32>,
    /// The widths of the parts of a row, in bits, in the blob's order.
    pub widths: Widths,
    /// How many bits of the record of an OBJECT the limit on words counts: the widths of the fields together that the schema of the type has. For
    /// the other kinds it is 0 and not used.
    pub own: u32,
    /// The number of elements or buckets; 0 for an OBJECT.
    pub total: u64,
    /// The words of the records of an OBJECT, else those of the pointers.
    pub first: Words,
    /// The words of the elements or buckets; none for an OBJECT.
    pub second: Words,
    /// The variable bytes of each field of an OBJECT; none for the other kinds.
    pub areas: Areas,
    /// The ordinals that the delta takes away. A blob of another writer may have any numbers here and in the next list.
    pub removed: GapList,
    /// The ordinals that it brings.
    pub added: GapList,
}

impl PatchSection {
    /// The row at a place, or why it spells none: place k is that of the k-th added ordinal.
    pub fn row_at(&self, alloc: Global, schema: &Schema, place: u64) -> Result<Row, PlaceFault>
        requires readable { IsReadablePatch schema.now.shape self.now }
        requires place { place < length self.now.added }
        requires rising { IsStrictlyIncreasing self.now.added }
        requires placed { All (λ ordinal. ordinal < places_of self.now.max) self.now.added }
        ensures tells { TellsPlace schema.now.shape (places_in self.now) place result }
        ensures reason { IfErr result (FailsPlace schema.now.shape (places_in self.now) place) }
    {
        read_place(alloc, schema, &self.widths, self.total, self, place)
    }
}

impl Parts for PatchSection {
    ghost first_words = { λ section. section.first };

    ghost second_words = { λ section. section.second };

    ghost area_bytes = { λ section. section.areas };

    fn first(&self) -> &[u64] {
        self.first.as_slice()
    }

    fn second(&self) -> &[u64] {
        self.second.as_slice()
    }

    fn area(&self, field: u32) -> u64 {
        area_size(&self.areas, field)
    }

    fn byte(&self, field: u32, at: u64) -> u8 {
        area_byte(&self.areas, field, at)
    }
}
