//! One type's part of a snapshot, before its rows are read.
use ordinal_set::OrdinalSet;
use row_model::{Areas, Parts, Widths, Words, area_byte, area_size};

/// One type's part of a snapshot, as it stands in the blob.
#[derive(Debug, Drop)]
pub struct Section {
    /// The greatest ordinal that has a place; none where there is no place.
    pub max: Option<u32>,
    /// The widths of the parts of a row, in bits, in the blob's order.
    pub widths: Widths,
    /// The number of elements or buckets; 0 for an OBJECT.
    pub total: u64,
    /// The words of the records of an OBJECT, else those of the pointers.
    pub first: Words,
    /// The words of the elements or buckets; none for an OBJECT.
    pub second: Words,
    /// The variable bytes of each field of an OBJECT; none for the other kinds.
    pub areas: Areas,
    /// The live ordinals.
    pub live: OrdinalSet,
}

impl Parts for Section {
    ghost first_words = { λ section. section.first };

    ghost second_words = { λ section. section.second };

    ghost area_bytes = { λ section. section.areas };

    fn first(&self) -> &[u64] {
        self.first.as_slice()
    }

    fn second(&self) -> &[u64] {
        self.second.as_slice()
    }

    fn area(&self, field: u32) -> u64 {
        area_size(&self.areas, field)
    }

    fn byte(&self, field: u32, at: u64) -> u8 {
        area_byte(&self.areas, field, at)
    }
}
