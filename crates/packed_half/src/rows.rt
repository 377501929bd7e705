//! The rows of a half, looked at where they stand.
ghost use Rattle.std.specs.Prelude.{◌≡◌, ◌^◌, ◌<◌, Some, IfOk};
ghost use Rattle.std.specs.FinMap.{get};
ghost use Rattle.row_model.specs.Table.{RowMap};
ghost use Rattle.type_rows.specs.Loads.{TellsPlace};
ghost use Rattle.packed_half.specs.Half.{behind_items, section_in};
ghost use Rattle.packed_half.specs.LaidOut.{HasRowUnder, IsLaidOut};

use crate::HalfShape;
use row_model::{PlaceFault, Row};
use schema_model::{Schema, Shape};
use std::alloc::{AllocError, Global};

/// The rows of a type in the words of a half.
#[derive(Clone, Copy)]
pub struct HalfRows<'a> {
    /// The shape of the type.
    pub shape: &'a Shape,
    /// What describes the words.
    pub half: &'a HalfShape,
    /// The words: those of the places, those of the elements or buckets, and those of the bytes.
    pub words: &'a [u64],
}

impl<'a> HalfRows<'a> {
    /// The row under a live ordinal of a half that is laid out.
    pub fn row(&self, alloc: Global, schema: &Schema, ordinal: u32) -> Result<Row, AllocError>
        requires shape { self.now.shape.now ≡ schema.now.shape }
        requires live { HasRowUnder schema.now.shape self.now.half.now self.now.words.now ordinal }
        ensures { (rows : RowMap) → IsLaidOut schema.now.shape self.now.half.now self.now.words.now rows → IfOk result (λ row. get rows ordinal ≡ Some row) }
    {
        match self.read_place(alloc, schema, u64::from(ordinal)) {
            Ok(row) => Ok(row),
            Err(PlaceFault::Memory) => Err(AllocError),
            Err(PlaceFault::Bad(_)) => unreachable!(),
        }
    }

    /// The words of the places.
    pub fn places(&self) -> &'a [u64]
        ensures { result.now ≡ (section_in self.now.shape.now self.now.half.now self.now.words.now).first }
    {
        self.cut().first
    }

    /// The words of the elements or buckets.
    pub fn items(&self) -> &'a [u64]
        ensures { result.now ≡ (section_in self.now.shape.now self.now.half.now self.now.words.now).second }
    {
        self.cut().second
    }

    /// The words of the bytes of the fields, those of each field from a word of its own on.
    pub fn bytes(&self) -> &'a [u64]
        ensures { result.now ≡ behind_items self.now.shape.now self.now.half.now self.now.words.now }
    {
        self.cut().bytes
    }

    /// The row that a place spells, by the codec of its kind.
    fn read_place(&self, alloc: Global, schema: &Schema, place: u64) -> Result<Row, PlaceFault>
        requires shape { self.now.shape.now ≡ schema.now.shape }
        requires live { HasRowUnder schema.now.shape self.now.half.now self.now.words.now place }
        requires small { place < 2 ^ 32 }
        ensures { TellsPlace schema.now.shape (section_in schema.now.shape self.now.half.now self.now.words.now) place result }
    {
        let widths = &self.half.widths;
        let total = self.half.total;
        let parts = self.cut();
        match &schema.shape {
            Shape::Object(_, _) => object_codec::read(alloc, schema, widths, total, &parts, place),
            Shape::List(_) => list_codec::read(alloc, schema, widths, total, &parts, place),
            _ => bucket_codec::read(alloc, schema, widths, total, &parts, place),
        }
    }
}
