//! Where the rows of a type end, as they are laid out one behind the other.
ghost use Rattle.std.specs.Prelude.{◌≡◌, ◌↔◌, ◌+◌, ◌-◌, ◌≤◌, ℕ, IfOk, length, slice_index, IsTrue};
ghost use Rattle.schema_model.specs.Parts.{shape_fields};
ghost use Rattle.type_rows.specs.Layout.{width_count, items_of_row};
ghost use Rattle.type_rows.specs.WordsHeld.{part_bytes};
ghost use Rattle.type_rows.specs.Ends.{FitsBehind, IsOfKind};
ghost use Rattle.type_rows.specs.Totals.{HasParts};

use crate::count::buckets;
use crate::fits::{add_values, take_values};
use crate::items::{add_list, add_map, add_set};
use row_model::Row;
use schema_model::Shape;
use std::alloc::{AllocError, Global};

/// Where some rows of a type end, when they are laid out one behind the other.
#[derive(Debug, Drop)]
pub struct Ends {
    /// The end offset of each field of an OBJECT, in bytes; none of the other kinds.
    pub offsets: Vec<u64>,
    /// The elements of a LIST, or the buckets of a SET or MAP; 0 for an OBJECT.
    pub items: u64,
}

impl Ends {
    /// Where no rows of a type of this shape end.
    pub fn new(alloc: Global, shape: &Shape) -> Result<Ends, AllocError>
        ensures zero { IfOk result (λ ends. (field : ℕ) → slice_index ends.offsets.items field ≡ 0) }
        ensures long { IfOk result (λ ends. length ends.offsets.items ≡ length (shape_fields shape.now)) }
        ensures none { IfOk result (λ ends. ends.items ≡ 0) }
    {
        let fields = shape.fields();
        Ok(Ends {
            offsets: vec![in alloc; 0u64; fields.len()]?,
            items: 0,
        })
    }

    /// Lays out one row more, and tells whether each part of it fits the widths of the type.
    pub fn add(&mut self, shape: &Shape, widths: &[u32], row: &Row) -> bool
        requires widths { length widths.now ≡ width_count shape.now }
        requires narrow { (part : ℕ) → slice_index widths.now part ≤ 64 }
        requires long { length self.old.offsets.items ≡ length (shape_fields shape.now) }
        requires kind { IsOfKind shape.now row.now }
        ensures fits { IsTrue result ↔ FitsBehind shape.now widths.now self.old.offsets.items self.old.items row.now }
        ensures offsets { IsTrue result → (field : ℕ) → slice_index self.new.offsets.items field ≡ slice_index self.old.offsets.items field + part_bytes field row.now }
        ensures items { IsTrue result → self.new.items ≡ self.old.items + items_of_row row.now }
        ensures long { length self.new.offsets.items ≡ length self.old.offsets.items }
    {
        match (shape, row) {
            (Shape::Object(_, fields), Row::Object(values)) => {
                add_values(
                    fields.as_slice(),
                    widths,
                    values.as_slice(),
                    &mut self.offsets,
                )
            }
            (Shape::List(_), Row::List(ordinals)) => {
                add_list(widths, ordinals.as_slice(), &mut self.items)
            }
            (Shape::Set(_), Row::Set(ordinals)) => {
                add_set(widths, ordinals.as_slice(), &mut self.items)
            }
            (Shape::Map(_, _), Row::Map(pairs)) => {
                add_map(widths, pairs.as_slice(), &mut self.items)
            }
            _ => false,
        }
    }

    /// Takes off a row that is laid out.
    pub(crate) fn take_off(&mut self, row: &Row)
        requires { HasParts (length self.old.offsets.items) row.now }
        ensures offsets { (field : ℕ) → slice_index self.new.offsets.items field ≡ slice_index self.old.offsets.items field - part_bytes field row.now }
        ensures items { self.new.items ≡ self.old.items - items_of_row row.now }
        ensures long { length self.new.offsets.items ≡ length self.old.offsets.items }
    {
        match row {
            Row::Object(values) => take_values(values.as_slice(), &mut self.offsets),
            Row::List(ordinals) => self.take_items(ordinals.len() as u64),
            Row::Set(ordinals) => self.take_items(buckets(ordinals.len())),
            Row::Map(pairs) => self.take_items(buckets(pairs.len())),
        }
    }

    /// Takes off the items of a row.
    fn take_items(&mut self, items: u64)
        ensures items { self.new.items ≡ self.old.items - items }
        ensures offsets { self.new.offsets ≡ self.old.offsets }
    {
        self.items = self.items.saturating_sub(items);
    }
}
