//! What rows add up to.
ghost use Rattle.std.specs.Prelude.{◌≡◌, ◌↔◌, ◌+◌, ◌≤◌, ℕ, [], IfOk, IsTrue, Some, length, slice_index};
ghost use Rattle.schema_model.specs.declared.limit.Limit.TheVariants.{Bytes};
ghost use Rattle.schema_model.specs.Limit.{number_of_limit};
ghost use Rattle.schema_model.specs.Parts.{shape_fields};
ghost use Rattle.type_rows.specs.Ends.{FitsBehind, IsOfKind};
ghost use Rattle.type_rows.specs.Layout.{width_count};
ghost use Rattle.type_rows.specs.Totals.{AreLess, AreMore, AreTotals, HasParts};
ghost use Rattle.type_rows.specs.WordsHeld.{row_bytes};

use crate::count::row_len;
use crate::ends::Ends;
use row_model::Row;
use schema_model::{MAX_BYTES, Shape};
use std::alloc::{AllocError, Global};

/// What some rows of a type add up to: where they end when they are laid out one behind the other, and how many variable bytes they have.
#[derive(Debug, Drop)]
pub struct Totals {
    /// Where they end: how many bytes each field has, and how many elements or buckets there are.
    pub ends: Ends,
    /// How many variable bytes they have, those of all fields together.
    pub bytes: u64,
}

impl Totals {
    /// Those of no rows. It takes no memory.
    pub fn new(alloc: Global) -> Totals
        ensures { AreTotals [] result }
    {
        Totals {
            ends: Ends {
                offsets: Vec::new(alloc),
                items: 0,
            },
            bytes: 0,
        }
    }

    /// A copy of them.
    pub fn copy(&self, alloc: Global) -> Result<Totals, AllocError>
        ensures offsets { IfOk result (λ copy. copy.ends.offsets.items ≡ self.now.ends.offsets.items) }
        ensures items { IfOk result (λ copy. copy.ends.items ≡ self.now.ends.items) }
        ensures bytes { IfOk result (λ copy. copy.bytes ≡ self.now.bytes) }
    {
        Ok(Totals {
            ends: Ends {
                offsets: Vec::from_slice(alloc, self.ends.offsets.as_slice())?,
                items: self.ends.items,
            },
            bytes: self.bytes,
        })
    }

    /// Takes off a row.
    pub fn take_off(&mut self, row: &Row)
        requires { HasParts (length self.old.ends.offsets.items) row.now }
        ensures { AreLess self.old (Some row.now) self.new }
    {
        self.ends.take_off(row);
        self.bytes = self.bytes.saturating_sub(row_len(row));
    }

    /// Lays out one row more, and tells whether each part of it fits the widths of the type and the bytes keep the limit.
    pub fn add(&mut self, shape: &Shape, widths: &[u32], row: &Row) -> bool
        requires widths { length widths.now ≡ width_count shape.now }
        requires narrow { (part : ℕ) → slice_index widths.now part ≤ 64 }
        requires long { length self.old.ends.offsets.items ≡ length (shape_fields shape.now) }
        requires kind { IsOfKind shape.now row.now }
        ensures fits { IsTrue result ↔ (FitsBehind shape.now widths.now self.old.ends.offsets.items self.old.ends.items row.now × (self.old.bytes + row_bytes row.now ≤ number_of_limit Bytes)) }
        ensures more { IsTrue result → AreMore self.old (Some row.now) self.new }
        ensures few { IsTrue result → self.new.bytes ≤ number_of_limit Bytes }
    {
        if !self.ends.add(shape, widths, row) {
            return false;
        }
        self.bytes = self.bytes.saturating_add(row_len(row));
        self.bytes <= MAX_BYTES
    }
}
