//! The widths that a writer chooses, read off the sums.
ghost use Rattle.std.specs.Prelude.{◌≡◌, ◌<◌, ◌≤◌, ◌++◌, ◌∷◌, [], ◌^◌, ℕ, List, Option, IfOk, flat_map, fold, length, max, sum_by};
ghost use Rattle.schema_model.specs.declared.schema.name.Name.{Name};
ghost use Rattle.schema_model.specs.declared.schema.Shape.{Shape as AnyShape};
ghost use Rattle.row_model.specs.declared.row.Row.{Row};
ghost use Rattle.object_codec.specs.Widths.{widths_for as object_widths};
ghost use Rattle.list_codec.specs.Widths.{elements_of_row, widths_for as list_widths};
ghost use Rattle.bucket_codec.specs.Widths.{buckets_of_rows, set_widths, values_of_rows, width_for};
ghost use Rattle.row_packing.specs.Chosen.{chosen_widths};
ghost use Rattle.kept_sums.specs.Sums.{AreFew, ArePartsOf, AreSumsOf, HasBuckets, bits_at, bytes_in, most_by, part_count};

use crate::part::Part;
use crate::sums::Sums;
use bit_array::digits;
use row_model::Widths;
use row_widths::records::field_width;
use schema_model::{Field, Shape};
use std::alloc::{AllocError, Global};

impl Sums {
    /// The widths that a writer chooses for the rows, which have fewer than 2^62 bytes, and elements or buckets. No row is looked at.
    pub fn widths(&self, alloc: Global, shape: &Shape) -> Result<Widths, AllocError>
        requires { (rows : List Row) × AreSumsOf shape.now rows self.now }
        ensures { IfOk result (λ widths. (rows : List Row) → AreSumsOf shape.now rows self.now → AreFew shape.now rows → widths ≡ chosen_widths shape.now rows) }
    {
        let parts = self.parts.as_slice();
        let items = self.items.min(1 << 62) as u64;
        match shape {
            Shape::Object(_, fields) => record_widths(alloc, fields.as_slice(), parts),
            Shape::List(_) => list_widths(alloc, parts, items),
            Shape::Set(_) => set_widths(alloc, parts, items),
            Shape::Map(_, _) => map_widths(alloc, parts, items),
        }
    }
}

// Those of records with these fields.
fn record_widths(alloc: Global, fields: &[Field], parts: &[Part]) -> Result<Widths, AllocError>
    requires { length parts.now ≡ length fields.now }
    ensures { IfOk result (λ widths. (key : Option (List Name)) (rows : List Row) → ArePartsOf (AnyShape.Object key fields.now) rows parts.now → sum_by bytes_in rows < 2 ^ 62
        → widths ≡ object_widths fields.now rows) }
{
    let mut widths = Widths::new(alloc);
    for (index, field) in fields.iter().enumerate() {
        let part = &parts[index];
        widths.push(field_width(&field.kind, part.most(), part.bytes()))?;
    }
    Ok(widths)
}

// Those of lists with so many elements.
fn list_widths(alloc: Global, parts: &[Part], items: u64) -> Result<Widths, AllocError>
    requires { length parts.now ≡ 1 }
    ensures { IfOk result (λ widths. (element : Name) (rows : List Row) → ArePartsOf (AnyShape.List element) rows parts.now → items ≡ length (flat_map elements_of_row rows)
        → widths ≡ list_widths (flat_map elements_of_row rows)) }
{
    let mut widths = Widths::new(alloc);
    widths.push(digits(items).max(1))?;
    widths.push(part_width(parts, 0))?;
    Ok(widths)
}

// The width of a part that has one bit at least.
fn part_width(parts: &[Part], place: usize) -> u32
    requires { place < length parts.now }
    ensures { (shape : AnyShape) (rows : List Row) → ArePartsOf shape rows parts.now → place < part_count shape → result ≡ max 1 (most_by (bits_at shape place) rows) }
{
    parts[place].most().max(1)
}

// Those of sets, or of maps but for their values, with so many buckets.
fn set_widths(alloc: Global, parts: &[Part], items: u64) -> Result<Widths, AllocError>
    requires { 2 ≤ length parts.now }
    ensures { IfOk result (λ widths. (shape : AnyShape) (rows : List Row) → HasBuckets shape → ArePartsOf shape rows parts.now → items ≡ buckets_of_rows rows → widths ≡ set_widths rows) }
{
    let mut widths = Widths::new(alloc);
    widths.push(digits(items).max(1))?;
    widths.push(part_width(parts, 0))?;
    widths.push(part_width(parts, 1))?;
    Ok(widths)
}

// Those of maps with so many buckets.
fn map_widths(alloc: Global, parts: &[Part], items: u64) -> Result<Widths, AllocError>
    requires { length parts.now ≡ 3 }
    ensures { IfOk result (λ widths. (key value : Name) (rows : List Row) → ArePartsOf (AnyShape.Map key value) rows parts.now → items ≡ buckets_of_rows rows
        → widths ≡ set_widths rows ++ width_for (fold max 0 (values_of_rows rows)) ∷ []) }
{
    let mut widths = set_widths(alloc, parts, items)?;
    widths.push(part_width(parts, 2))?;
    Ok(widths)
}
