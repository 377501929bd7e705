//! What is kept of the rows of a type.
ghost use Rattle.std.specs.Prelude.{◌≡◌, List, [], IfOk, OnOk, length};
ghost use Rattle.schema_model.specs.declared.schema.Shape.{Shape};
ghost use Rattle.row_model.specs.declared.row.Row.{Row};
ghost use Rattle.object_codec.specs.Widths.{bytes_for};
ghost use Rattle.row_packing.specs.Chosen.{chosen_total};
ghost use Rattle.kept_sums.specs.Sums.{AddsRow, AreSumsOf, TakesRow, part_count};
ghost use Rattle.kept_sums.specs.Steps.{AreAdded, AreNone, AreTaken};

use crate::part::Part;
use crate::row_parts::{bits_at, bytes_at, bytes_in, items_in};
use hol_varint::Duplicate;
use row_model::Row;
use schema_model::{MAX_BYTES, MAX_ITEMS, Shape};
use std::alloc::{AllocError, Global};
use std::marker::Model;

/// What is kept of the rows of a type: of each of their parts how many rows take so many bits in it, and its variable bytes; and all their variable bytes, and
/// elements or buckets.
#[derive(Drop)]
pub struct Sums {
    pub(crate) parts: Vec<Part>,
    pub(crate) items: u128,
    bytes: u128,
}

impl Model for Sums {
    ghost use Rattle.kept_sums.specs.Sums.{TypeSums, sums_code};

    ghost Value = { TypeSums };

    ghost coded = { sums_code };

    ghost view = { λ s. record { parts = s.parts.items; items = s.items; bytes = s.bytes } };
}

impl Sums {
    /// Those of no rows of a type.
    #[tactic(auto, using(crate::proofs::Summing::none_sums))]
    pub fn new(alloc: Global, shape: &Shape) -> Result<Sums, AllocError>
        ensures { IfOk result (AreSumsOf shape.now []) }
    {
        Ok(Sums {
            parts: no_parts(alloc, part_count(shape))?,
            items: 0,
            bytes: 0,
        })
    }

    /// A row comes. It is looked at once. Sums that no memory can hold are refused as memory is; after a refusal they are no sums of rows.
    #[tactic(auto, using(crate::proofs::Summing::adds_row))]
    pub fn add(&mut self, shape: &Shape, row: &Row) -> Result<(), AllocError>
        ensures { OnOk result (AddsRow shape.now row.now self.old self.new) }
    {
        add_parts(&mut self.parts, shape, row)?;
        self.items = self
            .items
            .checked_add(items_in(shape, row))
            .ok_or(AllocError)?;
        self.bytes = self.bytes.checked_add(bytes_in(row)?).ok_or(AllocError)?;
        Ok(())
    }

    /// A row goes that was among them. It is looked at once.
    #[tactic(auto, using(crate::proofs::Summing::takes_row))]
    pub fn take(&mut self, shape: &Shape, row: &Row) -> Result<(), AllocError>
        ensures { OnOk result (TakesRow shape.now row.now self.old self.new) }
    {
        take_parts(&mut self.parts, shape, row)?;
        self.items = self.items.saturating_sub(items_in(shape, row));
        self.bytes = self.bytes.saturating_sub(bytes_in(row)?);
        Ok(())
    }

    /// The number of the elements or buckets of the rows, or one more than the limit where they are more.
    #[tactic(auto, using(crate::proofs::Parts::total_is))]
    pub fn total(&self) -> u64
        ensures { (shape : Shape) (rows : List Row) → AreSumsOf shape rows self.now → result ≡ chosen_total shape rows }
    {
        self.items.min(u128::from(MAX_ITEMS + 1)) as u64
    }

    /// The number of the variable bytes of the rows, or one more than the limit where they are more.
    #[tactic(auto, using(crate::proofs::Parts::bytes_are))]
    pub fn bytes(&self) -> u64
        ensures { (shape : Shape) (rows : List Row) → AreSumsOf shape rows self.now → result ≡ bytes_for rows }
    {
        self.bytes.min(u128::from(MAX_BYTES + 1)) as u64
    }
}

impl Duplicate for Sums {
    fn copy(&self, alloc: Global) -> Result<Sums, AllocError> {
        Ok(Sums {
            parts: Part::copy_all(alloc, self.parts.as_slice())?,
            items: self.items,
            bytes: self.bytes,
        })
    }
}

// How many parts the rows of a type have.
fn part_count(shape: &Shape) -> usize
    ensures { result ≡ part_count shape.now }
{
    match shape {
        Shape::Object(_, fields) => fields.len(),
        Shape::List(_) => 1,
        Shape::Set(_) => 2,
        Shape::Map(_, _) => 3,
    }
}

// The sums of no rows, of so many parts.
#[tactic(auto, using(crate::proofs::Summing::none_start, crate::proofs::Summing::none_more))]
fn no_parts(alloc: Global, count: usize) -> Result<Vec<Part>, AllocError>
    ensures { IfOk result (λ parts. AreNone count parts.items) }
{
    let mut parts = Vec::new(alloc);
    for _part in 0..count {
        parts.push(Part::new(alloc)?)?;
    }
    Ok(parts)
}

// A row comes in each part.
fn add_parts(parts: &mut Vec<Part>, shape: &Shape, row: &Row) -> Result<(), AllocError>
    ensures { OnOk result (AreAdded shape.now row.now (length parts.old.items) parts.old.items parts.new.items) }
{
    for part in 0..parts.len() {
        let bytes = bytes_at(part, row)?;
        parts[part].add(bits_at(shape, part, row), bytes)?;
    }
    Ok(())
}

// A row goes in each part.
fn take_parts(parts: &mut Vec<Part>, shape: &Shape, row: &Row) -> Result<(), AllocError>
    ensures { OnOk result (AreTaken shape.now row.now (length parts.old.items) parts.old.items parts.new.items) }
{
    for part in 0..parts.len() {
        let bytes = bytes_at(part, row)?;
        parts[part].take(bits_at(shape, part, row), bytes);
    }
    Ok(())
}
