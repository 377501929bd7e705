//! What a step changed of a type.
ghost use Rattle.std.specs.Prelude.{◌≡◌, ◌<◌, Some, None, false, true, length, slice_get, IfOk, IsSomeAnd, MatchOption, OnErr, OnOk};
ghost use Rattle.std.specs.FinMap.{find};
ghost use Rattle.std.specs.Ordering.{nat_cmp};
ghost use Rattle.row_model.specs.Before.{left_rows};
ghost use Rattle.hol_history.specs.Spots.{KeepsOthers, Sets};
ghost use Rattle.hol_history.specs.Steps.{IsPart, part_names};

use crate::spots::{Spots, put_spots, take_spots};
use hol_varint::{Duplicate, List, Ordinals};
use row_model::{LeftRows, Row};
use std::alloc::{AllocError, Global};
use std::marker::Model;

/// What a step changed of a type: the rows that left, and the ordinals of those that came.
#[derive(Drop)]
pub struct Part {
    /// The ordinals that came, rising.
    came: Ordinals,
    /// The ordinals that left, rising.
    gone: Ordinals,
    /// The row of each that left.
    rows: List<Row>,
}

impl Model for Part {
    ghost use Rattle.row_model.specs.Before.{PastPart, past_code};
    ghost use Rattle.hol_history.specs.Steps.{IsPart};

    ghost Value = { PastPart };

    ghost coded = { past_code };

    ghost view = { λ p. record { came = p.came; gone = p.gone; rows = p.rows } };

    ghost invariant = { λ p. IsPart (record { came = p.came; gone = p.gone; rows = p.rows }) };
}

// Copies of the rows of a type that left.
fn rows_of<L: LeftRows>(
    alloc: Global,
    before: &L,
    type_index: u32,
    count: usize,
) -> Result<List<Row>, AllocError>
    requires { IsSomeAnd (slice_get (L.past before.now) type_index) (λ part. length part.rows ≡ count) }
    ensures { IfOk result (λ rows. IsSomeAnd (slice_get (L.past before.now) type_index) (λ part. rows ≡ part.rows)) }
{
    let mut rows = List::with_capacity(alloc, count)?;
    for index in 0..count {
        rows.push(before.left(alloc, type_index, index)?)?;
    }
    Ok(rows)
}

impl Part {
    /// A copy of what a step changed of a type.
    pub(crate) fn of<L: LeftRows>(
        alloc: Global,
        before: &L,
        type_index: u32,
    ) -> Result<Part, AllocError>
        requires { IsSomeAnd (slice_get (L.past before.now) type_index) IsPart }
        ensures { IfOk result (λ part. slice_get (L.past before.now) type_index ≡ Some part) }
    {
        let came = Vec::from_slice(alloc, before.came(type_index))?;
        let gone = Vec::from_slice(alloc, before.gone(type_index))?;
        let rows = rows_of(alloc, before, type_index, gone.len())?;
        Ok(Part {
            came: List::from_vec(came),
            gone: List::from_vec(gone),
            rows,
        })
    }

    /// Puts in what the step of a number touched of the type. Where memory is refused some of it may be in.
    pub(crate) fn put_into(
        &self,
        spots: &mut Spots,
        type_index: u32,
        number: u64,
    ) -> Result<(), AllocError>
        ensures ok { OnOk result (Sets true (part_names type_index self.now number) spots.old spots.new) }
        ensures err { OnErr result (KeepsOthers (part_names type_index self.now number) spots.old spots.new) }
    {
        put_spots(spots, type_index, self.came.as_slice(), number)?;
        put_spots(spots, type_index, self.gone.as_slice(), number)?;
        Ok(())
    }

    /// Takes out what the step of a number touched of the type.
    pub(crate) fn take_from(&self, spots: &mut Spots, type_index: u32, number: u64)
        ensures { Sets false (part_names type_index self.now number) spots.old spots.new }
    {
        take_spots(spots, type_index, self.came.as_slice(), number);
        take_spots(spots, type_index, self.gone.as_slice(), number);
    }

    /// The row that an ordinal had that left.
    pub(crate) fn left_row(&self, ordinal: u32) -> Option<&Row>
        ensures part { IsPart self.now }
        ensures row { MatchOption result (find nat_cmp ordinal (left_rows self.now) ≡ None) (λ row. find nat_cmp ordinal (left_rows self.now) ≡ Some row.now) }
    {
        match self.gone.as_slice().binary_search(&ordinal) {
            Ok(place) => Some(self.rows.get(place)),
            Err(_) => None,
        }
    }

    /// The ordinals of the rows that left, rising.
    pub fn gone(&self) -> &[u32]
        ensures part { IsPart self.now }
        ensures ordinals { result.now ≡ self.now.gone }
    {
        self.gone.as_slice()
    }

    /// The rows that left, one for each of these ordinals.
    pub fn rows(&self) -> &[Row]
        ensures { result.now ≡ self.now.rows }
    {
        self.rows.as_slice()
    }

    /// How many rows left.
    pub(crate) fn rows_left(&self) -> usize
        ensures { result ≡ length self.now.rows }
    {
        self.rows.len()
    }
}
