//! The rows of a type of a state, place by place, where they stand.
ghost use Rattle.std.specs.Prelude.{◌≡◌, ℕ, IfOk};
ghost use Rattle.std.specs.Option.{option_map};
ghost use Rattle.row_model.specs.Lent.{lent_row};
ghost use Rattle.row_model.specs.Table.{row_at};

use row_model::{LentRow, PlacedRows, Rows};
use std::alloc::{AllocError, Global};

/// The row of a type under an ordinal, to look at, none where no row is live there.
#[inline(always)]
fn lend_under<R: Rows>(
    alloc: Global,
    rows: &R,
    type_index: u32,
    ordinal: u32,
) -> Result<Option<LentRow<'_>>, AllocError>
    ensures { IfOk result (λ row. row_at (R.table rows.now) type_index ordinal ≡ option_map lent_row row) }
{
    if !rows.is_live(type_index, ordinal) {
        return Ok(None);
    }
    Ok(Some(rows.lend(alloc, type_index, ordinal)?))
}

/// The places of the first ordinals: place `k` is that of ordinal `k`.
#[derive(Drop)]
pub(crate) struct FirstPlaces<'a, R> {
    pub(crate) rows: &'a R,
    pub(crate) type_index: u32,
    /// How many places there are.
    pub(crate) count: u32,
}

impl<'a, R: Rows> PlacedRows for FirstPlaces<'a, R> {
    ghost use Rattle.std.specs.List.{range_with_len};
    ghost use Rattle.row_packing.specs.Places.{places_under};

    ghost places = { λ p. places_under (R.table p.rows.now) p.type_index (range_with_len 0 p.count) };

    #[tactic(auto, using(crate::proofs::PlacesLent::first_count))]
    fn count(&self) -> usize {
        self.count as usize
    }

    #[inline(always)]
    fn place(&self, alloc: Global, place: usize) -> Result<Option<LentRow<'_>>, AllocError> {
        prove!(place < self.count as usize);
        lend_under(alloc, self.rows, self.type_index, place as u32)
    }
}

/// The places of some ordinals: place `k` is that of the k-th of them.
#[derive(Drop)]
pub(crate) struct PlacesUnder<'a, R> {
    pub(crate) rows: &'a R,
    pub(crate) type_index: u32,
    pub(crate) ordinals: &'a [u32],
}

impl<'a, R: Rows> PlacedRows for PlacesUnder<'a, R> {
    ghost use Rattle.row_packing.specs.Places.{places_under};

    ghost places = { λ p. places_under (R.table p.rows.now) p.type_index p.ordinals.now };

    fn count(&self) -> usize {
        self.ordinals.len()
    }

    #[inline(always)]
    fn place(&self, alloc: Global, place: usize) -> Result<Option<LentRow<'_>>, AllocError> {
        lend_under(alloc, self.rows, self.type_index, self.ordinals[place])
    }
}
