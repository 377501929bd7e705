//! What is chosen for a type over the rows of two states.
ghost use Rattle.std.specs.Prelude.{◌≡◌, ◌<◌, ℕ, length, slice_get, IfOk, Some};
ghost use Rattle.row_model.specs.BothStates.{rows_of_both};
ghost use Rattle.row_packing.specs.Chosen.{shape_at, chosen_widths, chosen_total, IsGreatestOrdinal, KeepsCounts, IsChosen};

use hol_varint::Duplicate;
use row_model::{Rows, Widths};
use row_widths::{buckets, lists, records};
use schema_model::Shape;
use std::alloc::{AllocError, Global};

/// What a writer chooses for a type: how its places are laid out in a blob.
#[derive(Debug, Drop)]
pub struct Chosen {
    /// The greatest ordinal that has a place; none where there is no place.
    pub max: Option<u32>,
    /// The widths of the parts of a row, in bits, in the blob's order.
    pub widths: Widths,
    /// The number of elements or buckets; 0 for an OBJECT.
    pub total: u64,
}

impl Duplicate for Chosen {
    fn copy(&self, alloc: Global) -> Result<Chosen, AllocError> {
        Ok(Chosen {
            max: self.max,
            widths: self.widths.copy(alloc)?,
            total: self.total,
        })
    }
}

/// What is chosen for a type over the rows of an old and a new state of one model, a row that both have counted once: the greatest ordinal,
/// and the widths and the total of the kind.
pub fn choose<A: Rows, B: Rows>(
    alloc: Global,
    old: &A,
    new: &B,
    type_index: u32,
) -> Result<Chosen, AllocError>
    requires model { A.schemas old.now ≡ B.schemas new.now }
    requires known { type_index < length (B.schemas new.now) }
    requires keeps { KeepsCounts (shape_at (B.schemas new.now) type_index) (A.table old.now) (B.table new.now) type_index }
    ensures { IfOk result (λ chosen. IsChosen (shape_at (B.schemas new.now) type_index) (A.table old.now) (B.table new.now) type_index chosen) }
{
    // The rows of both states are those of their one model.
    let (_, _) = (old.model(), new.model());
    Ok(Chosen {
        max: greatest_ordinal(old, new, type_index),
        widths: widths(alloc, old, new, type_index)?,
        total: total(alloc, old, new, type_index)?,
    })
}

/// The greatest ordinal of a row of either state, none where neither has one.
pub fn greatest_ordinal<A: Rows, B: Rows>(old: &A, new: &B, type_index: u32) -> Option<u32>
    ensures { IsGreatestOrdinal (A.table old.now) (B.table new.now) type_index result }
{
    old.bound(type_index)
        .max(new.bound(type_index))
        .checked_sub(1)
}

/// The widths for the rows of both states, by the codec of the kind.
pub(crate) fn widths<A: Rows, B: Rows>(
    alloc: Global,
    old: &A,
    new: &B,
    type_index: u32,
) -> Result<Widths, AllocError>
    requires model { A.schemas old.now ≡ B.schemas new.now }
    requires known { type_index < length (B.schemas new.now) }
    requires keeps { KeepsCounts (shape_at (B.schemas new.now) type_index) (A.table old.now) (B.table new.now) type_index }
    ensures { IfOk result (λ widths. widths ≡ chosen_widths (shape_at (B.schemas new.now) type_index) (rows_of_both (A.table old.now) (B.table new.now) type_index)) }
{
    match &new.model().schema(type_index).shape {
        Shape::Object(_, _) => records::widths(alloc, old, new, type_index),
        Shape::List(_) => lists::widths(alloc, old, new, type_index),
        _ => buckets::widths(alloc, old, new, type_index),
    }
}

/// The total of the elements or buckets of the rows of both states, or one more than the limit where it is more; 0 for an OBJECT.
pub(crate) fn total<A: Rows, B: Rows>(
    alloc: Global,
    old: &A,
    new: &B,
    type_index: u32,
) -> Result<u64, AllocError>
    requires known { type_index < length (B.schemas new.now) }
    ensures { IfOk result (λ total. total ≡ chosen_total (shape_at (B.schemas new.now) type_index) (rows_of_both (A.table old.now) (B.table new.now) type_index)) }
{
    match &new.model().schema(type_index).shape {
        Shape::Object(_, _) => Ok(0),
        Shape::List(_) => lists::total(alloc, old, new, type_index),
        _ => buckets::total(alloc, old, new, type_index),
    }
}
