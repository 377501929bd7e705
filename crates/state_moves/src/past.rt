//! What is kept of a type from the last step, so that the rows before it can still be looked up.
ghost use Rattle.std.specs.Prelude.{◌≡◌, ◌<◌, Some, None, IfOk, MatchOption, length, replicate, slice_get};
ghost use Rattle.std.specs.List.Sorted.{IsStrictlyIncreasing};
ghost use Rattle.std.specs.FinMap.{find};
ghost use Rattle.std.specs.Ordering.{nat_cmp};
ghost use Rattle.row_model.specs.Before.{is_new, left_rows, no_part};
ghost use Rattle.state_moves.specs.Past.{IsLeftAt};

use hol_varint::{List, Ordinals};
use std::alloc::{AllocError, Global};
use type_state::OldRows;

/// What the last step changed of a type.
#[derive(Drop)]
pub struct PastPart {
    // The ordinals that came, rising.
    came: Ordinals,
    // The ordinals that left, rising.
    gone: Ordinals,
    // The row of each that left.
    rows: OldRows,
}

impl std::marker::Model for PastPart {
    ghost use Rattle.row_model.specs.Before.{PastPart, past_code};

    ghost Value = { PastPart };

    ghost coded = { past_code };

    ghost view = { λ p. record { came = p.came; gone = p.gone; rows = p.rows } };
}

/// What the last step changed of each type, in model order.
pub type PastParts = List<PastPart>;

impl PastPart {
    /// The part of a type of which nothing changed. It takes no memory.
    pub(crate) fn none(alloc: Global) -> PastPart
        ensures { result ≡ no_part }
    {
        PastPart {
            came: Ordinals::new(alloc),
            gone: Ordinals::new(alloc),
            rows: OldRows::new(alloc),
        }
    }

    /// The part of a type that a step named: the ordinals that came, those that left, and the row of each that left.
    pub(crate) fn new(came: Ordinals, gone: Ordinals, rows: OldRows) -> PastPart
        ensures { result ≡ record { came = came; gone = gone; rows = rows } }
    {
        PastPart { came, gone, rows }
    }

    /// The ordinals that came in the step, rising.
    pub fn came(&self) -> &Ordinals
        ensures { result.now ≡ self.now.came }
    {
        // Nothing else is kept of a type: a further field would have to be named here.
        let PastPart {
            came,
            gone: _,
            rows: _,
        } = self;
        came
    }

    /// The ordinals that left in the step, rising.
    pub fn gone(&self) -> &Ordinals
        ensures { result.now ≡ self.now.gone }
    {
        &self.gone
    }

    /// The rows of those that left, one for each of these ordinals.
    pub(crate) fn rows(&self) -> &OldRows
        ensures { result.now ≡ self.now.rows }
    {
        &self.rows
    }

    /// Whether the ordinal came.
    pub(crate) fn is_new(&self, ordinal: u32) -> bool
        requires { IsStrictlyIncreasing self.now.came }
        ensures { result ≡ is_new self.now ordinal }
    {
        self.came().as_slice().binary_search(&ordinal).is_ok()
    }

    /// The place of an ordinal among those that left.
    pub(crate) fn place_left(&self, ordinal: u32) -> Option<usize>
        requires rising { IsStrictlyIncreasing self.now.gone }
        requires rows { length self.now.rows ≡ length self.now.gone }
        ensures { MatchOption result (find nat_cmp ordinal (left_rows self.now) ≡ None) (IsLeftAt self.now ordinal) }
    {
        match self.gone().as_slice().binary_search(&ordinal) {
            Ok(place) => Some(place),
            Err(_) => None,
        }
    }
}

/// Nothing changed of so many types.
pub fn no_past(alloc: Global, count: u32) -> Result<PastParts, AllocError>
    ensures { IfOk result (λ past. past ≡ replicate count no_part) }
{
    let mut past = PastParts::new(alloc);
    for _type_index in 0..count {
        past.push(PastPart::none(alloc))?;
    }
    Ok(past)
}

/// What the last step changed of the type at an index.
pub fn part_at(past: &[PastPart], type_index: u32) -> &PastPart
    requires { type_index < length past.now }
    ensures { slice_get past.now type_index ≡ Some result.now }
{
    &past[type_index as usize]
}
