//! A walk over the rows of a type in two states.
ghost use Rattle.std.specs.Prelude.{ℕ, ◌≡◌, true, IfOk};
ghost use Rattle.std.specs.Option.{option_map};
ghost use Rattle.row_model.specs.Lent.{lent_row};
ghost use Rattle.row_model.specs.Table.{Table};
ghost use Rattle.row_model.specs.BothStates.{rows_of_both};
ghost use Rattle.row_widths.specs.Walk.{rows_left, Takes, TellsLive};

use row_model::{LentRow, Rows};
use std::alloc::{AllocError, Global};

/// How far a walk over the rows of a type in an old and a new state has come: it takes those of the old one by rising ordinal, and then those
/// of the new one under ordinals that the old one lacks.
#[derive(Clone, Copy, Debug)]
pub struct RowWalk {
    /// Whether the rows of the old state are behind it.
    pub in_new: bool,
    /// The first ordinal that is before it.
    pub ordinal: u32,
}

impl RowWalk {
    /// The walk that has all rows before it.
    pub fn start() -> RowWalk
        ensures { (old new : Table) (type_index : ℕ) → rows_left old new type_index result ≡ rows_of_both old new type_index }
    {
        RowWalk {
            in_new: false,
            ordinal: 0,
        }
    }

    /// The next row, to look at; none where there is none.
    pub fn next<'a, A: Rows, B: Rows>(
        &mut self,
        alloc: Global,
        old: &'a A,
        new: &'a B,
        type_index: u32,
    ) -> Result<Option<LentRow<'a>>, AllocError>
        ensures { IfOk result (λ next. Takes (rows_left (A.table old.now) (B.table new.now) type_index self.old) (option_map lent_row next) (rows_left (A.table old.now) (B.table new.now) type_index self.new)) }
    {
        if self.in_new {
            return self.next_added(alloc, old, new, type_index);
        }
        match next_live(old, type_index, self.ordinal) {
            Some(ordinal) => {
                self.ordinal = ordinal + 1;
                Ok(Some(old.lend(alloc, type_index, ordinal)?))
            }
            None => {
                self.in_new = true;
                self.ordinal = 0;
                self.next_added(alloc, old, new, type_index)
            }
        }
    }

    /// The next row of the new state, once those of the old one are behind the walk.
    fn next_added<'a, A: Rows, B: Rows>(
        &mut self,
        alloc: Global,
        old: &'a A,
        new: &'a B,
        type_index: u32,
    ) -> Result<Option<LentRow<'a>>, AllocError>
        requires { self.old.in_new ≡ true }
        ensures { IfOk result (λ next. Takes (rows_left (A.table old.now) (B.table new.now) type_index self.old) (option_map lent_row next) (rows_left (A.table old.now) (B.table new.now) type_index self.new)) }
    {
        while let Some(ordinal) = next_live(new, type_index, self.ordinal) {
            self.ordinal = ordinal + 1;
            if !old.is_live(type_index, ordinal) {
                return Ok(Some(new.lend(alloc, type_index, ordinal)?));
            }
        }
        Ok(None)
    }
}

/// The least live ordinal of a type that is not below `from`.
fn next_live<R: Rows>(rows: &R, type_index: u32, from: u32) -> Option<u32>
    ensures { TellsLive (R.table rows.now) type_index from result }
{
    for ordinal in from..rows.bound(type_index) {
        if rows.is_live(type_index, ordinal) {
            return Some(ordinal);
        }
    }
    None
}
