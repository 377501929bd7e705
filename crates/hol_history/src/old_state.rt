//! The rows of an old version, as rows wherever they stand.
ghost use Rattle.std.specs.Prelude.{◌≡◌, ◌<◌, ℕ, length};
ghost use Rattle.row_model.specs.Table.{IsLive};
ghost use Rattle.hol_history.specs.History.{StandsOn};
ghost use Rattle.hol_history.specs.Then.{table_at};

use crate::history::{History, Kept};
use hol_varint::Duplicate;
use row_model::{LentRow, Row, Rows};
use schema_model::Model;
use std::alloc::{AllocError, Global};

/// The rows of a version that a history reaches: those that left in its step or a later one, where they are kept, and else those of the state that the history
/// stands on.
#[derive(Drop)]
pub struct Then<'a, R: Rows> {
    history: &'a History,
    /// The rows that the history stands on.
    current: &'a R,
    /// The place of the version's step.
    place: usize,
}

impl<'a, R: Rows> std::marker::Model for Then<'a, R> {
    ghost use Rattle.hol_history.specs.Then.{IsThen, OldState, old_state_code, table_at};

    ghost Value = { OldState };

    ghost coded = { old_state_code };

    ghost view = { λ t. record { schemas = R.schemas t.current.now; table = table_at (R.table t.current.now) t.history.now.steps t.place } };

    ghost invariant = { λ t. IsThen (R.schemas t.current.now) (R.table t.current.now) t.history.now.steps t.place };
}

impl<'a, R: Rows> Then<'a, R> {
    ghost use Rattle.std.specs.Prelude.{◌≡◌, ◌<◌, ℕ, length};
    ghost use Rattle.row_model.specs.Table.{IsLive};
    ghost use Rattle.hol_history.specs.History.{StandsOn};
    ghost use Rattle.hol_history.specs.Then.{table_at};

    /// The rows before the step at a place of a history, given those that it stands on.
    pub(crate) fn new(history: &'a History, current: &'a R, place: usize) -> Then<'a, R>
        requires place { place < length history.now.steps }
        requires stands { StandsOn (R.schemas current.now) (R.table current.now) history.now.steps }
        ensures schemas { result.schemas ≡ R.schemas current.now }
        ensures table { result.table ≡ table_at (R.table current.now) history.now.steps place }
    {
        Then {
            history,
            current,
            place,
        }
    }

    // A number above each live ordinal of a type.
    fn first_bound(&self, type_index: u32) -> u32
        ensures { (ordinal : ℕ) → IsLive self.now.table type_index ordinal → ordinal < result }
    {
        let touched = self.history.greatest(type_index).saturating_add(1);
        self.current.bound(type_index).max(touched)
    }
}

impl<'a, R: Rows> Rows for Then<'a, R> {
    ghost schemas = { λ then. then.schemas };

    ghost table = { λ then. then.table };

    fn model(&self) -> &Model {
        self.current.model()
    }

    fn bound(&self, type_index: u32) -> u32 {
        let mut bound = self.first_bound(type_index);
        while bound > 0 {
            if self.is_live(type_index, bound - 1) {
                return bound;
            }
            bound -= 1;
        }
        0
    }

    fn is_live(&self, type_index: u32, ordinal: u32) -> bool {
        match self.history.kept(self.place, type_index, ordinal) {
            Kept::Left(_) => true,
            Kept::Absent => false,
            Kept::Untouched => self.current.is_live(type_index, ordinal),
        }
    }

    fn row(&self, alloc: Global, type_index: u32, ordinal: u32) -> Result<Row, AllocError> {
        match self.history.kept(self.place, type_index, ordinal) {
            Kept::Left(row) => row.copy(alloc),
            Kept::Absent => unreachable!(),
            Kept::Untouched => self.current.row(alloc, type_index, ordinal),
        }
    }

    fn lend(
        &self,
        alloc: Global,
        type_index: u32,
        ordinal: u32,
    ) -> Result<LentRow<'_>, AllocError> {
        match self.history.kept(self.place, type_index, ordinal) {
            Kept::Left(row) => Ok(LentRow::Kept(row)),
            Kept::Absent => unreachable!(),
            Kept::Untouched => self.current.lend(alloc, type_index, ordinal),
        }
    }
}
