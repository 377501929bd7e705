//! Rows, wherever they stand.
ghost use Rattle.std.specs.Prelude.{List, ℕ, ◌≡◌, ◌↔◌, Some, IfOk, IsTrue};
ghost use Rattle.schema_model.specs.declared.schema.Schema.{Schema};
ghost use Rattle.row_model.specs.Table.{Table, IsTableOf, IsBound, IsLive, row_at};
ghost use Rattle.row_model.specs.Lent.{lent_row};

use crate::{LentRow, Row};
use schema_model::Model;
use std::alloc::{AllocError, Global};

/// The rows of a state, by type and ordinal, wherever they stand.
pub trait Rows {
    /// The schemas of the model that the rows are of.
    ghost schemas: { Self → List Schema };

    /// The rows of each type, by ordinal.
    ghost table: { Self → Table };

    /// The model that the rows are of.
    fn model(&self) -> &Model
        ensures model { result.now ≡ schemas self.now }
        ensures fits { IsTableOf (schemas self.now) (table self.now) };

    /// One past the greatest live ordinal of a type; 0 where none is live, or where there is no such type.
    fn bound(&self, type_index: u32) -> u32
        ensures { IsBound (table self.now) type_index result };

    /// Whether a type has a row under an ordinal.
    fn is_live(&self, type_index: u32, ordinal: u32) -> bool
        ensures { IsTrue result ↔ IsLive (table self.now) type_index ordinal };

    /// A copy of the row of a type under a live ordinal.
    fn row(&self, alloc: Global, type_index: u32, ordinal: u32) -> Result<Row, AllocError>
        requires { IsLive (table self.now) type_index ordinal }
        ensures { IfOk result (λ row. row_at (table self.now) type_index ordinal ≡ Some row) };

    /// The row of a type under a live ordinal, to look at: lent where it stands as a row, and else made, for which memory is taken.
    fn lend(&self, alloc: Global, type_index: u32, ordinal: u32) -> Result<LentRow<'_>, AllocError>
        requires { IsLive (table self.now) type_index ordinal }
        ensures { IfOk result (λ lent. row_at (table self.now) type_index ordinal ≡ Some (lent_row lent)) }
    {
        Ok(LentRow::Made(self.row(alloc, type_index, ordinal)?))
    }
}
