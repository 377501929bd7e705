//! The rows of one type.
ghost use Rattle.std.specs.Prelude.{ℕ, ◌≡◌, ◌↔◌, Some, IfOk, IfSome, IsSome, IsTrue};
ghost use Rattle.std.specs.FinMap.{get};
ghost use Rattle.row_model.specs.Lent.{lent_row};
ghost use Rattle.row_model.specs.Table.{RowMap};
ghost use Rattle.column_rows.specs.OneType.{AreListsIn, AreRunsIn, IsColumnIn, IsRowsBound};

use crate::PackedItems;
use object_codec::Column;
use row_model::{LentRow, Row};
use std::alloc::{AllocError, Global};

/// What has the rows of one type.
pub trait OneType: Drop {
    /// The rows, by ordinal.
    ghost rows: { Self → RowMap };
}

/// The rows of one type, to look at. What is lent of them is lent for `'a`, longer than the value lives that lends it.
pub trait TypeRows<'a>: OneType {
    /// One past the greatest live ordinal, 0 for none.
    fn bound(&self) -> u32
        ensures { IsRowsBound (Self.rows self.now) result };

    /// Whether there is a row under an ordinal.
    fn is_live(&self, ordinal: u32) -> bool
        ensures { IsTrue result ↔ IsSome (get (Self.rows self.now) ordinal) };

    /// A copy of the row under a live ordinal.
    fn row(&self, alloc: Global, ordinal: u32) -> Result<Row, AllocError>
        requires { IsSome (get (Self.rows self.now) ordinal) }
        ensures { IfOk result (λ row. get (Self.rows self.now) ordinal ≡ Some row) };

    /// The row under a live ordinal, to look at: lent where it stands as a row, and else made, for which memory is taken.
    fn lend(&self, alloc: Global, ordinal: u32) -> Result<LentRow<'a>, AllocError>
        requires { IsSome (get (Self.rows self.now) ordinal) }
        ensures { IfOk result (λ lent. get (Self.rows self.now) ordinal ≡ Some (lent_row lent)) };
}

/// The rows of one type that is looked at as a whole where its rows stand packed. None is answered of a type of another kind, and may be
/// answered of any type.
pub trait TypeColumns<'a>: TypeRows<'a> {
    /// A field of the records, if they stand packed. It takes no memory.
    fn column(&self, field: u32) -> Option<Column<'a>>
        ensures { IfSome result (IsColumnIn (Self.rows self.now) field) };

    /// The lists, if they stand packed. It takes no memory.
    fn lists(&self) -> Option<PackedItems<'a>>
        ensures { IfSome result (AreListsIn (Self.rows self.now)) };

    /// The sets or maps, if they stand packed. It takes no memory.
    fn runs(&self) -> Option<PackedItems<'a>>
        ensures { IfSome result (AreRunsIn (Self.rows self.now)) };
}
