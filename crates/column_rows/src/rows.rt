//! Rows that lend a field of all records of a type, or its lists, sets or maps.
ghost use Rattle.std.specs.Prelude.{IfSome};
ghost use Rattle.column_rows.specs.Columns.{IsColumnOf};
ghost use Rattle.column_rows.specs.Items.{AreListsOf, AreRunsOf};

use crate::PackedItems;
use object_codec::Column;
use row_model::Rows;

/// Rows of which a type is looked at as a whole where its rows stand packed. None is answered of a type of another kind, and may be answered of any
/// type, as of one whose rows are kept as rows: then there is `lend`.
pub trait ColumnRows: Rows {
    /// A field of the records of a type, if they stand packed.
    fn column(&self, type_index: u32, field: u32) -> Option<Column<'_>>
        ensures { IfSome result (IsColumnOf (Self.table self.now) type_index field) };

    /// The lists of a type, if they stand packed.
    fn lists(&self, type_index: u32) -> Option<PackedItems<'_>>
        ensures { IfSome result (AreListsOf (Self.table self.now) type_index) };

    /// The sets or maps of a type, if they stand packed.
    fn runs(&self, type_index: u32) -> Option<PackedItems<'_>>
        ensures { IfSome result (AreRunsOf (Self.table self.now) type_index) };
}
