//! The rows of a state, by a choice of the rows of each type.
ghost use Rattle.std.specs.Prelude.{◌≡◌, IfOk, IfSome, None, Some, MatchOption, slice_get};
ghost use Rattle.row_model.specs.Lent.{lent_row};
ghost use Rattle.row_model.specs.Table.{IsLive, IsTableOf, Table, row_at};
ghost use Rattle.column_rows.specs.Columns.{IsColumnOf};
ghost use Rattle.column_rows.specs.Items.{AreListsOf, AreRunsOf};
ghost use Rattle.column_rows.specs.Content.{Content};

use crate::{ColumnRows, OneType, PackedItems, TypeColumns, TypeRows};
use object_codec::Column;
use row_model::{LentRow, Row, Rows};
use schema_model::Model;
use std::alloc::{AllocError, Global};

/// A choice of rows for each of some types.
pub trait RowsByType: Drop {
    /// What has the rows of one of the types.
    type Of: OneType;

    /// The rows of each type, by ordinal.
    ghost table: { Self → Table };

    /// The rows of the type at an index; none exactly where there is no such type. It takes no memory.
    fn of_type(&self, type_index: u32) -> Option<Self::Of>
        ensures { MatchOption result (slice_get (table self.now) type_index ≡ None) (λ of. slice_get (table self.now) type_index ≡ Some (Self.Of.rows of)) };
}

/// The rows of the types of a model, each as chosen.
#[derive(Drop)]
pub struct StateRows<'a, C: RowsByType> {
    model: &'a Model,
    types: C,
}

impl<'a, C: RowsByType> std::marker::Model for StateRows<'a, C> {
    ghost use Rattle.row_model.specs.Table.{IsTableOf};
    ghost use Rattle.column_rows.specs.Content.{Content, content_code};

    ghost Value = { Content };

    ghost coded = { content_code };

    ghost view = { λ r. record { schemas = r.model.now; table = C.table r.types } };

    ghost invariant = { λ r. IsTableOf r.model.now (C.table r.types) };
}

impl<'a, C: RowsByType> StateRows<'a, C> {
    /// The rows that are chosen for the types of a model.
    pub fn new(model: &'a Model, types: C) -> StateRows<'a, C>
        requires { IsTableOf model.now (C.table types) }
        ensures schemas { result.schemas ≡ model.now }
        ensures table { result.table ≡ C.table types }
    {
        StateRows { model, types }
    }
}

impl<'a, C: RowsByType> StateRows<'a, C>
where
    C::Of: TypeRows<'a>,
{
    /// As `lend`, for as long as the rows stand that were chosen, longer than the choice.
    pub fn lent(
        &self,
        alloc: Global,
        type_index: u32,
        ordinal: u32,
    ) -> Result<LentRow<'a>, AllocError>
        requires { IsLive self.now.table type_index ordinal }
        ensures { IfOk result (λ lent. row_at self.entry.now.table type_index ordinal ≡ Some (lent_row lent)) }
    {
        match self.types.of_type(type_index) {
            Some(rows) => rows.lend(alloc, ordinal),
            None => unreachable!(),
        }
    }
}

impl<'a, C: RowsByType> StateRows<'a, C>
where
    C::Of: TypeColumns<'a>,
{
    /// As `column`, for as long.
    pub fn column_lent(&self, type_index: u32, field: u32) -> Option<Column<'a>>
        ensures { IfSome result (IsColumnOf self.entry.now.table type_index field) }
    {
        match self.types.of_type(type_index) {
            Some(rows) => rows.column(field),
            None => None,
        }
    }

    /// As `lists`, for as long.
    #[tactic(auto, using(crate::proofs::Tables::lists_at))]
    pub fn lists_lent(&self, type_index: u32) -> Option<PackedItems<'a>>
        ensures { IfSome result (AreListsOf self.entry.now.table type_index) }
    {
        match self.types.of_type(type_index) {
            Some(rows) => rows.lists(),
            None => None,
        }
    }

    /// As `runs`, for as long.
    pub fn runs_lent(&self, type_index: u32) -> Option<PackedItems<'a>>
        ensures { IfSome result (AreRunsOf self.entry.now.table type_index) }
    {
        match self.types.of_type(type_index) {
            Some(rows) => rows.runs(),
            None => None,
        }
    }
}

impl<'a, C: RowsByType> Rows for StateRows<'a, C>
where
    C::Of: TypeRows<'a>,
{
    ghost schemas = { λ rows. rows.schemas };

    ghost table = { λ rows. rows.table };

    fn model(&self) -> &Model {
        self.model
    }

    fn bound(&self, type_index: u32) -> u32 {
        match self.types.of_type(type_index) {
            Some(rows) => rows.bound(),
            None => 0,
        }
    }

    fn is_live(&self, type_index: u32, ordinal: u32) -> bool {
        match self.types.of_type(type_index) {
            Some(rows) => rows.is_live(ordinal),
            None => false,
        }
    }

    fn row(&self, alloc: Global, type_index: u32, ordinal: u32) -> Result<Row, AllocError> {
        match self.types.of_type(type_index) {
            Some(rows) => rows.row(alloc, ordinal),
            None => unreachable!(),
        }
    }

    fn lend(
        &self,
        alloc: Global,
        type_index: u32,
        ordinal: u32,
    ) -> Result<LentRow<'_>, AllocError> {
        self.lent(alloc, type_index, ordinal)
    }
}

impl<'a, C: RowsByType> ColumnRows for StateRows<'a, C>
where
    C::Of: TypeColumns<'a>,
{
    fn column(&self, type_index: u32, field: u32) -> Option<Column<'_>> {
        self.column_lent(type_index, field)
    }

    fn lists(&self, type_index: u32) -> Option<PackedItems<'_>> {
        self.lists_lent(type_index)
    }

    fn runs(&self, type_index: u32) -> Option<PackedItems<'_>> {
        self.runs_lent(type_index)
    }
}
