//! The rows of a state before its last step: those that left, where they are kept, and else the current ones that did not come.
ghost use Rattle.std.specs.Prelude.{◌≡◌, ◌<◌, ℕ, IsSome};
ghost use Rattle.std.specs.FinMap.{get};
ghost use Rattle.std.specs.List.{AllZip};
ghost use Rattle.row_model.specs.Table.{IsTableOf};
ghost use Rattle.type_state.specs.Views.{table_of};
ghost use Rattle.state_moves.specs.Halves.{current_halves};
ghost use Rattle.row_model.specs.Before.{FitsPast, rows_before, table_before};

use crate::past::{PastPart, part_at};
use column_rows::{OneType, PackedItems, RowsByType, StateRows, TypeColumns, TypeRows};
use object_codec::Column;
use row_model::{LentRow, Row};
use schema_model::Model;
use std::alloc::{AllocError, Global};
use type_state::{PackedRows, TypeState, state_at};

/// The rows before the last step of the types of a model.
pub type Before<'a> = StateRows<'a, TypesBefore<'a>>;

/// The rows that the types of a model had before the step that changed this of each.
pub fn before_of<'a>(model: &'a Model, states: &'a [TypeState], past: &'a [PastPart]) -> Before<'a>
    requires fits { AllZip FitsPast (table_of (current_halves states.now)) past.now }
    requires rows { IsTableOf model.now (table_before (table_of (current_halves states.now)) past.now) }
    ensures schemas { result.schemas ≡ model.now }
    ensures table { result.table ≡ table_before (table_of (current_halves states.now)) past.now }
{
    StateRows::new(model, TypesBefore { states, past })
}

/// The rows of each type before the last step.
#[derive(Drop)]
pub struct TypesBefore<'a> {
    states: &'a [TypeState],
    past: &'a [PastPart],
}

impl<'a> std::marker::Model for TypesBefore<'a> {
    ghost use Rattle.std.specs.List.{AllZip};
    ghost use Rattle.row_model.specs.Table.{Table};
    ghost use Rattle.type_state.specs.Views.{table_of};
    ghost use Rattle.column_rows.specs.Content.{table_code};
    ghost use Rattle.state_moves.specs.Halves.{current_halves};
    ghost use Rattle.row_model.specs.Before.{FitsPast, table_before};

    ghost Value = { Table };

    ghost coded = { table_code };

    ghost view = { λ t. table_before (table_of (current_halves t.states.now)) t.past.now };

    ghost invariant = { λ t. AllZip FitsPast (table_of (current_halves t.states.now)) t.past.now };
}

impl<'a> RowsByType for TypesBefore<'a> {
    type Of = RowsBefore<'a>;

    ghost table = { λ types. types };

    fn of_type(&self, type_index: u32) -> Option<RowsBefore<'a>> {
        match state_at(self.states, type_index) {
            Some(state) => Some(RowsBefore {
                rows: state.current(),
                part: part_at(self.past, type_index),
            }),
            None => None,
        }
    }
}

/// The rows of a type before the last step.
#[derive(Drop)]
pub struct RowsBefore<'a> {
    rows: PackedRows<'a>,
    part: &'a PastPart,
}

impl<'a> std::marker::Model for RowsBefore<'a> {
    ghost use Rattle.row_model.specs.Table.{RowMap};
    ghost use Rattle.column_rows.specs.Content.{rows_code};
    ghost use Rattle.row_model.specs.Before.{FitsPast, rows_before};

    ghost Value = { RowMap };

    ghost coded = { rows_code };

    ghost view = { λ r. rows_before r.rows.rows r.part.now };

    ghost invariant = { λ r. FitsPast r.rows.rows r.part.now };
}

impl<'a> RowsBefore<'a> {
    // A number above each ordinal that was live before the step.
    fn first_bound(&self) -> u32
        ensures { (ordinal : ℕ) → IsSome (get self.now ordinal) → ordinal < result }
    {
        let bound = self.rows.bound();
        match self.part.gone().as_slice().last() {
            Some(last) => bound.max(*last + 1),
            None => bound,
        }
    }
}

impl<'a> OneType for RowsBefore<'a> {
    ghost rows = { λ rows. rows };
}

impl<'a> TypeRows<'a> for RowsBefore<'a> {
    fn bound(&self) -> u32 {
        let mut bound = self.first_bound();
        while bound > 0 {
            if self.is_live(bound - 1) {
                return bound;
            }
            bound -= 1;
        }
        0
    }

    fn is_live(&self, ordinal: u32) -> bool {
        match self.part.place_left(ordinal) {
            Some(_) => true,
            None => !self.part.is_new(ordinal) && self.rows.is_live(ordinal),
        }
    }

    fn row(&self, alloc: Global, ordinal: u32) -> Result<Row, AllocError> {
        match self.part.place_left(ordinal) {
            Some(place) => self.part.rows().row(alloc, place),
            None => self.rows.row(alloc, ordinal),
        }
    }

    fn lend(&self, alloc: Global, ordinal: u32) -> Result<LentRow<'a>, AllocError> {
        match self.part.place_left(ordinal) {
            Some(place) => self.part.rows().lend(alloc, place),
            None => self.rows.lend(alloc, ordinal),
        }
    }
}

impl<'a> TypeColumns<'a> for RowsBefore<'a> {
    fn column(&self, field: u32) -> Option<Column<'a>> {
        if !self.part.gone().is_empty() {
            return None;
        }
        self.rows.column(field)
    }

    fn lists(&self) -> Option<PackedItems<'a>> {
        if !self.part.gone().is_empty() {
            return None;
        }
        self.rows.lists()
    }

    fn runs(&self) -> Option<PackedItems<'a>> {
        if !self.part.gone().is_empty() {
            return None;
        }
        self.rows.runs()
    }
}
