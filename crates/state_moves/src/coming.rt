//! The rows that come in a step: the next rows of the types that it names, and the current ones of the others.
ghost use Rattle.std.specs.Prelude.{◌≡◌};
ghost use Rattle.type_state.specs.Views.{table_of};
ghost use Rattle.state_moves.specs.Moving.{AreComing, coming_half, coming_halves};

use crate::moved::is_named;
use column_rows::{RowsByType, StateRows};
use schema_model::Model;
use type_state::{PackedRows, TypeState, state_at};

/// The rows that come in a step, by the types of a model.
pub type Coming<'a> = StateRows<'a, ComingTypes<'a>>;

/// The rows that come in a step that names these of the types of a model.
pub fn coming_of<'a>(model: &'a Model, states: &'a [TypeState], named: &'a [bool]) -> Coming<'a>
    requires { AreComing model.now states.now named.now }
    ensures schemas { result.schemas ≡ model.now }
    ensures table { result.table ≡ table_of (coming_halves states.now named.now) }
{
    StateRows::new(model, ComingTypes { states, named })
}

/// The rows of each type that come in a step.
#[derive(Drop)]
pub struct ComingTypes<'a> {
    states: &'a [TypeState],
    named: &'a [bool],
}

impl<'a> std::marker::Model for ComingTypes<'a> {
    ghost use Rattle.std.specs.List.{AllZip};
    ghost use Rattle.row_model.specs.Table.{Table};
    ghost use Rattle.type_state.specs.Views.{table_of};
    ghost use Rattle.column_rows.specs.Content.{table_code};
    ghost use Rattle.state_moves.specs.Moving.{IsComingLaid, coming_halves};

    ghost Value = { Table };

    ghost coded = { table_code };

    ghost view = { λ t. table_of (coming_halves t.states.now t.named.now) };

    ghost invariant = { λ t. AllZip IsComingLaid t.states.now t.named.now };
}

impl<'a> RowsByType for ComingTypes<'a> {
    type Of = PackedRows<'a>;

    ghost table = { λ types. types };

    fn of_type(&self, type_index: u32) -> Option<PackedRows<'a>> {
        match state_at(self.states, type_index) {
            Some(state) => Some(coming_rows(state, is_named(self.named, type_index))),
            None => None,
        }
    }
}

// The rows of a type that come: the next ones where the step names it, else the current ones.
fn coming_rows(state: &TypeState, is_named: bool) -> PackedRows<'_>
    ensures { result.rows ≡ (coming_half state.entry.now is_named).rows }
{
    if is_named {
        state.other()
    } else {
        state.current()
    }
}
