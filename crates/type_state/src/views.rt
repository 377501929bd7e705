//! The rows of some states, as those of a model's types.
ghost use Rattle.std.specs.Prelude.{◌≡◌};
ghost use Rattle.type_state.specs.Views.{AreNext, table_of, next_halves};

use crate::packed_rows::PackedRows;
use crate::states::{TypeStates, state_at};
use column_rows::{RowsByType, StateRows};
use schema_model::Model;

/// The rows that stand in the next halves of the types of a model.
pub type NextRows<'a> = StateRows<'a, NextTypes<'a>>;

/// The rows in the next halves of these states, which are those of the model's types.
pub fn next_of<'a>(model: &'a Model, states: &'a TypeStates) -> NextRows<'a>
    requires { AreNext model.now states.now }
    ensures schemas { result.schemas ≡ model.now }
    ensures table { result.table ≡ table_of (next_halves states.now) }
{
    StateRows::new(model, NextTypes { states })
}

/// The rows of each type in its next half.
#[derive(Drop)]
pub struct NextTypes<'a> {
    states: &'a TypeStates,
}

impl<'a> RowsByType for NextTypes<'a> {
    type Of = PackedRows<'a>;

    ghost table = { λ types. table_of (next_halves types.states.now) };

    #[tactic(auto, using(crate::proofs::NextStates::next_at, crate::proofs::NextStates::next_off))]
    fn of_type(&self, type_index: u32) -> Option<PackedRows<'a>> {
        match state_at(self.states.as_slice(), type_index) {
            Some(state) => Some(state.other()),
            None => None,
        }
    }
}
