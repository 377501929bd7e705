//! The rows of a state: the current ones of each type.
ghost use Rattle.std.specs.Prelude.{◌≡◌, ℕ, IsTrue, map};
ghost use Rattle.row_model.specs.Table.{IsTableOf, row_at};
ghost use Rattle.type_state.specs.Views.{table_of};
ghost use Rattle.state_moves.specs.Halves.{current_halves};

use column_rows::{RowsByType, StateRows};
use schema_model::Model;
use type_state::{PackedRows, TypeState, state_at};

/// The current rows of the types of a model.
pub type Now<'a> = StateRows<'a, CurrentTypes<'a>>;

/// The current rows of these states, those of the types of a model.
pub fn now_of<'a>(model: &'a Model, states: &'a [TypeState]) -> Now<'a>
    requires { IsTableOf model.now (table_of (current_halves states.now)) }
    ensures schemas { result.schemas ≡ model.now }
    ensures table { result.table ≡ table_of (current_halves states.now) }
{
    StateRows::new(model, CurrentTypes { states })
}

/// The current rows of each type.
#[derive(Drop)]
pub struct CurrentTypes<'a> {
    states: &'a [TypeState],
}

impl<'a> RowsByType for CurrentTypes<'a> {
    type Of = PackedRows<'a>;

    ghost table = { λ types. table_of (current_halves types.states.now) };

    #[tactic(auto, using(crate::proofs::Tables::current_at, crate::proofs::Tables::current_off))]
    fn of_type(&self, type_index: u32) -> Option<PackedRows<'a>> {
        match state_at(self.states, type_index) {
            Some(state) => Some(state.current()),
            None => None,
        }
    }
}

/// Whether the current rows of a type are seen to be the same among two states of the same types, as `has_same_rows` of `TypeState` tells it;
/// false where there is no such type. It takes no memory.
pub fn has_same_rows_in(states: &[TypeState], others: &[TypeState], type_index: u32) -> bool
    requires { map (λ state. state.schema) states.now ≡ map (λ state. state.schema) others.now }
    ensures { IsTrue result → (ordinal : ℕ) → row_at (table_of (current_halves states.now)) type_index ordinal ≡ row_at (table_of (current_halves others.now)) type_index ordinal }
{
    let Some(state) = state_at(states, type_index) else {
        return false;
    };
    let Some(other) = state_at(others, type_index) else {
        return false;
    };
    state.has_same_rows(other)
}
