//! The states of all types.
ghost use Rattle.std.specs.Prelude.{◌≡◌, None, Some, MatchOption, slice_get};

use crate::TypeState;
use hol_varint::List;

/// The states of the types of a model, in model order.
pub type TypeStates = List<TypeState>;

/// The state of a type, if there is such a type.
pub fn state_at(states: &[TypeState], type_index: u32) -> Option<&TypeState>
    ensures { MatchOption result (slice_get states.now type_index ≡ None) (λ state. slice_get states.now type_index ≡ Some state.now) }
{
    states.get(type_index as usize)
}
