//! Turning the halves of types: the next ones become the current ones.
ghost use Rattle.std.specs.Prelude.{◌≡◌, All, map};
ghost use Rattle.std.specs.List.{AllZip};
ghost use Rattle.type_state.specs.State.{IsLaidOut};
ghost use Rattle.type_state.specs.Views.{next_halves};
ghost use Rattle.state_moves.specs.Halves.{current_halves};
ghost use Rattle.state_moves.specs.Moving.{IsComingLaid, coming_halves, coming_state};

use type_state::TypeState;

/// Makes the next half of each type the current one. It takes no memory.
pub fn flip_all(states: &mut [TypeState])
    requires { All (λ state. IsLaidOut state.schema state.other) states.old }
    ensures halves { current_halves states.new ≡ next_halves states.old }
    ensures schemas { map (λ state. state.schema) states.new ≡ map (λ state. state.schema) states.old }
{
    for state in states.iter_mut() {
        state.flip();
    }
}

/// Makes the halves that come in a step the current ones: those of the types that it names. It takes no memory.
pub fn flip_named(states: &mut [TypeState], named: &[bool])
    requires { AllZip IsComingLaid states.old named.now }
    ensures halves { current_halves states.new ≡ coming_halves states.old named.now }
    ensures schemas { map (λ state. state.schema) states.new ≡ map (λ state. state.schema) states.old }
{
    for type_index in 0..states.len() {
        flip_if_named(&mut states[type_index], named[type_index]);
    }
}

// Makes the next half the current one, if the step names the type.
fn flip_if_named(state: &mut TypeState, is_named: bool)
    requires { IsComingLaid state.old is_named }
    ensures { state.new ≡ coming_state state.old is_named }
{
    if is_named {
        state.flip();
    }
}
