//! Laws of the comparison.
ghost use Rattle.std.specs.Prelude.{◌≡◌, Option};
ghost use Rattle.chain_check.specs.declared.place.Place.{Place};
ghost use Rattle.chain_check.specs.Compare.{Compare, State};

/// The comparison of two states gives one answer.
#[tactic(auto, using(crate::proofs::OnePlace::one_place))]
pub fn one_place()
    ensures { (walked fresh : State) (place other : Option Place) → Compare walked fresh place → Compare walked fresh other → place ≡ other }
{}
