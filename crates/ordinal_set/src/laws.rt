//! Laws of the forms in which a blob holds sets: a population is spelled in one way.
ghost use Rattle.std.specs.Prelude.{◌≡◌, ℕ, List, Option};
ghost use Rattle.ordinal_set.specs.Population.{IsPopulation};

/// The bytes of a population are determined by its set and the greatest ordinal.
pub fn one_population()
    ensures { (set : List ℕ) (max : Option ℕ) (bytes bytes' : List ℕ) → IsPopulation set max bytes → IsPopulation set max bytes' → bytes ≡ bytes' }
{}
