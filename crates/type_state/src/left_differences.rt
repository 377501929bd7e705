//! Ordinals that are gone through beside the places, by rising ordinal.
ghost use Rattle.std.specs.Prelude.{◌≡◌};
ghost use Rattle.type_state.specs.LeftDifferences.{behind as behind_place, first_ordinal as ordinal_of_first};

/// The first of some ordinals, the greatest number where there is none.
pub(crate) fn first_ordinal(ordinals: &[u64]) -> u64
    ensures { result ≡ ordinal_of_first ordinals.now }
{
    match ordinals {
        [first, ..] => *first,
        [] => u64::MAX,
    }
}

/// The ordinals behind a place: all but the first where that is the place.
pub(crate) fn behind(ordinals: &[u64], place: u64) -> &[u64]
    ensures { result.now ≡ behind_place place ordinals.now }
{
    match ordinals {
        [first, rest @ ..] if *first == place => rest,
        _ => ordinals,
    }
}
