//! Which films a cycle adds, and its tag.
ghost use Rattle.std.specs.Prelude.{◌≡◌, ◌≤◌};
ghost use Rattle.film_script.specs.Films.{cycle_tag as tag_of, is_shown as is_shown_in};

/// The tag of the state that a cycle makes: the seed times 1,000, and the number of the cycle added.
pub fn cycle_tag(seed: u32, cycle: u32) -> i64
    ensures { result ≡ tag_of seed cycle }
{
    i64::from(seed) * 1000 + i64::from(cycle)
}

/// Whether the film at a place is among those of a cycle: of each ten places in a row one is left out, the next cycle's just before it.
pub fn is_shown(cycle: u32, place: u32) -> bool
    requires place { place ≤ 1000000 }
    requires cycle { cycle ≤ 1000000 }
    ensures { result ≡ is_shown_in cycle place }
{
    (place + cycle) % 10 != 0
}
