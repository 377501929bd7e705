//! The records that a cycle asks for, wherever they come from.
use hol_orders::Added;

/// A cycle of the script of `make`: the films that it shows of so many.
#[derive(Clone, Copy)]
pub(crate) struct FilmCycle {
    /// What the titles and the years are made of.
    pub(crate) seed: u32,
    /// How many films there are.
    pub(crate) rows: u32,
    /// The number of the cycle, from 1: the version of the state that it makes.
    pub(crate) cycle: u32,
}

/// The records that a cycle adds.
#[derive(Drop)]
pub(crate) enum Records<'a> {
    /// Those of an order, still JSON.
    Spelled(&'a Added),
    /// The films of a cycle of the script.
    Films(FilmCycle),
}
