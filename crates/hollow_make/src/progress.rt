//! Who is told how far the command is.

/// Is told how far `make` is. Nothing hangs on it: what the command answers, and what it leaves in the store, are the same whoever is told.
pub trait Progress {
    /// The cycle of this number begins, from 1 on, of so many.
    fn cycle(&mut self, cycle: u32, cycles: u32);

    /// The check begins, a walk over so many states, there and back.
    fn walk(&mut self, states: u64);
}

/// Tells nobody.
#[derive(Clone, Copy)]
pub struct Silent;

impl Progress for Silent {
    fn cycle(&mut self, _cycle: u32, _cycles: u32) {}

    fn walk(&mut self, _states: u64) {}
}
