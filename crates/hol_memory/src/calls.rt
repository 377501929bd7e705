//! Which calls of an object in memory fail.
ghost use Rattle.std.specs.Prelude.{◌≡◌, ◌≤◌, ◌↔◌, IsTrue};
ghost use Rattle.hol_memory.specs.Calls.{FailsNext, after_call, first_calls};

use std::marker::Model;

/// Counts calls from 1, and knows which of them fail.
#[derive(Debug, Drop)]
pub(crate) struct Counter {
    fails: Vec<u64>,
    made: u64,
    faults: u64,
}

impl Model for Counter {
    ghost use Rattle.hol_memory.specs.Calls.{Calls};

    ghost Value = { Calls };

    ghost view = { λ c. record { fails = c.fails.items; made = c.made; faults = c.faults } };
}

impl Counter {
    // No call was made.
    pub(crate) fn new(fails: Vec<u64>) -> Counter
        ensures { result ≡ first_calls fails.items }
    {
        Counter {
            fails,
            made: 0,
            faults: 0,
        }
    }

    // Whether the next call is one of those that fail.
    pub(crate) fn next_fails(&self) -> bool
        ensures { IsTrue result ↔ FailsNext self.now }
    {
        self.fails.contains(&self.made.saturating_add(1))
    }

    // Counts a call, and the fault where it failed.
    pub(crate) fn count(&mut self, failed: bool)
        ensures counted { self.new ≡ after_call self.old failed }
        ensures later { self.old.faults ≤ self.new.faults }
    {
        self.made = self.made.saturating_add(1);
        if failed {
            self.faults = self.faults.saturating_add(1);
        }
    }

    // Counts a call, and says whether it fails.
    pub(crate) fn fails_now(&mut self) -> bool
        ensures listed { IsTrue result ↔ FailsNext self.old }
        ensures counted { self.new ≡ after_call self.old result }
        ensures later { self.old.faults ≤ self.new.faults }
    {
        let failed = self.next_fails();
        self.count(failed);
        failed
    }
}
