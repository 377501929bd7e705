//! What a step asks of an index of either kind.
use hol_io::Steps;
use hol_paths::{WalkFault, WalkIndex};
use key_index::KeyIndex;
use state_moves::{Coming, PastPart, part_at};
use std::alloc::AllocError;
use std::sync::ledger::Ledger;

/// An index of whatever kind, as a step keeps it.
pub(crate) trait StepIndex: Drop {
    ghost use Rattle.std.specs.Prelude.{◌≡◌, ◌+◌, ◌≤◌, ℕ, Bool, List, IsTrue, OnOk};
    ghost use Rattle.schema_model.specs.declared.schema.Schema.{Schema};
    ghost use Rattle.row_model.specs.Before.{PastPart as Part};
    ghost use Rattle.row_model.specs.Table.{IsClosed, Table};
    ghost use Rattle.read_engine.specs.Kept.{count_came};

    // The type of its rows.
    ghost type_of: { Self → ℕ };

    // Whether something is reserved.
    ghost has_next: { Self → Bool };

    // The index with nothing reserved.
    ghost still: { Self → Self };

    // The index with what was reserved as its own.
    ghost turned: { Self → Self };

    // The rows that come follow its own, by what changed of each type.
    ghost follows: { List Schema → Table → List Part → Self → Type 0 };

    // It is ready for the rows that come, or cannot be kept over them.
    ghost is_ready: { List Schema → Table → Self → Type 0 };

    /// Makes it ready for the rows that come, if it can be kept over them. It counts a step for each row that comes in its type, and where it cannot be kept or
    /// memory is refused no more.
    fn make_ready<L: Ledger>(
        &mut self,
        rows: &Coming<'_>,
        past: &[PastPart],
        steps: &mut Steps<L>,
    ) -> Result<(), AllocError>
        requires closed { IsClosed rows.now.schemas rows.now.table }
        requires follows { follows rows.now.schemas rows.now.table past.now self.old }
        ensures ready { OnOk result (is_ready rows.now.schemas rows.now.table self.new) }
        ensures kept { still self.new ≡ still self.old }
        ensures least { OnOk result (IsTrue (has_next self.new) → steps.new ≡ steps.old + count_came past.now (type_of self.old)) }
        ensures bounded { (steps.old ≤ steps.new) × (steps.new ≤ steps.old + count_came past.now (type_of self.old)) };

    /// Makes what was reserved its own. It takes no memory.
    fn turn(&mut self)
        requires { IsTrue (has_next self.old) }
        ensures { self.new ≡ turned self.old };

    /// Drops what was reserved. It takes no memory.
    fn settle(&mut self)
        ensures { self.new ≡ still self.old };

    // Two that differ in what is reserved have rows of one type,
    ghost one_type: { (a b : Self) → still a ≡ still b → type_of a ≡ type_of b };

    // what follows one of them follows the other,
    ghost also_follows: { (schemas : List Schema) (table : Table) (past : List Part) (a b : Self) → still a ≡ still b → follows schemas table past b → follows schemas table past a };

    // and to drop what was reserved twice is to drop it once.
    ghost still_once: { (a : Self) → still (still a) ≡ still a };
}

impl StepIndex for KeyIndex {
    ghost use Rattle.std.specs.Prelude.{is_some};
    ghost use Rattle.std.proofs.Common.{refl};
    ghost use Rattle.read_engine.specs.Kept.{FollowsPart, IsReserved, key_type_once, moved_on, part_follows, settled};

    ghost type_of = { λ kept. kept.type_index };

    ghost has_next = { λ kept. is_some kept.next };

    ghost still = { settled };

    ghost turned = { moved_on };

    ghost follows = { FollowsPart };

    ghost is_ready = { IsReserved };

    ghost one_type = { key_type_once };

    ghost also_follows = { part_follows };

    ghost still_once = { λ a. refl };

    fn make_ready<L: Ledger>(
        &mut self,
        rows: &Coming<'_>,
        past: &[PastPart],
        steps: &mut Steps<L>,
    ) -> Result<(), AllocError> {
        let part = part_at(past, self.type_index());
        self.reserve(rows, part.gone(), part.came(), steps)
    }

    fn turn(&mut self) {
        self.update();
    }

    fn settle(&mut self) {
        self.forget();
    }
}

impl StepIndex for WalkIndex {
    ghost use Rattle.std.specs.Prelude.{is_some};
    ghost use Rattle.std.proofs.Common.{refl};
    ghost use Rattle.read_engine.specs.Kept.{FollowsWalkPart, IsWalkReady, has_walk_next, walk_follows, walk_moved_on, walk_settled, walk_type_once};

    ghost type_of = { λ walked. walked.path.type_index };

    ghost has_next = { has_walk_next };

    ghost still = { walk_settled };

    ghost turned = { walk_moved_on };

    ghost follows = { FollowsWalkPart };

    ghost is_ready = { IsWalkReady };

    ghost one_type = { walk_type_once };

    ghost also_follows = { walk_follows };

    ghost still_once = { λ a. refl };

    fn make_ready<L: Ledger>(
        &mut self,
        rows: &Coming<'_>,
        past: &[PastPart],
        steps: &mut Steps<L>,
    ) -> Result<(), AllocError> {
        let part = part_at(past, self.path().type_index);
        match self.reserve(rows, part.gone(), part.came(), steps) {
            Ok(()) => Ok(()),
            Err(WalkFault::Entries) => Ok(()),
            Err(WalkFault::Memory) => Err(AllocError),
        }
    }

    fn turn(&mut self) {
        self.update();
    }

    fn settle(&mut self) {
        self.forget();
    }
}
