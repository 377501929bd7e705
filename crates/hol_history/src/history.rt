//! The last steps of a consumer, and what they took away.
ghost use Rattle.std.specs.Prelude.{◌≡◌, ◌<◌, ◌≤◌, ◌+◌, ◌-◌, ◌^◌, ◌↔◌, ℕ, [], ◌∷◌, Some, None, true, Contains, IfSome, IsTrue, MatchOption, OnErr, OnOk, length, min, option_map, slice_get, take};
ghost use Rattle.std.specs.Option.{option_copied};
ghost use Rattle.row_model.specs.Before.{HasBefore, table_before};
ghost use Rattle.hol_history.specs.History.{StandsOn, pushed, rows_left, table_then, tables_of, versions};
ghost use Rattle.hol_history.specs.Kept.{TellsKept};
ghost use Rattle.hol_history.specs.Steps.{AreSpots, IsCountSince, IsPlaceOf, part_at, touches_at};

use crate::old_state::Then;
use crate::part::Part;
use crate::spots::{Spots, first_touch, greatest_touched};
use crate::step::Step;
use row_model::{LeftRows, Row, Rows};
use std::alloc::{AllocError, Global};
use std::collections::{BTreeSet, VecDeque};
use std::marker::Model;

/// Old states, up to a bound: for each of the last steps the version that it led from, the rows that left in it, and the ordinals that came. Rows that stay are
/// not kept: the state that the history stands on has them.
///
/// Contracts see the bound and the steps, the newest first.
#[derive(Drop)]
pub struct History {
    alloc: Global,
    bound: u32,
    /// The number of the next step. The newest one has the number before, and so on.
    next: u64,
    /// The newest first.
    steps: VecDeque<Step>,
    /// What they touched.
    spots: Spots,
}

/// What is kept of a row before a step.
pub(crate) enum Kept<'a> {
    /// The row: it left in a later step.
    Left(&'a Row),
    /// There was none: it came in a later step.
    Absent,
    /// Nothing: no later step touched it.
    Untouched,
}

impl Model for History {
    ghost use Rattle.hol_history.specs.History.{PastSteps, steps_code};
    ghost use Rattle.hol_history.specs.Steps.{AreKept};

    ghost Value = { PastSteps };

    ghost coded = { steps_code };

    ghost view = { λ h. record { bound = h.bound; steps = h.steps.items } };

    ghost invariant = { λ h. AreKept h.spots h.next h.bound h.steps.items };
}

// Puts a step in front of the others. Where memory is refused they stay.
fn add_step(
    spots: &mut Spots,
    steps: &mut VecDeque<Step>,
    step: Step,
    next: u64,
) -> Result<(), AllocError>
    requires { AreSpots spots.old next steps.old.items }
    ensures ok { OnOk result (steps.new.items ≡ step ∷ steps.old.items) }
    ensures spots { OnOk result (AreSpots spots.new (next + 1) steps.new.items) }
    ensures err { OnErr result (steps.new.items ≡ steps.old.items) }
    ensures same { OnErr result (AreSpots spots.new next steps.new.items) }
{
    if step.put_into(spots, next).is_err() {
        step.take_from(spots, next);
        return Err(AllocError);
    }
    match steps.push_front(step) {
        Ok(()) => Ok(()),
        Err(refused) => {
            refused.value.take_from(spots, next);
            Err(AllocError)
        }
    }
}

// Takes the oldest step away. It takes no memory.
fn drop_oldest(spots: &mut Spots, steps: &mut VecDeque<Step>, next: u64)
    requires some { 0 < length steps.old.items }
    requires spots { AreSpots spots.old next steps.old.items }
    ensures steps { steps.new.items ≡ take (length steps.old.items - 1) steps.old.items }
    ensures spots { AreSpots spots.new next steps.new.items }
{
    let number = next - steps.len() as u64;
    if let Some(step) = steps.pop_back() {
        step.take_from(spots, number);
    }
}

impl History {
    /// A history of no steps, which keeps so many at most. It takes no memory.
    pub fn new(alloc: Global, bound: u32) -> History
        ensures { result ≡ record { bound = bound; steps = [] } }
    {
        History {
            alloc,
            bound,
            next: 0,
            steps: VecDeque::new(alloc),
            spots: BTreeSet::new(alloc),
        }
    }

    /// Puts a step in front, from a version to the state now, and drops the oldest one where there are more than the bound. `before` tells what the step changed;
    /// the history stands on the state before it, and afterwards on the one now. Where memory is refused all stays.
    pub fn push<A: LeftRows, B: Rows>(
        &mut self,
        before: &A,
        now: &B,
        from: u64,
    ) -> Result<(), AllocError>
        requires fits { HasBefore (B.schemas now.now) (B.table now.now) (A.past before.now) }
        requires stood { StandsOn (B.schemas now.now) (table_before (B.table now.now) (A.past before.now)) self.old.steps }
        ensures ok { OnOk result (self.new ≡ pushed self.old from (A.past before.now)) }

        // The version and the table before the step stand in front, and the list is cut to the bound.
        ensures past { OnOk result (let before = table_before (B.table now.now) (A.past before.now) in tables_of (B.table now.now) self.new.steps ≡ take self.old.bound ((from, before) ∷ tables_of before self.old.steps)) }
        ensures stands { OnOk result (StandsOn (B.schemas now.now) (B.table now.now) self.new.steps) }
        ensures err { OnErr result (self.new ≡ self.old) }
    {
        if self.bound == 0 {
            return Ok(());
        }
        let step = Step::of(self.alloc, before, now.model().len(), from)?;
        self.put(step)
    }

    // Puts a step in front, and drops the oldest one where there are more than the bound. Where the numbers of steps are used up, after 2^64 - 1 pushes since
    // the last `clear`, memory is said to be refused.
    fn put(&mut self, step: Step) -> Result<(), AllocError>
        requires { 0 < self.old.bound }
        ensures ok { OnOk result (self.new ≡ record self.old { steps = take self.old.bound (step ∷ self.old.steps) }) }
        ensures err { OnErr result (self.new ≡ self.old) }
    {
        if self.next == u64::MAX {
            return Err(AllocError);
        }
        add_step(&mut self.spots, &mut self.steps, step, self.next)?;
        self.next += 1;
        if self.steps.len() > self.bound as usize {
            drop_oldest(&mut self.spots, &mut self.steps, self.next);
        }
        Ok(())
    }

    /// Forgets all steps; the bound stays. It takes no memory.
    pub fn clear(&mut self)
        ensures { self.new ≡ record self.old { steps = [] } }
    {
        self.steps.clear();
        self.spots.clear();
        self.next = 0;
    }

    // The place of the newest step from a version.
    fn place_of(&self, version: u64) -> Option<usize>
        ensures place { IsPlaceOf self.now.steps version result }
        ensures low { IfSome result (λ place. place < 2 ^ 64 - 1) }
    {
        for place in 0..self.steps.len() {
            if self.steps[place].version() == version {
                return Some(place);
            }
        }
        None
    }

    /// Whether one of the steps led from a version.
    pub fn reaches(&self, version: u64) -> bool
        ensures { IsTrue result ↔ Contains (versions self.now.steps) version }
    {
        self.place_of(version).is_some()
    }

    /// The rows of a version that the history reaches, given those that it stands on. Of several steps from the version the newest one counts.
    pub fn then<'a, R: Rows>(&'a self, now: &'a R, version: u64) -> Then<'a, R>
        requires reached { Contains (versions self.now.steps) version }
        requires stands { StandsOn (R.schemas now.now) (R.table now.now) self.now.steps }
        ensures schemas { result.schemas ≡ R.schemas now.now }
        ensures table { table_then (tables_of (R.table now.now) self.now.steps) version ≡ Some result.table }
    {
        let place = self.place_of(version).unwrap();
        Then::new(self, now, place)
    }

    /// How many steps led from a version that the history reaches to the state that it stands on: the newest step from the version, and all behind it.
    pub fn steps_since(&self, version: u64) -> usize
        requires { Contains (versions self.now.steps) version }
        ensures { IsCountSince self.now.steps version result }
    {
        self.place_of(version).unwrap() + 1
    }

    /// What the step at a place changed of a type, if there is such a type. The newest step stands at 0.
    pub fn part(&self, place: usize, type_index: u32) -> Option<&Part>
        requires { place < length self.now.steps }
        ensures { option_copied result ≡ part_at self.now.steps place type_index }
    {
        self.steps[place].part_of(type_index)
    }

    /// How many rows are kept: those that left in the steps, at most 2^64 - 1.
    pub fn rows_kept(&self) -> u64
        ensures { result ≡ min (rows_left self.now.steps) (2 ^ 64 - 1) }
    {
        let mut rows = 0u64;
        for place in 0..self.steps.len() {
            rows = rows.saturating_add(self.steps[place].rows_left());
        }
        rows
    }

    /// What is kept of the row of a type under an ordinal before the step at a place: one look-up over all later steps.
    pub(crate) fn kept(&self, place: usize, type_index: u32, ordinal: u32) -> Kept<'_>
        requires { place < length self.now.steps }
        ensures { TellsKept self.now.steps place type_index ordinal result }
    {
        let newest = self.next - 1;
        let Some(first) = first_touch(&self.spots, type_index, ordinal, newest - place as u64)
        else {
            return Kept::Untouched;
        };
        let step = &self.steps[(newest - first) as usize];
        match step.part(type_index).left_row(ordinal) {
            Some(row) => Kept::Left(row),
            None => Kept::Absent,
        }
    }

    /// A number that no ordinal exceeds under which a step touched a row of a type.
    pub(crate) fn greatest(&self, type_index: u32) -> u32
        ensures { (place ordinal : ℕ) → ordinal < 2 ^ 32 → touches_at self.now.steps place type_index ordinal ≡ true → ordinal ≤ result }
    {
        greatest_touched(&self.spots, type_index, self.next)
    }
}
