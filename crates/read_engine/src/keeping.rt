//! Keeping the indexes of both kinds over a step: each is made ready for the rows that come before any type is turned, and follows behind it.
ghost use Rattle.std.specs.Prelude.{◌≡◌, ◌+◌, ◌≤◌, All, IfOk, IsTrue, OnErr, OnOk, filter, is_some, map, sum_by};
ghost use Rattle.row_model.specs.Table.{IsClosed};
ghost use Rattle.type_state.specs.Views.{table_of};
ghost use Rattle.read_engine.specs.Kept.{FollowsPart, FollowsWalkPart, IsReserved, IsWalkReady, count_came, settled, walk_moved_on, walk_settled, came_all, has_walk_next};
ghost use Rattle.state_moves.specs.Moving.{AreComing, coming_halves};

use crate::step_index::StepIndex;
use hol_io::Steps;
use hol_paths::WalkIndex;
use key_index::KeyIndex;
use schema_model::Model;
use state_moves::{Coming, PastPart, coming_of};
use std::alloc::AllocError;
use std::sync::ledger::Ledger;
use type_state::TypeState;

/// Makes the indexes of both kinds ready for the rows that come. Where memory is refused, none is.
pub(crate) fn ready_both<L: Ledger>(
    indexes: &mut [KeyIndex],
    walks: &mut [WalkIndex],
    model: &Model,
    states: &[TypeState],
    named: &[bool],
    past: &[PastPart],
    steps: &mut Steps<L>,
) -> Result<(), AllocError>
    requires coming { AreComing model.now states.now named.now }
    requires closed { IsClosed model.now (table_of (coming_halves states.now named.now)) }
    requires follow { All (FollowsPart model.now (table_of (coming_halves states.now named.now)) past.now) indexes.old }
    requires walks { All (FollowsWalkPart model.now (table_of (coming_halves states.now named.now)) past.now) walks.old }
    ensures reserved { OnOk result (All (IsReserved model.now (table_of (coming_halves states.now named.now))) indexes.new) }
    ensures ready { OnOk result (All (IsWalkReady model.now (table_of (coming_halves states.now named.now))) walks.new) }
    ensures kept { map settled indexes.new ≡ map settled indexes.old }
    ensures walks_kept { map walk_settled walks.new ≡ map walk_settled walks.old }
    ensures least { OnOk result (steps.old + came_all past.now indexes.old (filter has_walk_next walks.new) ≤ steps.new) }
    ensures bounded { (steps.old ≤ steps.new) × (steps.new ≤ steps.old + came_all past.now indexes.old walks.old) }
    ensures refused { OnErr result (indexes.new ≡ map settled indexes.old) }
    ensures walks_refused { OnErr result (walks.new ≡ map walk_settled walks.old) }
{
    let rows = coming_of(model, states, named);
    match ready_all_of(indexes, walks, &rows, past, steps) {
        Ok(()) => Ok(()),
        Err(error) => {
            settle_all(indexes);
            settle_all(walks);
            Err(error)
        }
    }
}

// Makes the indexes of both kinds ready for the rows that come, one after another. Where memory is refused some of them may be ready.
fn ready_all_of<L: Ledger>(
    indexes: &mut [KeyIndex],
    walks: &mut [WalkIndex],
    rows: &Coming<'_>,
    past: &[PastPart],
    steps: &mut Steps<L>,
) -> Result<(), AllocError>
    requires closed { IsClosed rows.now.schemas rows.now.table }
    requires follow { All (FollowsPart rows.now.schemas rows.now.table past.now) indexes.old }
    requires walks { All (FollowsWalkPart rows.now.schemas rows.now.table past.now) walks.old }
    ensures reserved { OnOk result (All (IsReserved rows.now.schemas rows.now.table) indexes.new) }
    ensures ready { OnOk result (All (IsWalkReady rows.now.schemas rows.now.table) walks.new) }
    ensures kept { map settled indexes.new ≡ map settled indexes.old }
    ensures walks_kept { map walk_settled walks.new ≡ map walk_settled walks.old }
    ensures least { OnOk result (steps.old + came_all past.now indexes.old (filter has_walk_next walks.new) ≤ steps.new) }
    ensures bounded { (steps.old ≤ steps.new) × (steps.new ≤ steps.old + came_all past.now indexes.old walks.old) }
{
    ready_all(indexes, rows, past, steps)?;
    ready_all(walks, rows, past, steps)
}

/// Makes what was reserved of each index its own. It takes no memory.
pub(crate) fn turn_all<I: StepIndex>(indexes: &mut [I])
    requires { All (λ kept. IsTrue (I.has_next kept)) indexes.old }
    ensures { indexes.new ≡ map I.turned indexes.old }
{
    for index in indexes.iter_mut() {
        index.turn();
    }
}

/// Drops those walk indexes for which nothing was reserved, and makes what was reserved of the others their own. It takes no memory.
pub(crate) fn turn_ready(walks: &mut Vec<WalkIndex>)
    ensures { walks.new.items ≡ map walk_moved_on (filter has_walk_next walks.old.items) }
{
    drop_unready(walks);
    turn_all(walks.as_mut_slice());
}

// Drops those walk indexes for which nothing was reserved.
fn drop_unready(walks: &mut Vec<WalkIndex>)
    ensures { walks.new.items ≡ filter has_walk_next walks.old.items }
{
    walks.retain(|walk| walk.is_reserved());
}

// Makes one index after the other ready for the rows that come, up to the first for which memory is refused.
fn ready_all<I: StepIndex, L: Ledger>(
    indexes: &mut [I],
    rows: &Coming<'_>,
    past: &[PastPart],
    steps: &mut Steps<L>,
) -> Result<(), AllocError>
    requires closed { IsClosed rows.now.schemas rows.now.table }
    requires follow { All (I.follows rows.now.schemas rows.now.table past.now) indexes.old }
    ensures ready { OnOk result (All (I.is_ready rows.now.schemas rows.now.table) indexes.new) }
    ensures kept { map I.still indexes.new ≡ map I.still indexes.old }
    ensures least { OnOk result (steps.old + sum_by (λ kept. count_came past.now (I.type_of kept)) (filter I.has_next indexes.new) ≤ steps.new) }
    ensures bounded { (steps.old ≤ steps.new) × (steps.new ≤ steps.old + sum_by (λ kept. count_came past.now (I.type_of kept)) indexes.old) }
{
    for place in 0..indexes.len() {
        indexes[place].make_ready(rows, past, steps)?;
    }
    Ok(())
}

// Drops what was reserved of each.
fn settle_all<I: StepIndex>(indexes: &mut [I])
    ensures { indexes.new ≡ map I.still indexes.old }
{
    for index in indexes.iter_mut() {
        index.settle();
    }
}
