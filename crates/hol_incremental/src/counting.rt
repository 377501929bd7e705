//! The rows that one state has and another lacks: the counts of what they name, and their sums.
ghost use Rattle.std.specs.Prelude.{◌≡◌, ◌+◌, ◌<◌, ℕ, All, OnOk, length};
ghost use Rattle.row_model.specs.Table.{IsClosed, IsLive, IsTableOf};
ghost use Rattle.hol_incremental.specs.Counted.{CountsMore, CountsOf};
ghost use Rattle.write_engine.specs.Cycle.{no_rows};
ghost use Rattle.hol_incremental.specs.Beside.{IsPartOf};
ghost use Rattle.hol_incremental.specs.Counts.{named_at, times_among};
ghost use Rattle.hol_incremental.specs.EditKeys.{AreCounts, count_at, no_counts};
ghost use Rattle.hol_incremental.specs.Sums.{AddsRowAt, AreSums};

use crate::counts::Counts;
use crate::references::read_coming;
use crate::tally::Tally;
use hol_io::Steps;
use row_model::Rows;
use row_packing::OrdinalRows;
use std::alloc::{AllocError, Global};
use std::sync::ledger::Ledger;

/// Counts the rows of a state and what they name. It counts a step for each row.
pub(crate) fn count_all<R: Rows, L: Ledger>(
    alloc: Global,
    rows: &R,
    tally: &mut Tally,
    steps: &mut Steps<L>,
) -> Result<(), AllocError>
    requires closed { IsClosed (R.schemas rows.now) (R.table rows.now) }
    requires none { tally.old.counts ≡ no_counts (length (R.schemas rows.now)) }
    requires sums { AreSums (R.schemas rows.now) (no_rows (length (R.schemas rows.now))) tally.old.sums.items }
    ensures { OnOk result (CountsOf (R.schemas rows.now) (no_rows (length (R.schemas rows.now))) (R.table rows.now) tally.new.counts tally.new.sums.items steps.old steps.new) }
{
    for type_index in 0..rows.model().len() {
        count_type(alloc, rows, type_index, tally, steps)?;
    }
    Ok(())
}

// Counts the rows of a type, and what they name. It counts a step for each row.
fn count_type<R: Rows, L: Ledger>(
    alloc: Global,
    rows: &R,
    type_index: u32,
    tally: &mut Tally,
    steps: &mut Steps<L>,
) -> Result<(), AllocError>
    requires fits { IsTableOf (R.schemas rows.now) (R.table rows.now) }
    requires closed { IsClosed (R.schemas rows.now) (R.table rows.now) }
    requires types { length tally.old.counts ≡ length (R.schemas rows.now) }
    requires sums { length tally.old.sums.items ≡ length (R.schemas rows.now) }
    requires known { type_index < length (R.schemas rows.now) }
    ensures { OnOk result (CountsMore (R.schemas rows.now) (no_rows (length (R.schemas rows.now))) (R.table rows.now) type_index tally.old.counts tally.old.sums.items steps.old tally.new.counts tally.new.sums.items steps.new) }
{
    for ordinal in 0..rows.bound(type_index) {
        if rows.is_live(type_index, ordinal) {
            count_row(alloc, rows, type_index, ordinal, tally, steps)?;
        }
    }
    Ok(())
}

/// Counts those rows of a state, and what they name, that another one lacks, whose rows are counted. It counts a step for each of them.
pub(crate) fn count_beside<A: OrdinalRows, B: OrdinalRows, L: Ledger>(
    alloc: Global,
    rows: &A,
    before: &B,
    tally: &mut Tally,
    steps: &mut Steps<L>,
) -> Result<(), AllocError>
    requires model { B.schemas before.now ≡ A.schemas rows.now }
    requires closed { IsClosed (A.schemas rows.now) (A.table rows.now) }
    requires more { IsPartOf (B.table before.now) (A.table rows.now) }
    requires types { length (B.table before.now) ≡ length (A.table rows.now) }
    requires counts { AreCounts (A.schemas rows.now) (B.table before.now) tally.old.counts }
    requires sums { AreSums (A.schemas rows.now) (B.table before.now) tally.old.sums.items }
    ensures { OnOk result (CountsOf (A.schemas rows.now) (B.table before.now) (A.table rows.now) tally.new.counts tally.new.sums.items steps.old steps.new) }
{
    for type_index in 0..rows.model().len() {
        count_type_beside(alloc, rows, before, type_index, tally, steps)?;
    }
    Ok(())
}

// Counts those rows of a type, and what they name, that another state lacks. It counts a step for each of them.
fn count_type_beside<A: OrdinalRows, B: OrdinalRows, L: Ledger>(
    alloc: Global,
    rows: &A,
    before: &B,
    type_index: u32,
    tally: &mut Tally,
    steps: &mut Steps<L>,
) -> Result<(), AllocError>
    requires model { B.schemas before.now ≡ A.schemas rows.now }
    requires fits { IsTableOf (A.schemas rows.now) (A.table rows.now) }
    requires closed { IsClosed (A.schemas rows.now) (A.table rows.now) }
    requires more { IsPartOf (B.table before.now) (A.table rows.now) }
    requires types { length tally.old.counts ≡ length (A.schemas rows.now) }
    requires sums { length tally.old.sums.items ≡ length (A.schemas rows.now) }
    requires known { type_index < length (A.schemas rows.now) }
    ensures { OnOk result (CountsMore (A.schemas rows.now) (B.table before.now) (A.table rows.now) type_index tally.old.counts tally.old.sums.items steps.old tally.new.counts tally.new.sums.items steps.new) }
{
    let ordinals = rows.ordinals(type_index);
    let others = before.ordinals(type_index);
    let mut from = 0;
    while let Some(ordinal) = ordinals.first_beside(others, from) {
        count_row(alloc, rows, type_index, ordinal, tally, steps)?;
        from = ordinal + 1;
    }
    Ok(())
}

// Counts the row under a live ordinal, and what it names.
fn count_row<R: Rows, L: Ledger>(
    alloc: Global,
    rows: &R,
    type_index: u32,
    ordinal: u32,
    tally: &mut Tally,
    steps: &mut Steps<L>,
) -> Result<(), AllocError>
    requires closed { IsClosed (R.schemas rows.now) (R.table rows.now) }
    requires fits { IsTableOf (R.schemas rows.now) (R.table rows.now) }
    requires live { IsLive (R.table rows.now) type_index ordinal }
    requires types { length tally.old.counts ≡ length (R.schemas rows.now) }
    requires sums { length tally.old.sums.items ≡ length (R.schemas rows.now) }
    ensures types { OnOk result (length tally.new.counts ≡ length tally.old.counts) }
    ensures raised { OnOk result ((other place : ℕ) → count_at tally.new.counts other place ≡ count_at tally.old.counts other place + times_among other place (named_at (R.schemas rows.now) (R.table rows.now) type_index ordinal)) }
    ensures sums { OnOk result (AddsRowAt (R.schemas rows.now) (R.table rows.now) type_index ordinal tally.old.sums.items tally.new.sums.items) }
    ensures counted { OnOk result (steps.new ≡ steps.old + 1) }
{
    let named = read_coming(alloc, rows, type_index, ordinal, &mut tally.sums, steps)?;
    raise_all(&mut tally.counts, named.as_slice())
}

// One place more names each of these rows.
fn raise_all(counts: &mut Counts, named: &[(u32, u32)]) -> Result<(), AllocError>
    requires { All (λ row. row.0 < length counts.old) named.now }
    ensures types { OnOk result (length counts.new ≡ length counts.old) }
    ensures raised { OnOk result ((type_index ordinal : ℕ) → count_at counts.new type_index ordinal ≡ count_at counts.old type_index ordinal + times_among type_index ordinal named.now) }
{
    for row in named {
        counts.raise(*row)?;
    }
    Ok(())
}
