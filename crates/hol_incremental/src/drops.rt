//! Rows that nobody names any longer leave the cycle.
ghost use Rattle.std.specs.Prelude.{◌≡◌, ◌+◌, ◌<◌, ◌≤◌, ◌++◌, ◌∷◌, [], ◌↔◌, ℕ, All, IsTrue, OnOk, false, length};
ghost use Rattle.row_model.specs.Table.{Table};
ghost use Rattle.hol_incremental.specs.Counts.{size_of, times_among};
ghost use Rattle.hol_incremental.specs.Drops.{AreUnnamed, IsDropping, IsHeld, IsLowered, MayFall};
ghost use Rattle.hol_incremental.specs.EditKeys.{AreTallied, count_at};
ghost use Rattle.hol_incremental.specs.Roots.{IsKeyed};

use crate::counts::Counts;
use crate::references::read_leaving;
use crate::row_set::RowSet;
use crate::tally::Tally;
use hol_io::Steps;
use schema_model::{Model, Shape};
use std::alloc::{AllocError, Global};
use std::sync::ledger::Ledger;
use write_engine::Producer;

/// Takes rows that no row names out of the cycle, and with them the rows that nobody names then: those of types without a primary key, and of the others those
/// that leave. It counts a step for each row.
pub(crate) fn drop_all<L: Ledger>(
    alloc: Global,
    producer: &mut Producer,
    tally: &mut Tally,
    leaving: &RowSet,
    pending: &mut Vec<(u32, u32)>,
    steps: &mut Steps<L>,
) -> Result<(), AllocError>
    requires open { producer.old.closed ≡ false }
    requires counts { AreTallied producer.old.schemas producer.old.current tally.old.counts tally.old.sums.items }
    requires unnamed { AreUnnamed producer.old.schemas producer.old.current pending.old.items }
    ensures left { OnOk result ((start held : Table) → IsHeld producer.old.schemas leaving.now start held → IsDropping producer.old.schemas leaving.now start held producer.old.current pending.old.items
        → IsDropping producer.old.schemas leaving.now start held producer.new.current []) }
    ensures counts { OnOk result (AreTallied producer.old.schemas producer.new.current tally.new.counts tally.new.sums.items) }
    ensures counted { OnOk result (steps.new + size_of producer.old.schemas producer.new.current ≡ steps.old + size_of producer.old.schemas producer.old.current) }
    ensures kept { producer.new ≡ record producer.old { current = producer.new.current } }
{
    while let Some(row) = pending.pop() {
        take_out(alloc, producer, tally, leaving, row, pending, steps)?;
    }
    Ok(())
}

// Takes out one of the rows that no row names, and adds to the others those that nobody names then.
fn take_out<L: Ledger>(
    alloc: Global,
    producer: &mut Producer,
    tally: &mut Tally,
    leaving: &RowSet,
    row: (u32, u32),
    pending: &mut Vec<(u32, u32)>,
    steps: &mut Steps<L>,
) -> Result<(), AllocError>
    requires open { producer.old.closed ≡ false }
    requires counts { AreTallied producer.old.schemas producer.old.current tally.old.counts tally.old.sums.items }
    requires unnamed { AreUnnamed producer.old.schemas producer.old.current (pending.old.items ++ row ∷ []) }
    ensures unnamed { OnOk result (AreUnnamed producer.old.schemas producer.new.current pending.new.items) }
    ensures left { OnOk result ((start held : Table) → IsHeld producer.old.schemas leaving.now start held → IsDropping producer.old.schemas leaving.now start held producer.old.current (pending.old.items ++ row ∷ [])
        → IsDropping producer.old.schemas leaving.now start held producer.new.current pending.new.items) }
    ensures counts { OnOk result (AreTallied producer.old.schemas producer.new.current tally.new.counts tally.new.sums.items) }
    ensures counted { OnOk result (steps.new ≡ steps.old + 1) }
    ensures size { OnOk result (size_of producer.old.schemas producer.new.current + 1 ≡ size_of producer.old.schemas producer.old.current) }
    ensures kept { producer.new ≡ record producer.old { current = producer.new.current } }
{
    let rows = producer.current();
    let named = read_leaving(alloc, &rows, row.0, row.1, &mut tally.sums, steps)?;
    producer.drop_row(row.0, row.1);
    lower_all(
        producer.model(),
        named.as_slice(),
        &mut tally.counts,
        leaving,
        pending,
    )
}

// One place less names each of these rows; those that nobody names then, and that may leave, come behind the others.
fn lower_all(
    model: &Model,
    named: &[(u32, u32)],
    counts: &mut Counts,
    leaving: &RowSet,
    pending: &mut Vec<(u32, u32)>,
) -> Result<(), AllocError>
    requires known { All (λ row. row.0 < length model.now) named.now }
    requires enough { (type_index ordinal : ℕ) → times_among type_index ordinal named.now ≤ count_at counts.old type_index ordinal }
    ensures { OnOk result (IsLowered (MayFall model.now leaving.now) named.now counts.old counts.new pending.old.items pending.new.items) }
{
    for row in named {
        counts.lower(*row);
        if counts.at(*row) == 0 && may_fall(model, leaving, *row) {
            pending.push(*row)?;
        }
    }
    Ok(())
}

// Whether a row leaves where nobody names it any longer: its type has no primary key, or it leaves the edited list.
fn may_fall(model: &Model, leaving: &RowSet, row: (u32, u32)) -> bool
    requires { row.0 < length model.now }
    ensures { IsTrue result ↔ MayFall model.now leaving.now row }
{
    !is_keyed(model, row.0) || leaving.contains(row)
}

// Whether a type has a primary key.
fn is_keyed(model: &Model, type_index: u32) -> bool
    requires { type_index < length model.now }
    ensures { IsTrue result ↔ IsKeyed model.now type_index }
{
    match &model.schema(type_index).shape {
        Shape::Object(key, _) => key.is_some(),
        _ => false,
    }
}
