//! What is measured of a type over the rows of two states, once for its limits and for what is chosen.
ghost use Rattle.std.specs.Prelude.{◌≡◌, ◌<◌, ℕ, length, max, IfOk, OnOk};
ghost use Rattle.schema_model.specs.declared.limit.Limit.TheVariants.{Ordinals};
ghost use Rattle.schema_model.specs.Limit.{number_of_limit};
ghost use Rattle.row_model.specs.Table.{IsTableOf};
ghost use Rattle.row_model.specs.BothStates.{rows_of_both};
ghost use Rattle.object_codec.specs.Widths.{bytes_for, live_rows};
ghost use Rattle.row_packing.specs.Chosen.{shape_at, chosen_total, chosen_widths, IsLiveInEither, KeepsCounts};
ghost use Rattle.row_packing.specs.Measured.{IsHeld, IsMeasured};

use crate::chosen::{Chosen, greatest_ordinal, total, widths};
use record_copies::is_fixed;
use row_model::{Rows, Widths};
use row_widths::records;
use schema_model::{MAX_BYTES, MAX_ITEMS};
use std::alloc::{AllocError, Global};

/// What the rows of a type hold in one state, each number one more than its limit where it is more.
#[derive(Clone, Copy, Debug)]
pub struct Held {
    /// The number of elements or buckets; 0 for an OBJECT.
    pub items: u64,
    /// The number of variable bytes.
    pub bytes: u64,
}

/// What is measured of the rows of a type in an old and a new state.
#[derive(Debug, Drop)]
pub struct Measured {
    /// What is chosen for the rows of both. Where they pass a limit on ordinals, items or bytes they are not laid out, and the widths mean nothing.
    pub chosen: Chosen,
    /// What those of the old state hold.
    pub old: Held,
    /// What those of the new state hold.
    pub new: Held,
}

/// Measures the rows of a type in an old and a new state of one model.
pub fn measure<A: Rows, B: Rows>(
    alloc: Global,
    old: &A,
    new: &B,
    type_index: u32,
) -> Result<Measured, AllocError>
    requires model { A.schemas old.now ≡ B.schemas new.now }
    requires known { type_index < length (B.schemas new.now) }
    requires ordinals { (ordinal : ℕ) → IsLiveInEither (A.table old.now) (B.table new.now) type_index ordinal → ordinal < number_of_limit Ordinals }
    ensures { IfOk result (IsMeasured (shape_at (B.schemas new.now) type_index) (A.table old.now) (B.table new.now) type_index) }
{
    let old_held = held_in(alloc, old, type_index)?;
    let new_held = held_in(alloc, new, type_index)?;
    let total = total(alloc, old, new, type_index)?;
    let bytes = old_held.bytes.max(new_held.bytes);
    Ok(Measured {
        chosen: Chosen {
            max: greatest_ordinal(old, new, type_index),
            widths: widths_within(alloc, old, new, type_index, total, bytes)?,
            total,
        },
        old: old_held,
        new: new_held,
    })
}

// What the rows of a type hold in a state.
fn held_in<R: Rows>(alloc: Global, rows: &R, type_index: u32) -> Result<Held, AllocError>
    requires { type_index < length (R.schemas rows.now) }
    ensures held { IfOk result (IsHeld (shape_at (R.schemas rows.now) type_index) (R.table rows.now) type_index) }
    ensures fits { OnOk result (IsTableOf (R.schemas rows.now) (R.table rows.now)) }
{
    Ok(Held {
        items: total(alloc, rows, rows, type_index)?,
        bytes: bytes(alloc, rows, type_index)?,
    })
}

// How many variable bytes the rows of a type have in a state, or one more than the limit. Those of a type without STRING and BYTES are not looked at.
fn bytes<R: Rows>(alloc: Global, rows: &R, type_index: u32) -> Result<u64, AllocError>
    requires { type_index < length (R.schemas rows.now) }
    ensures bytes { IfOk result (λ bytes. bytes ≡ bytes_for (live_rows (R.table rows.now) type_index)) }
    ensures fits { IsTableOf (R.schemas rows.now) (R.table rows.now) }
{
    if is_fixed(rows.model().schema(type_index).shape.fields()) {
        return Ok(0);
    }
    records::bytes(alloc, rows, type_index)
}

// The widths for the rows of both states; none where they pass a limit by their total or the bytes of a state, and so are not laid out.
fn widths_within<A: Rows, B: Rows>(
    alloc: Global,
    old: &A,
    new: &B,
    type_index: u32,
    total: u64,
    bytes: u64,
) -> Result<Widths, AllocError>
    requires model { A.schemas old.now ≡ B.schemas new.now }
    requires known { type_index < length (B.schemas new.now) }
    requires ordinals { (ordinal : ℕ) → IsLiveInEither (A.table old.now) (B.table new.now) type_index ordinal → ordinal < number_of_limit Ordinals }
    requires total { total ≡ chosen_total (shape_at (B.schemas new.now) type_index) (rows_of_both (A.table old.now) (B.table new.now) type_index) }
    requires bytes { bytes ≡ max (bytes_for (live_rows (A.table old.now) type_index)) (bytes_for (live_rows (B.table new.now) type_index)) }
    ensures { IfOk result (λ widths. KeepsCounts (shape_at (B.schemas new.now) type_index) (A.table old.now) (B.table new.now) type_index
        → widths ≡ chosen_widths (shape_at (B.schemas new.now) type_index) (rows_of_both (A.table old.now) (B.table new.now) type_index)) }
{
    if total > MAX_ITEMS || bytes > MAX_BYTES {
        return Ok(Widths::new(alloc));
    }
    widths(alloc, old, new, type_index)
}
