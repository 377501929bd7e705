//! The first rows in which two states differ.
ghost use Rattle.std.specs.Prelude.{◌≡◌, ◌<◌, ◌↔◌, ℕ, IfOk, IfSome, IsTrue, length};
ghost use Rattle.row_model.specs.Table.{IsLive, IsTableOf, row_at};
ghost use Rattle.chain_check.specs.Compare.{FirstOtherOrdinal, FirstOtherRow};

use crate::{RowPlace, Walk};
use column_rows::are_same;
use row_hash::same_row;
use row_model::Rows;
use std::alloc::{AllocError, Global};

/// The place of the first rows of a model that differ in two states, one of them missing included: the first type, and its least such ordinal.
/// `None` exactly where all rows are the same. A type is asked as a whole first, and then looked at where it stands packed; where neither tells
/// that its rows are the same, they are looked at one by one. No state is copied.
pub fn first_other_row<W: Walk>(
    alloc: Global,
    walked: &W,
    fresh: &W,
) -> Result<Option<RowPlace>, AllocError>
    requires models { W.schemas walked.now ≡ W.schemas fresh.now }
    requires fits { IsTableOf (W.schemas fresh.now) (W.table fresh.now) }
    ensures first { IfOk result (FirstOtherRow (W.table walked.now) (W.table fresh.now)) }
    ensures inside { IfOk result (λ place. IfSome place (λ at. at.type_index < length (W.schemas fresh.now))) }
{
    for type_index in 0..walked.model().len() {
        if let Some(ordinal) = first_other_of_type(alloc, walked, fresh, type_index)? {
            return Ok(Some(RowPlace {
                type_index,
                ordinal,
            }));
        }
    }
    Ok(None)
}

/// The place of the first rows of a model that differ in a state and in rows of the model seen in another way, one of them missing included; `None` exactly
/// where all rows are the same. They are looked at one by one.
pub fn first_other_seen<A: Rows, B: Rows>(
    alloc: Global,
    walked: &A,
    seen: &B,
) -> Result<Option<RowPlace>, AllocError>
    requires models { A.schemas walked.now ≡ B.schemas seen.now }
    ensures first { IfOk result (FirstOtherRow (A.table walked.now) (B.table seen.now)) }
    ensures inside { IfOk result (λ place. IfSome place (λ at. at.type_index < length (A.schemas walked.now))) }
{
    for type_index in 0..seen.model().len() {
        if let Some(ordinal) = first_other_ordinal(alloc, walked, seen, type_index)? {
            return Ok(Some(RowPlace {
                type_index,
                ordinal,
            }));
        }
    }
    let _types = walked.model().len();
    Ok(None)
}

// The least ordinal under which the rows of a type differ; where they are seen to be the same as a whole, none is made.
fn first_other_of_type<W: Walk>(
    alloc: Global,
    walked: &W,
    fresh: &W,
    type_index: u32,
) -> Result<Option<u32>, AllocError>
    requires type_there { type_index < length (W.schemas walked.now) }
    requires models { W.schemas walked.now ≡ W.schemas fresh.now }
    requires fits { IsTableOf (W.schemas fresh.now) (W.table fresh.now) }
    ensures { IfOk result (FirstOtherOrdinal (W.table walked.now) (W.table fresh.now) type_index) }
{
    if walked.has_same_rows(fresh, type_index) || are_same(walked, fresh, type_index) {
        return Ok(None);
    }
    first_other_ordinal(alloc, walked, fresh, type_index)
}

// The least ordinal under which the rows of a type differ, looked for row by row; `None` where there is none.
fn first_other_ordinal<A: Rows, B: Rows>(
    alloc: Global,
    walked: &A,
    fresh: &B,
    type_index: u32,
) -> Result<Option<u32>, AllocError>
    ensures { IfOk result (FirstOtherOrdinal (A.table walked.now) (B.table fresh.now) type_index) }
{
    for ordinal in 0..bound_of_both(walked, fresh, type_index) {
        if !is_same_at(alloc, walked, fresh, type_index, ordinal)? {
            return Ok(Some(ordinal));
        }
    }
    Ok(None)
}

// An ordinal that is above all live ones of a type in both states.
fn bound_of_both<A: Rows, B: Rows>(walked: &A, fresh: &B, type_index: u32) -> u32
    ensures walked { (ordinal : ℕ) → IsLive (A.table walked.now) type_index ordinal → ordinal < result }
    ensures fresh { (ordinal : ℕ) → IsLive (B.table fresh.now) type_index ordinal → ordinal < result }
{
    let bound = walked.bound(type_index);
    let other = fresh.bound(type_index);
    if bound < other { other } else { bound }
}

// Whether both states have the same row of a type under an ordinal, or both have none.
fn is_same_at<A: Rows, B: Rows>(
    alloc: Global,
    walked: &A,
    fresh: &B,
    type_index: u32,
    ordinal: u32,
) -> Result<bool, AllocError>
    ensures { IfOk result (λ same. IsTrue same ↔ (row_at (A.table walked.now) type_index ordinal ≡ row_at (B.table fresh.now) type_index ordinal)) }
{
    if !walked.is_live(type_index, ordinal) {
        return Ok(!fresh.is_live(type_index, ordinal));
    }
    if !fresh.is_live(type_index, ordinal) {
        return Ok(false);
    }
    let row = walked.lend(alloc, type_index, ordinal)?;
    let other = fresh.lend(alloc, type_index, ordinal)?;
    Ok(same_row(row.row(), other.row()))
}
