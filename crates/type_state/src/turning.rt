//! The next half laid out beside the current one.
ghost use Rattle.std.specs.Prelude.{◌≡◌, [], OnErr, OnOk};
ghost use Rattle.packed_half.specs.LaidOut.{IsLaidOut};
ghost use Rattle.packed_half.specs.Laying.{CanLay};
ghost use Rattle.type_state.specs.Moved.{IsOfPatch};
ghost use Rattle.type_state.specs.Differences.{AreApart, rows_with};
ghost use Rattle.type_state.specs.Kept.{IsHalf, IsPacked, half_rows};
ghost use Rattle.type_state.specs.Recorded.{CanCopy};

use crate::fixed_moves::{can_copy, kept_words, lay_fixed};
use crate::moving::{Move, lay_moved};
use packed_half::{HalfRows, HalfShape, words_of_half};
use raw_words::{Halves, TwinWords};
use schema_model::Schema;
use std::alloc::{AllocError, Global};

/// Leaves no words in the next half of two. It takes no memory.
pub(crate) fn clear_next(twin: &mut TwinWords)
    ensures { twin.new ≡ record twin.old { other = [] } }
{
    twin.reserve_next(0).unwrap();
}

/// Lays out the rows of a move in the next half of two, in the words that it takes. Where memory is refused the next half has no words.
pub(crate) fn lay_moved_next(
    alloc: Global,
    schema: &Schema,
    current: &HalfShape,
    next: &Move<'_, '_>,
    twin: &mut TwinWords,
) -> Result<(), AllocError>
    requires kept { IsHalf schema.now.shape current.now twin.old.current }
    requires of { IsOfPatch schema.now.shape next.now }
    requires apart { AreApart next.now.differences }
    requires can { CanLay schema.now.shape next.now.half (rows_with (half_rows schema.now.shape current.now twin.old.current) next.now.differences) }
    ensures current { twin.new.current ≡ twin.old.current }
    ensures lost { OnErr result (twin.new.other ≡ []) }
    ensures laid { OnOk result (IsLaidOut schema.now.shape next.now.half twin.new.other (rows_with (half_rows schema.now.shape current.now twin.old.current) next.now.differences)) }
{
    clear_next(twin);
    if can_copy(&schema.shape, current, &next.half) {
        return lay_copied_next(schema, current, next, twin);
    }
    lay_other_next(alloc, schema, current, next, twin)
}

/// Lays out the rows of a move in the next half of two where the current words may be copied: that half begins with copies of those that the records of both
/// fill. Words are cleared before others are copied over them only in a new block. Where memory is refused the next half has no words.
#[tactic(auto, using(crate::proofs::Fitting::moved_fit))]
fn lay_copied_next(
    schema: &Schema,
    current: &HalfShape,
    next: &Move<'_, '_>,
    twin: &mut TwinWords,
) -> Result<(), AllocError>
    requires kept { IsPacked schema.now.shape current.now twin.old.current }
    requires copies { CanCopy schema.now.shape current.now next.now.half }
    requires of { IsOfPatch schema.now.shape next.now }
    requires apart { AreApart next.now.differences }
    requires can { CanLay schema.now.shape next.now.half (rows_with (half_rows schema.now.shape current.now twin.old.current) next.now.differences) }
    requires none { twin.old.other ≡ [] }
    ensures current { twin.new.current ≡ twin.old.current }
    ensures lost { OnErr result (twin.new.other ≡ []) }
    ensures laid { OnOk result (IsLaidOut schema.now.shape next.now.half twin.new.other (rows_with (half_rows schema.now.shape current.now twin.old.current) next.now.differences)) }
{
    let kept = kept_words(current, &next.half);
    let words = words_of_half(&schema.shape, &next.half);
    twin.copy_next(kept as usize, words as usize)?;
    let Halves { from, to } = twin.split();
    let current = HalfRows {
        shape: &schema.shape,
        half: current,
        words: from,
    };
    lay_fixed(schema, current, next, to);
    Ok(())
}

/// Lays out the rows of any move in the next half of two, in words of zeros. Where memory is refused the next half has no words.
#[tactic(auto, using(crate::proofs::Fitting::moved_fit))]
fn lay_other_next(
    alloc: Global,
    schema: &Schema,
    current: &HalfShape,
    next: &Move<'_, '_>,
    twin: &mut TwinWords,
) -> Result<(), AllocError>
    requires kept { IsHalf schema.now.shape current.now twin.old.current }
    requires of { IsOfPatch schema.now.shape next.now }
    requires apart { AreApart next.now.differences }
    requires can { CanLay schema.now.shape next.now.half (rows_with (half_rows schema.now.shape current.now twin.old.current) next.now.differences) }
    requires none { twin.old.other ≡ [] }
    ensures current { twin.new.current ≡ twin.old.current }
    ensures lost { OnErr result (twin.new.other ≡ []) }
    ensures laid { OnOk result (IsLaidOut schema.now.shape next.now.half twin.new.other (rows_with (half_rows schema.now.shape current.now twin.old.current) next.now.differences)) }
{
    twin.reserve_next(words_of_half(&schema.shape, &next.half) as usize)?;
    let Halves { from, to } = twin.split();
    let current = HalfRows {
        shape: &schema.shape,
        half: current,
        words: from,
    };
    match lay_moved(alloc, schema, current, next, to) {
        Ok(()) => Ok(()),
        Err(refused) => {
            clear_next(twin);
            Err(refused)
        }
    }
}
