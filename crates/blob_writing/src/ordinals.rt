//! The ordinals of a type in a delta.
ghost use Rattle.std.specs.Prelude.{◌≡◌, ◌++◌, OnOk, OnErr, length, take};
ghost use Rattle.std.specs.List.Sorted.{IsStrictlyIncreasing};
ghost use Rattle.ordinal_set.specs.Gaps.{gap_bytes};
ghost use Rattle.blob_writing.specs.Carried.{FitGaps};
ghost use Rattle.blob_writing.specs.Written.{area_bytes, ordinals_bytes};

use crate::items::{or_undone, push_area};
use hol_varint::Ordinals;
use ordinal_set::put_gaps;
use std::alloc::AllocError;

/// Writes the ordinals of a delta at the end: those that it removes, and behind them those that it adds, each list as the
/// number of its bytes and the VInts of its gaps.
///
/// Both lists rise. Where memory is refused nothing is written.
pub fn put_ordinals(
    out: &mut Vec<u8>,
    removed: &Ordinals,
    added: &Ordinals,
) -> Result<(), AllocError>
    requires removed { IsStrictlyIncreasing removed.now }
    requires added { IsStrictlyIncreasing added.now }
    ensures ok { OnOk result (out.new.items ≡ out.old.items ++ ordinals_bytes removed.now added.now) }
    ensures fits { OnOk result (FitGaps removed.now × FitGaps added.now) }
    ensures err { OnErr result (out.new.items ≡ out.old.items) }
{
    let start = out.len();
    let written = push_ordinals(out, removed, added);
    or_undone(out, start, written)
}

// Writes the ordinals that a delta removes, and behind them those that it adds, at the end. Where memory is refused the first of them may stand there.
fn push_ordinals(out: &mut Vec<u8>, removed: &Ordinals, added: &Ordinals) -> Result<(), AllocError>
    requires removed { IsStrictlyIncreasing removed.now }
    requires added { IsStrictlyIncreasing added.now }
    ensures ok { OnOk result (out.new.items ≡ out.old.items ++ ordinals_bytes removed.now added.now) }
    ensures fits { OnOk result (FitGaps removed.now × FitGaps added.now) }
    ensures kept { take (length out.old.items) out.new.items ≡ out.old.items }
{
    push_run(out, removed)?;
    push_run(out, added)
}

// One list, as the number of its bytes and its gaps.
fn push_run(out: &mut Vec<u8>, list: &Ordinals) -> Result<(), AllocError>
    requires { IsStrictlyIncreasing list.now }
    ensures ok { OnOk result (out.new.items ≡ out.old.items ++ area_bytes (gap_bytes list.now)) }
    ensures fits { OnOk result (FitGaps list.now) }
    ensures kept { take (length out.old.items) out.new.items ≡ out.old.items }
{
    let mut gaps = Vec::new(*out.allocator());
    put_gaps(&mut gaps, list)?;
    push_area(out, gaps.as_slice())
}
