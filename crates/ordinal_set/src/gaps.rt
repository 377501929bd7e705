//! Ordinal runs of a blob: lists of numbers as the VInts of the gaps between them.
ghost use Rattle.std.specs.Prelude.{ℕ, List, ◌≡◌, ◌<◌, ◌^◌, ◌++◌, length, take, Ok, Err, OnOk, OnErr};
ghost use Rattle.std.specs.List.Sorted.{IsStrictlyIncreasing};
ghost use Rattle.hol_varint.specs.Yields.{Yields};
ghost use Rattle.ordinal_set.specs.Gaps.{Gaps, gap_bytes, IsGapFault, IsFreeGaps, TellsGaps};
ghost use Rattle.ordinal_set.specs.declared.gaps.GapFault.TheVariants.{Bad, Memory as memory};

use hol_varint::{GapList, Ordinals, get_vint, put_vint};
use std::alloc::{AllocError, Global};

/// Why the bytes of an ordinal run were not read.
#[derive(Debug, Drop)]
pub enum GapFault {
    /// No whole VInt stands at this place: it is null, too long, or reaches past the end.
    Bad(usize),
    /// Memory was refused.
    Memory,
}

impl From<AllocError> for GapFault {
    ghost from_gives = { λ _ fault. fault ≡ memory };

    fn from(_error: AllocError) -> GapFault {
        GapFault::Memory
    }
}

/// Writes an ordinal run at the end: a VInt for each number, how far it is above the one before it, the first above 0.
///
/// The numbers rise. Where memory is refused nothing is written.
pub fn put_gaps(out: &mut Vec<u8>, list: &Ordinals) -> Result<(), AllocError>
    requires { IsStrictlyIncreasing list.now }
    ensures ok { OnOk result (out.new.items ≡ out.old.items ++ gap_bytes list.now) }
    ensures err { OnErr result (out.new.items ≡ out.old.items) }
    ensures gaps { Gaps (gap_bytes list.now) list.now }
{
    let start = out.len();
    let written = push_gaps(out, list.as_slice());
    if written.is_err() {
        out.truncate(start);
    }
    written
}

/// Writes an ordinal run, whose numbers rise, at the end. Where memory is refused the first numbers may stand there.
fn push_gaps(out: &mut Vec<u8>, list: &[u32]) -> Result<(), AllocError>
    requires { IsStrictlyIncreasing list.now }
    ensures ok { OnOk result (out.new.items ≡ out.old.items ++ gap_bytes list.now) }
    ensures kept { take (length out.old.items) out.new.items ≡ out.old.items }
    ensures gaps { Gaps (gap_bytes list.now) list.now }
{
    let mut before = 0;
    for number in list {
        put_vint(out, *number - before)?;
        before = *number;
    }
    Ok(())
}

/// The numbers of an ordinal run, which need not rise.
///
/// `Bad` gives the place of the first VInt that is null, too long or not whole. The bytes are fewer than 2^32, so that no number is past
/// 64 bits.
pub fn read_gaps(alloc: Global, bytes: &[u8]) -> Result<GapList, GapFault>
    requires { length bytes.now < 2 ^ 32 }
    ensures tells { TellsGaps bytes.now result }
    ensures found { (list : List ℕ) → Yields IsFreeGaps result (Ok list) (Gaps bytes.now list) }
    ensures bad { (place : ℕ) → Yields IsFreeGaps result (Err (Bad place)) (IsGapFault bytes.now place) }
{
    all_gaps(alloc, bytes)
}

/// The numbers of an ordinal run, which need not rise, or the place of the first VInt that is null, too long or not whole.
fn all_gaps(alloc: Global, bytes: &[u8]) -> Result<GapList, GapFault>
    requires { length bytes.now < 2 ^ 32 }
    ensures { TellsGaps bytes.now result }
{
    let mut list = GapList::new(alloc);
    let mut number: u64 = 0;
    let mut place = 0;
    while place < bytes.len() {
        let Ok((gap, next)) = get_vint(bytes, place) else {
            return Err(GapFault::Bad(place));
        };
        number += u64::from(gap);
        list.push(number)?;
        place = next;
    }
    Ok(list)
}
