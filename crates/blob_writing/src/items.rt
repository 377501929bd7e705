//! The items of a section: the max ordinal, widths, word arrays and runs of bytes.
ghost use Rattle.std.specs.Prelude.{◌≡◌, ◌<◌, ◌≤◌, ◌^◌, ◌++◌, All, OnOk, OnErr, flat_map, length, take};
ghost use Rattle.std.specs.Int.{w64, to_be_bytes};
ghost use Rattle.hol_varint.specs.Varint.{varint_bytes};
ghost use Rattle.blob_writing.specs.Carried.{FitWords};
ghost use Rattle.blob_writing.specs.Written.{max_bytes, word_array_bytes, area_bytes};

use hol_varint::{Octets, put_vint, put_vlong};
use std::alloc::AllocError;

/// How many words are laid out as bytes at once.
const BLOCK: usize = 32;

/// Writes the greatest ordinal that has a place at the end, -1 for none, as a VInt. Where memory is refused nothing is
/// written.
///
/// No ordinal is 2^32 - 1: that number is read as none.
pub fn put_max(out: &mut Vec<u8>, max: Option<u32>) -> Result<(), AllocError>
    ensures ok { OnOk result (out.new.items ≡ out.old.items ++ max_bytes max) }
    ensures err { OnErr result (out.new.items ≡ out.old.items) }
{
    match max {
        None => put_vint(out, u32::MAX),
        Some(max) => put_vint(out, max),
    }
}

/// Writes each width as a VInt at the end. So it is with all that follow: the first of what is written may stand at the
/// end where memory is refused.
pub(crate) fn push_widths(out: &mut Vec<u8>, widths: &[u32]) -> Result<(), AllocError>
    ensures ok { OnOk result (out.new.items ≡ out.old.items ++ flat_map varint_bytes widths.now) }
    ensures kept { take (length out.old.items) out.new.items ≡ out.old.items }
{
    for width in widths {
        put_vint(out, *width)?;
    }
    Ok(())
}

/// Writes a word array: how many words there are, and each in 8 bytes, the highest first.
pub(crate) fn push_words(out: &mut Vec<u8>, words: &[u64]) -> Result<(), AllocError>
    ensures ok { OnOk result (out.new.items ≡ out.old.items ++ word_array_bytes words.now) }
    ensures fits { OnOk result (FitWords words.now) }
    ensures kept { take (length out.old.items) out.new.items ≡ out.old.items }
{
    put_vlong(out, words.len() as u64)?;
    out.reserve(words.len().saturating_mul(8))?;
    let mut place = 0;
    while place < words.len() {
        let end = words.len().min(place + BLOCK);
        push_block(out, &words[place..end])?;
        place = end;
    }
    Ok(())
}

/// Writes each word of a block in 8 bytes, the highest first. Where memory is refused nothing is written.
fn push_block(out: &mut Vec<u8>, words: &[u64]) -> Result<(), AllocError>
    requires { length words.now ≤ 32 }
    ensures ok { OnOk result (out.new.items ≡ out.old.items ++ flat_map (to_be_bytes w64) words.now) }
    ensures err { OnErr result (out.new.items ≡ out.old.items) }
{
    let mut bytes = [[0; 8]; BLOCK];
    for index in 0..words.len() {
        bytes[index] = words[index].to_be_bytes();
    }
    out.extend_from_slice(bytes[..words.len()].as_flattened())
}

/// Writes bytes behind their number.
pub(crate) fn push_area(out: &mut Vec<u8>, area: &[u8]) -> Result<(), AllocError>
    ensures ok { OnOk result (out.new.items ≡ out.old.items ++ area_bytes area.now) }
    ensures fits { OnOk result (length area.now < 2 ^ 64) }
    ensures kept { take (length out.old.items) out.new.items ≡ out.old.items }
{
    put_vlong(out, area.len() as u64)?;
    out.extend_from_slice(area)
}

/// Writes the bytes of each field behind their number.
pub(crate) fn push_areas(out: &mut Vec<u8>, areas: &[Octets]) -> Result<(), AllocError>
    ensures ok { OnOk result (out.new.items ≡ out.old.items ++ flat_map area_bytes areas.now) }
    ensures fits { OnOk result (All (λ area. length area < 2 ^ 64) areas.now) }
    ensures kept { take (length out.old.items) out.new.items ≡ out.old.items }
{
    for area in areas {
        push_area(out, area.as_slice())?;
    }
    Ok(())
}

/// The answer of what wrote from a place on; where memory was refused, what it wrote is taken away.
pub(crate) fn or_undone(
    out: &mut Vec<u8>,
    start: usize,
    written: Result<(), AllocError>,
) -> Result<(), AllocError>
    ensures same { result ≡ written }
    ensures ok { OnOk written (out.new.items ≡ out.old.items) }
    ensures err { OnErr written (out.new.items ≡ take start out.old.items) }
{
    if written.is_err() {
        out.truncate(start);
    }
    written
}
