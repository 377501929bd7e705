//! Java UTF texts: a length of two bytes, and one to three bytes for each UTF-16 unit.
ghost use Rattle.std.specs.Prelude.{◌≡◌, ℕ, List, ◌<◌, ◌≤◌, ◌++◌, ◌^◌, slice_index, length, take, drop, OnOk, OnErr};
ghost use Rattle.hol_varint.specs.JavaUtf.{unit_bytes, java_bytes, utf_bytes, UtfStandsAt, UtfEndsInside, IsBadUtf, IsFreeUtf, TellsUtf};
ghost use Rattle.hol_varint.specs.JavaBytes.{TellsJavaBytes, TellsUnit, TellsLowBits};
ghost use Rattle.hol_varint.specs.TextUnits.{AreUnits};
ghost use Rattle.hol_varint.specs.Yields.{Yields};

use crate::fault::UtfFault;
use crate::numbers::Units;
use std::alloc::{AllocError, Global};

/// The text that begins at a place, as its units, and where the bytes behind it begin.
///
/// `Short` where the bytes end before the length does, or before the text that it announces, and `BadName` where the
/// announced bytes are another spelling than that of some units. The units need not be well-formed UTF-16.
pub fn get_utf(alloc: Global, bytes: &[u8], at: usize) -> Result<(Units, usize), UtfFault>
    requires { at ≤ length bytes.now }
    ensures tells { TellsUtf bytes.now at result }
    ensures found { (units : List ℕ) (next : ℕ) → Yields IsFreeUtf result (Ok (units, next)) (UtfStandsAt bytes.now at units next) }
    ensures short { Yields IsFreeUtf result (Err UtfFault.Short) (UtfEndsInside (drop at bytes.now)) }
    ensures bad { Yields IsFreeUtf result (Err UtfFault.BadName) (IsBadUtf (drop at bytes.now)) }
{
    utf(alloc, bytes, at)
}

fn utf(alloc: Global, bytes: &[u8], at: usize) -> Result<(Units, usize), UtfFault>
    requires { at ≤ length bytes.now }
    ensures { TellsUtf bytes.now at result }
{
    if bytes.len() - at < 2 {
        return Err(UtfFault::Short);
    }
    let start = at + 2;
    let len = usize::from(bytes[at]) * 256 + usize::from(bytes[at + 1]);
    if bytes.len() - start < len {
        return Err(UtfFault::Short);
    }
    let next = start + len;
    let units = text(alloc, &bytes[start..next])?;
    Ok((units, next))
}

// The units of all the bytes of a text.
fn text(alloc: Global, bytes: &[u8]) -> Result<Units, UtfFault>
    ensures { TellsJavaBytes bytes.now result }
{
    let mut units = Vec::with_capacity(alloc, bytes.len())?;
    let mut place = 0;
    while place < bytes.len() {
        let Some((unit, count)) = first_unit(&bytes[place..]) else {
            return Err(UtfFault::BadName);
        };
        units.push(unit)?;
        place += count;
    }
    Ok(Units::from_vec(units))
}

// The unit at the front of the bytes, and how many bytes it takes.
#[tactic(auto, using(crate::proofs::JavaUnits::one_byte))]
fn first_unit(bytes: &[u8]) -> Option<(u16, usize)>
    requires { 0 < length bytes.now }
    ensures { TellsUnit bytes.now result }
{
    let first = bytes[0];
    match first {
        0x01..=0x7F => Some((u16::from(first), 1)),
        0xC0..=0xDF => of_two_bytes(bytes),
        0xE0..=0xEF => of_three_bytes(bytes),
        _ => None,
    }
}

fn of_two_bytes(bytes: &[u8]) -> Option<(u16, usize)>
    requires low { 0xC0 ≤ slice_index bytes.now 0 }
    requires high { slice_index bytes.now 0 < 0xE0 }
    ensures { TellsUnit bytes.now result }
{
    let Some(bits) = low_bits(bytes, 1) else {
        return None;
    };
    let unit = u16::from(bytes[0] - 0xC0) * 64 + bits;
    match unit {
        0x01..=0x7F => None,
        _ => Some((unit, 2)),
    }
}

fn of_three_bytes(bytes: &[u8]) -> Option<(u16, usize)>
    requires low { 0xE0 ≤ slice_index bytes.now 0 }
    requires high { slice_index bytes.now 0 < 0xF0 }
    ensures { TellsUnit bytes.now result }
{
    let Some(middle) = low_bits(bytes, 1) else {
        return None;
    };
    let Some(bits) = low_bits(bytes, 2) else {
        return None;
    };
    let unit = u16::from(bytes[0] - 0xE0) * 4096 + middle * 64 + bits;
    if unit < 0x800 {
        return None;
    }
    Some((unit, 3))
}

// The low 6 bits of a byte behind a unit's first one.
fn low_bits(bytes: &[u8], place: usize) -> Option<u16>
    ensures { TellsLowBits bytes.now place result }
{
    match bytes.get(place) {
        Some(byte @ 0x80..=0xBF) => Some(u16::from(byte - 0x80)),
        _ => None,
    }
}

/// Writes a text at the end, its length in bytes first. Where memory is refused nothing is written. The text without its
/// length takes at most 65,535 bytes.
pub fn put_utf(out: &mut Vec<u8>, units: &Units) -> Result<(), AllocError>
    requires { length (java_bytes units.now) < 2 ^ 16 }
    ensures ok { OnOk result (out.new.items ≡ out.old.items ++ utf_bytes units.now) }
    ensures err { OnErr result (out.new.items ≡ out.old.items) }
    ensures are { AreUnits units.now }
{
    let start = out.len();
    let written = push_utf(out, units.as_slice());
    if written.is_err() {
        out.truncate(start);
    }
    written
}

// Writes a text at the end, its length in bytes first. Where memory is refused a front of the text may stand there, behind a length of 0.
#[tactic(auto, using(crate::proofs::Runs::are_units))]
fn push_utf(out: &mut Vec<u8>, units: &[u16]) -> Result<(), AllocError>
    requires { length (java_bytes units.now) < 2 ^ 16 }
    ensures ok { OnOk result (out.new.items ≡ out.old.items ++ utf_bytes units.now) }
    ensures kept { take (length out.old.items) out.new.items ≡ out.old.items }
    ensures are { AreUnits units.now }
{
    let start = out.len();
    out.extend_from_slice(&[0, 0])?;
    push_text(out, units)?;
    let len = out.len() - start - 2;
    out[start] = (len / 256) as u8;
    out[start + 1] = (len % 256) as u8;
    Ok(())
}

// The bytes of the units, without their length.
fn push_text(out: &mut Vec<u8>, units: &[u16]) -> Result<(), AllocError>
    ensures ok { OnOk result (out.new.items ≡ out.old.items ++ java_bytes units.now) }
    ensures kept { take (length out.old.items) out.new.items ≡ out.old.items }
{
    for unit in units {
        push_unit(out, *unit)?;
    }
    Ok(())
}

// The bytes of one unit.
#[tactic(auto, using(crate::proofs::JavaUnits::bytes_null, crate::proofs::JavaUnits::bytes_one, crate::proofs::JavaUnits::bytes_middle, crate::proofs::JavaUnits::bytes_three))]
fn push_unit(out: &mut Vec<u8>, unit: u16) -> Result<(), AllocError>
    ensures ok { OnOk result (out.new.items ≡ out.old.items ++ unit_bytes unit) }
    ensures err { OnErr result (out.new.items ≡ out.old.items) }
{
    let low = 0x80 + (unit % 64) as u8;
    match unit {
        0 => out.extend_from_slice(&[0xC0, 0x80])?,
        0x01..=0x7F => out.push(unit as u8)?,
        0x80..=0x7FF => out.extend_from_slice(&[0xC0 + (unit / 64) as u8, low])?,
        _ => {
            let middle = 0x80 + (unit / 64 % 64) as u8;
            out.extend_from_slice(&[0xE0 + (unit / 4096) as u8, middle, low])?;
        }
    }
    Ok(())
}
