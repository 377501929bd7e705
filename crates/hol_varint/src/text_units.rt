//! The UTF-16 units of texts, and the bytes of a STRING: a number of variable length for each unit.
ghost use Rattle.std.specs.Prelude.{◌≡◌, ℕ, List, ◌<◌, ◌≤◌, ◌↔◌, ◌++◌, ◌-◌, ◌^◌, length, min, take, drop, All, IsAscii, IsTrue, IfOk, IfSome, IsSomeAnd, IsNone, OnOk, OnErr};
ghost use Rattle.std.specs.Char.Escape.{encode_utf16};
ghost use Rattle.std.specs.String.{string_bytes};
ghost use Rattle.hol_varint.specs.TextUnits.{AreUnits, AreUnitsIn, IsBadText, IsFreeUnits, IsTextOf, AreWellFormed, TellsUnits, TellsUnitAt, units_bytes, text_units};
ghost use Rattle.hol_varint.specs.Varint.{varint_bytes};
ghost use Rattle.hol_varint.specs.Yields.{Yields};

use crate::fault::UnitsFault;
use crate::numbers::Units;
use crate::varint::{get_vint, put_vint};
use std::alloc::{AllocError, Global};

/// Writes the bytes of a STRING at the end. Where memory is refused nothing is written.
pub fn put_units(out: &mut Vec<u8>, units: &Units) -> Result<(), AllocError>
    ensures ok { OnOk result (out.new.items ≡ out.old.items ++ units_bytes units.now) }
    ensures err { OnErr result (out.new.items ≡ out.old.items) }
    ensures are { AreUnits units.now }
{
    let start = out.len();
    let written = push_units(out, units.as_slice());
    if written.is_err() {
        out.truncate(start);
    }
    written
}

// Writes the bytes of a STRING at the end. Where memory is refused those of the first units may stand there.
#[tactic(auto, using(crate::proofs::Runs::are_units, crate::proofs::AsciiUnits::ascii_bytes))]
fn push_units(out: &mut Vec<u8>, units: &[u16]) -> Result<(), AllocError>
    ensures ok { OnOk result (out.new.items ≡ out.old.items ++ units_bytes units.now) }
    ensures kept { take (length out.old.items) out.new.items ≡ out.old.items }
    ensures are { AreUnits units.now }
{
    if are_ascii(units) {
        return push_ascii(out, units);
    }
    out.reserve(units.len())?;
    for unit in units {
        put_vint(out, u32::from(*unit))?;
    }
    Ok(())
}

// Whether all units are of ASCII, so that each is a byte of its own in a STRING.
fn are_ascii(units: &[u16]) -> bool
    ensures { IsTrue result ↔ All (λ unit. unit < 128) units.now }
{
    units.iter().all(|unit| *unit < 0x80)
}

// Adds units of ASCII at the end, all at once.
fn push_ascii(out: &mut Vec<u8>, units: &[u16]) -> Result<(), AllocError>
    requires { All (λ unit. unit < 128) units.now }
    ensures ok { OnOk result (out.new.items ≡ out.old.items ++ units.now) }
    ensures err { OnErr result (out.new.items ≡ out.old.items) }
{
    let start = out.len();
    out.resize(start + units.len(), 0)?;
    write_ascii(&mut out[start..], units);
    Ok(())
}

// Writes units of ASCII into as many bytes.
fn write_ascii(bytes: &mut [u8], units: &[u16])
    requires long { length bytes.old ≡ length units.now }
    requires ascii { All (λ unit. unit < 128) units.now }
    ensures { bytes.new ≡ units.now }
{
    for index in 0..units.len() {
        bytes[index] = units[index] as u8;
    }
}

/// How many bytes these units take in a STRING; the greatest number where they are more.
#[tactic(auto, using(crate::proofs::UnitCounts::units_counted, crate::proofs::AsciiUnits::ascii_len))]
pub fn units_len(units: &[u16]) -> u64
    ensures { result ≡ min (length (units_bytes units.now)) (2 ^ 64 - 1) }
{
    if are_ascii(units) {
        return units.len() as u64;
    }
    let mut len: u64 = 0;
    for unit in units {
        len = len.saturating_add(unit_len(*unit));
    }
    len
}

// How many bytes a unit takes in a STRING.
#[tactic(auto, using(crate::proofs::UnitCounts::one_byte, crate::proofs::UnitCounts::two_bytes, crate::proofs::UnitCounts::three_bytes))]
fn unit_len(unit: u16) -> u64
    ensures { result ≡ length (varint_bytes unit) }
{
    if unit < 0x80 {
        1
    } else if unit < 0x4000 {
        2
    } else {
        3
    }
}

/// The units of all the bytes of a STRING.
///
/// `BadText` where the bytes are not one number below 2^16 after another.
pub fn get_units(alloc: Global, bytes: &[u8]) -> Result<Units, UnitsFault>
    ensures tells { TellsUnits bytes.now result }
    ensures found { (units : List ℕ) → Yields IsFreeUnits result (Ok units) (AreUnitsIn bytes.now units) }
    ensures bad { Yields IsFreeUnits result (Err UnitsFault.BadText) (IsBadText bytes.now) }
{
    all_units(alloc, bytes)
}

fn all_units(alloc: Global, bytes: &[u8]) -> Result<Units, UnitsFault>
    ensures { TellsUnits bytes.now result }
{
    let mut units = Vec::with_capacity(alloc, bytes.len())?;
    let mut place = 0;
    while place < bytes.len() {
        let Some((unit, next)) = unit_at(bytes, place) else {
            return Err(UnitsFault::BadText);
        };
        units.push(unit)?;
        place = next;
    }
    Ok(Units::from_vec(units))
}

// The unit at a place, and where the bytes behind it begin.
fn unit_at(bytes: &[u8], place: usize) -> Option<(u16, usize)>
    requires { place ≤ length bytes.now }
    ensures { TellsUnitAt bytes.now place result }
{
    match get_vint(bytes, place) {
        Ok((number, next)) => {
            if number >= UNIT_LIMIT {
                return None;
            }
            Some((number as u16, next))
        }
        Err(_) => None,
    }
}

/// A number from here on is no UTF-16 unit.
const UNIT_LIMIT: u32 = 0x1_0000;

/// The UTF-16 units of a text: one for each character below 2^16, and two for each other one.
pub fn units_of(alloc: Global, text: &str) -> Result<Units, AllocError>
    ensures ok { IfOk result (λ units. units ≡ text_units text.now) }
    ensures are { IfOk result AreUnits }
{
    let units = if text.is_ascii() {
        ascii_units(alloc, text)?
    } else {
        character_units(alloc, text)?
    };
    Ok(Units::from_vec(units))
}

// The UTF-16 units of a text of ASCII, which are its bytes.
fn ascii_units(alloc: Global, text: &str) -> Result<Vec<u16>, AllocError>
    requires { IsAscii text.now }
    ensures ok { IfOk result (λ units. units.items ≡ text_units text.now) }
    ensures are { IfOk result (λ units. AreUnits units.items) }
{
    let bytes = text.as_bytes();
    let mut units = Vec::with_capacity(alloc, bytes.len())?;
    for byte in bytes {
        units.push_reserved(u16::from(*byte));
    }
    Ok(units)
}

// The UTF-16 units of any text, put together character by character.
fn character_units(alloc: Global, text: &str) -> Result<Vec<u16>, AllocError>
    ensures ok { IfOk result (λ units. units.items ≡ text_units text.now) }
    ensures are { IfOk result (λ units. AreUnits units.items) }
{
    let mut units = Vec::with_capacity(alloc, text.len())?;
    for character in text.chars() {
        push_character(&mut units, character)?;
    }
    Ok(units)
}

// Adds the one or two units of a character.
fn push_character(units: &mut Vec<u16>, character: char) -> Result<(), AllocError>
    ensures { OnOk result (units.new.items ≡ units.old.items ++ encode_utf16 character) }
{
    let code = u32::from(character);
    if code < UNIT_LIMIT {
        units.push(code as u16)?;
        return Ok(());
    }
    let mut pair = [0; 2];
    units.extend_from_slice(character.encode_utf16(&mut pair))
}

/// The text that has these units, or `None` where they are not well-formed UTF-16.
pub fn text_of(alloc: Global, units: &Units) -> Result<Option<String>, AllocError>
    ensures some { IfOk result (λ text. IfSome text (λ text. IsTextOf units.now (string_bytes text))) }
    ensures none { IfOk result (λ text. IsNone text ↔ (AreWellFormed units.now → ⊥)) }
    ensures found { (text : List ℕ) → IsTextOf units.now text → IfOk result (λ found. IsSomeAnd found (λ found. string_bytes found ≡ text)) }
{
    Ok(String::from_utf16(alloc, units.as_slice())?.ok())
}
