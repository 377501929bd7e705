//! Integers of variable length: groups of 7 bits, the highest group first, with the high bit set on each byte but the last.
ghost use Rattle.std.specs.Prelude.{◌≡◌, ◌≢◌, ◌↔◌, ℕ, ◌≤◌, ◌++◌, length, drop, slice_index, OnOk, OnErr};
ghost use Rattle.hol_varint.specs.Varint.{VintStandsAt, VlongStandsAt, VarEndsInside, IsNullVar, IsLongVint, IsLongVlong, TellsVint, TellsVlong, varint_bytes};

use crate::fault::VarFault;
use std::alloc::AllocError;

/// A number from here on is no VInt.
const VINT_LIMIT: u64 = 1 << 32;

/// A number from here on has no room for one more group of 7 bits.
const FULL: u64 = 1 << 57;

/// The VInt that begins at a place, and where the bytes behind it begin.
///
/// `Short` where the bytes end before the number does, `Null` where its first byte is 80 hexadecimal, and `Long` where
/// a number of 2^32 or more is spelled there.
pub fn get_vint(bytes: &[u8], at: usize) -> Result<(u32, usize), VarFault>
    requires { at ≤ length bytes.now }
    ensures tells { TellsVint bytes.now at result }
    ensures found { (number next : ℕ) → (result ≡ Ok (number, next)) ↔ VintStandsAt bytes.now at number next }
    ensures short { (result ≡ Err VarFault.Short) ↔ VarEndsInside (drop at bytes.now) }
    ensures null { (result ≡ Err VarFault.Null) ↔ IsNullVar (drop at bytes.now) }
    ensures long { (result ≡ Err VarFault.Long) ↔ IsLongVint (drop at bytes.now) }
{
    vint(bytes, at)
}

/// The VLong that begins at a place, and where the bytes behind it begin.
///
/// `Short` where the bytes end before the number does, `Null` where its first byte is 80 hexadecimal, and `Long` where
/// a number of 2^64 or more is spelled there.
pub fn get_vlong(bytes: &[u8], at: usize) -> Result<(u64, usize), VarFault>
    requires { at ≤ length bytes.now }
    ensures tells { TellsVlong bytes.now at result }
    ensures found { (number next : ℕ) → (result ≡ Ok (number, next)) ↔ VlongStandsAt bytes.now at number next }
    ensures short { (result ≡ Err VarFault.Short) ↔ VarEndsInside (drop at bytes.now) }
    ensures null { (result ≡ Err VarFault.Null) ↔ IsNullVar (drop at bytes.now) }
    ensures long { (result ≡ Err VarFault.Long) ↔ IsLongVlong (drop at bytes.now) }
{
    vlong(bytes, at)
}

#[tactic(auto, using(crate::proofs::Varints::stands_below, crate::proofs::Varints::stands_over, crate::proofs::Varints::long_over))]
fn vint(bytes: &[u8], at: usize) -> Result<(u32, usize), VarFault>
    requires { at ≤ length bytes.now }
    ensures { TellsVint bytes.now at result }
{
    let (number, next) = vlong(bytes, at)?;
    if number >= VINT_LIMIT {
        return Err(VarFault::Long);
    }
    Ok((number as u32, next))
}

fn vlong(bytes: &[u8], at: usize) -> Result<(u64, usize), VarFault>
    requires { at ≤ length bytes.now }
    ensures { TellsVlong bytes.now at result }
{
    match bytes.get(at) {
        Some(&0x80) => Err(VarFault::Null),
        _ => groups(bytes, at),
    }
}

// The VLong at a place where no null stands.
fn groups(bytes: &[u8], at: usize) -> Result<(u64, usize), VarFault>
    requires within { at ≤ length bytes.now }
    requires first { slice_index bytes.now at ≢ 128 }
    ensures { TellsVlong bytes.now at result }
{
    let mut number: u64 = 0;
    for place in at..bytes.len() {
        let byte = bytes[place];
        if byte < 0x80 {
            if number >= FULL {
                return Err(VarFault::Long);
            }
            return Ok((number * 128 + u64::from(byte), place + 1));
        }
        if number < FULL {
            number = number * 128 + u64::from(byte - 0x80);
        }
    }
    Err(VarFault::Short)
}

/// Writes a number below 2^32 at the end. Where memory is refused nothing is written.
pub fn put_vint(out: &mut Vec<u8>, number: u32) -> Result<(), AllocError>
    ensures ok { OnOk result (out.new.items ≡ out.old.items ++ varint_bytes number) }
    ensures err { OnErr result (out.new.items ≡ out.old.items) }
{
    put_vlong(out, u64::from(number))
}

/// Writes a number below 2^64 at the end. Where memory is refused nothing is written.
#[tactic(auto, using(crate::proofs::VarWriting::one_group))]
pub fn put_vlong(out: &mut Vec<u8>, number: u64) -> Result<(), AllocError>
    ensures ok { OnOk result (out.new.items ≡ out.old.items ++ varint_bytes number) }
    ensures err { OnErr result (out.new.items ≡ out.old.items) }
{
    // Most numbers have one group.
    if number < 0x80 {
        out.push(number as u8)?;
        return Ok(());
    }
    let (bytes, start) = spelling(number);
    out.extend_from_slice(&bytes[start..])
}

// The spelling of a number at the end of ten bytes, and where it begins there.
fn spelling(number: u64) -> ([u8; 10], usize)
    ensures within { result.1 ≤ 10 }
    ensures spelled { drop result.1 result.0 ≡ varint_bytes number }
{
    let mut bytes = [0; 10];
    bytes[9] = (number % 128) as u8;
    let mut start = 9;
    let mut high = number / 128;
    while high > 0 {
        start -= 1;
        bytes[start] = (high % 128) as u8 + 0x80;
        high /= 128;
    }
    (bytes, start)
}
