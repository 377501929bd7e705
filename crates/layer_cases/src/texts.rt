//! Texts: their units, as STRINGs and in Java UTF, against worked bytes, and as names of blobs.
use hol_io::{BlobName, name_text, parse_name};
use hol_varint::{Units, laws, put_units, put_utf, units_of};
use std::alloc::{AllocError, Global};

/// Tells the units of a text (`units`), the name that it is and the text of that name (`name`), the text of a step to an earlier version
/// (`earlier`), or the bytes of a text as a STRING (`string`) or in Java UTF.
pub fn tell(out: &mut String, alloc: Global, word: &str, text: &str) -> Result<(), AllocError> {
    match word {
        "units" => write!(out, "{:?}", units_of(alloc, text)?.as_slice()),
        "name" => tell_name(out, alloc, text),
        "earlier" => out.push_str(name_text(alloc, &BlobName::Delta(2, 0))?.as_str()),
        _ => tell_bytes(out, alloc, word, &units_of(alloc, text)?),
    }
}

fn tell_name(out: &mut String, alloc: Global, text: &str) -> Result<(), AllocError> {
    match parse_name(text) {
        Some(name) => write!(out, "{name:?} {}", name_text(alloc, &name)?.as_str()),
        None => out.push_str("none"),
    }
}

fn tell_bytes(
    out: &mut String,
    alloc: Global,
    word: &str,
    units: &Units,
) -> Result<(), AllocError> {
    let mut bytes = Vec::new(alloc);
    put(&mut bytes, word, units)?;
    out.push_str(hex::encode(alloc, bytes.as_slice())?.as_str())
}

/// The bytes of a text, in Java UTF those of one of at most a hundred units.
fn put(bytes: &mut Vec<u8>, word: &str, units: &Units) -> Result<(), AllocError> {
    laws::utf_size();
    match word {
        "string" => put_units(bytes, units),
        _ if units.len() <= 100 => put_utf(bytes, units),
        _ => Err(AllocError),
    }
}

/// A text with the null character, an e with an acute accent, the euro sign and a character past 2^16, and names.
pub const TEXTS: &str = "units A\0\u{E9}\u{20AC}\u{1F600} = [65, 0, 233, 8364, 55357, 56832]
string Up\u{20AC} = 5570c12c
utf A\0\u{E9}\u{20AC}\u{1F600} = 000e41c080c3a9e282aceda0bdedb880
name snapshot-1 = Snapshot(1) snapshot-1
name snapshot-9223372036854775807 = Snapshot(9223372036854775807) snapshot-9223372036854775807
name delta-9-10 = Delta(9, 10) delta-9-10
name reversedelta-10-9 = Reverse(10, 9) reversedelta-10-9
name announced.version = Announced announced.version
name  = none
name snapshot- = none
name snapshot-0 = none
name snapshot-01 = none
name snapshot-+1 = none
name snapshot-1  = none
name snapshot-9223372036854775808 = none
name Snapshot-1 = none
name delta-1 = none
name delta-2-1 = none
name delta-1-1 = none
name delta-1-2-3 = none
name reversedelta-1-2 = none
name announced.versions = none
earlier = delta-2-0";
