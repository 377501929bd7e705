//! Bytes that are read: numbers, STRINGs, texts in Java UTF and runs of gaps, and bytes that are none of them.
use hol_varint::{get_units, get_utf, get_vint, text_of};
use ordinal_set::read_gaps;
use std::alloc::{AllocError, Global};

/// Tells what bytes are, which are spelled in hexadecimal: a VInt (`vint`), a STRING (`string`), a text in Java UTF (`utf`),
/// or a run of gaps.
pub fn tell(out: &mut String, alloc: Global, word: &str, spelled: &str) -> Result<(), AllocError> {
    match hex::decode(alloc, spelled) {
        Ok(bytes) => tell_bytes(out, alloc, word, bytes.as_slice()),
        Err(_) => Err(AllocError),
    }
}

/// Tells what bytes are: a VInt (`vint`), a STRING (`string`), a text in Java UTF (`utf`), or a run of gaps, of at most a hundred bytes.
fn tell_bytes(out: &mut String, alloc: Global, word: &str, bytes: &[u8]) -> Result<(), AllocError> {
    match word {
        "vint" => write!(out, "{:?}", get_vint(bytes, 0)),
        "string" => tell_string(out, alloc, bytes),
        "utf" => tell_utf(out, alloc, bytes),
        _ if bytes.len() <= 100 => write!(out, "{:?}", read_gaps(alloc, bytes)),
        _ => Err(AllocError),
    }
}

/// The text, where the units are well formed.
fn tell_string(out: &mut String, alloc: Global, bytes: &[u8]) -> Result<(), AllocError> {
    match get_units(alloc, bytes) {
        Ok(units) => write!(out, "{:?}", text_of(alloc, &units)?),
        Err(fault) => write!(out, "{fault:?}"),
    }
}

/// The text, and where it ends.
fn tell_utf(out: &mut String, alloc: Global, bytes: &[u8]) -> Result<(), AllocError> {
    match get_utf(alloc, bytes, 0) {
        Ok((units, next)) => write!(out, "{:?} {next}", text_of(alloc, &units)?),
        Err(fault) => write!(out, "{fault:?}"),
    }
}

/// Bytes, and what they are.
pub const BYTES: &str = "vint  = Err(Short)
vint 81 = Err(Short)
vint FFFFFFFFFFFFFFFFFFFFFF = Err(Short)
vint 80 = Err(Null)
vint 8001 = Err(Null)
vint 9080808000 = Err(Long)
vint FFFFFFFFFFFFFFFFFFFF00 = Err(Long)
string 5570C12C = Some(\"Up\u{20AC}\")
string 83B03D = None
string 848000 = BadText
string 414280 = BadText
string 414281 = BadText
utf 000641C080E282AC42 = Some(\"A\\0\u{20AC}\") 8
utf 0000 = Some(\"\") 2
utf  = Short
utf 00 = Short
utf 000241 = Short
utf 000100 = BadName
utf 0002C181 = BadName
utf 0001C3 = BadName
utf 0003E08080 = BadName
utf 0004F09F9880 = BadName
gaps 03008228 = Ok(List { items: [3, 3, 299] })
gaps 03018280 = Err(Bad(2))
gaps 03800101 = Err(Bad(1))";
