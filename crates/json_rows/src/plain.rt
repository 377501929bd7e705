//! Texts whose units are bytes that stand in JSON as they are.
ghost use Rattle.std.specs.Prelude.{◌≡◌, ◌++◌, ◌∷◌, [], length, take, All, IsTrue, OnOk};
ghost use Rattle.object_codec.specs.Bytes.{bytes_of};
ghost use Rattle.json_rows.specs.PlainText.{IsPlainUnit};

use object_codec::PackedBytes;
use std::alloc::AllocError;

// Whether each unit stands in JSON as the byte that it is.
pub(crate) fn is_plain(units: &[u16]) -> bool
    ensures { IsTrue result → All IsPlainUnit units.now }
{
    for unit in units {
        if !is_plain_unit(*unit) {
            return false;
        }
    }
    true
}

// Whether a unit does: printable ASCII but for the quotation mark and the backslash.
#[inline(always)]
fn is_plain_unit(unit: u16) -> bool
    ensures { IsTrue result → IsPlainUnit unit }
{
    if unit < 0x20 || unit > 0x7E {
        return false;
    }
    unit != 0x22 && unit != 0x5C
}

// A text of such units, in quotes.
pub(crate) fn put_plain(units: &[u16], out: &mut Vec<u8>) -> Result<(), AllocError>
    requires { All IsPlainUnit units.now }
    ensures put { OnOk result (out.new.items ≡ out.old.items ++ 34 ∷ (units.now ++ 34 ∷ [])) }
    ensures front { take (length out.old.items) out.new.items ≡ out.old.items }
{
    out.reserve(units.len() + 2)?;
    out.push_reserved(b'"');
    for unit in units {
        out.push_reserved(*unit as u8);
    }
    out.push_reserved(b'"');
    Ok(())
}

// Whether each byte is such a unit.
pub(crate) fn is_plain_text(bytes: PackedBytes<'_>) -> bool
    ensures { IsTrue result → All IsPlainUnit (bytes_of bytes.entry) }
{
    for at in 0..bytes.len {
        if !is_plain_unit(u16::from(bytes.byte(at))) {
            return false;
        }
    }
    true
}

// A text that is spelled by such bytes, in quotes.
pub(crate) fn put_plain_text(bytes: PackedBytes<'_>, out: &mut Vec<u8>) -> Result<(), AllocError>
    requires { All IsPlainUnit (bytes_of bytes) }
    ensures put { OnOk result (out.new.items ≡ out.old.items ++ 34 ∷ (bytes_of bytes.entry ++ 34 ∷ [])) }
    ensures front { take (length out.old.items) out.new.items ≡ out.old.items }
{
    out.reserve(bytes.len as usize + 2)?;
    out.push_reserved(b'"');
    for at in 0..bytes.len {
        out.push_reserved(bytes.byte(at));
    }
    out.push_reserved(b'"');
    Ok(())
}
