//! The lines of answers that list ordinals, put behind what stands already, with no serializer.
ghost use Rattle.std.specs.Prelude.{◌≡◌, ◌++◌, OnErr, OnOk, codes, length, take};
ghost use Rattle.serde_json.specs.Written.{compact_text};
ghost use Rattle.hol_orders.specs.Parts.{whole};
ghost use Rattle.hol_answers.specs.Member.{list_of};

use json_rows::put_ordinals;
use std::alloc::AllocError;

/// Puts a line behind what stands in `out`: its front, the array of the ordinals, the brace that closes its object, and a newline. Where memory is refused
/// `out` stays as it was.
pub(crate) fn put_ordinals_line(
    out: &mut Vec<u8>,
    front: &str,
    ordinals: &[u32],
) -> Result<(), AllocError>
    ensures put { OnOk result (out.new.items ≡ out.old.items ++ (front.now ++ (compact_text (list_of whole ordinals.now) ++ codes "}\n"))) }
    ensures err { OnErr result (out.new.items ≡ out.old.items) }
{
    let before = out.len();
    let put = put_parts(out, front, ordinals);
    if put.is_err() {
        out.truncate(before);
    }
    put
}

// The parts of a line, of which some stand where memory is refused.
fn put_parts(out: &mut Vec<u8>, front: &str, ordinals: &[u32]) -> Result<(), AllocError>
    ensures put { OnOk result (out.new.items ≡ out.old.items ++ (front.now ++ (compact_text (list_of whole ordinals.now) ++ codes "}\n"))) }
    ensures front { take (length out.old.items) out.new.items ≡ out.old.items }
{
    out.extend_from_slice(front.as_bytes())?;
    put_ordinals(ordinals, out)?;
    out.extend_from_slice(b"}\n")?;
    Ok(())
}
