//! Bytes that stand in words, added to others.
ghost use Rattle.std.specs.Prelude.{◌≡◌, ◌++◌, OnOk};
ghost use Rattle.object_codec.specs.Bytes.{bytes_of};

use bit_array::element;
use hol_varint::Octets;
use object_codec::PackedBytes;
use std::alloc::{AllocError, Global};
use std::mem;

/// Adds bytes to others. Where memory is refused, the others may be gone.
pub(crate) fn add_bytes(
    alloc: Global,
    bytes: PackedBytes<'_>,
    area: &mut Octets,
) -> Result<(), AllocError>
    ensures { OnOk result (area.new ≡ area.old ++ bytes_of bytes.entry) }
{
    let mut all = mem::replace(area, Octets::new(alloc)).into_vec();
    let added = put_bytes(bytes, &mut all);
    *area = Octets::from_vec(all);
    added
}

/// Writes bytes at the end, eight at a time.
fn put_bytes(bytes: PackedBytes<'_>, out: &mut Vec<u8>) -> Result<(), AllocError>
    ensures { OnOk result (out.new.items ≡ out.old.items ++ bytes_of bytes.entry) }
{
    let words = bytes.len / 8;
    for index in 0..words {
        let word = element(bytes.words, 8 * (bytes.start + 8 * index), 64);
        out.extend_from_slice(&word.to_le_bytes())?;
    }
    bytes.between(8 * words, bytes.len).put(out)
}
