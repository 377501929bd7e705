//! Whether bytes are those of a STRING.
ghost use Rattle.std.specs.Prelude.{◌<◌, ◌≤◌, length};
ghost use Rattle.object_codec.specs.Texts.{TellsAreUnits, TellsBehindUnit};

use hol_varint::get_vint;

/// A number from here on is no UTF-16 unit.
const UNIT_LIMIT: u32 = 0x1_0000;

/// Whether all the bytes are those of a STRING: one number below 2^16 after another. It takes no memory.
pub(crate) fn are_units(bytes: &[u8]) -> bool
    ensures { TellsAreUnits bytes.now result }
{
    let mut place = 0;
    while place < bytes.len() {
        let Some(next) = behind_unit(bytes, place) else {
            return false;
        };
        place = next;
    }
    true
}

/// Where the unit ends that begins at a place.
pub(crate) fn behind_unit(bytes: &[u8], place: usize) -> Option<usize>
    requires { place < length bytes.now }
    ensures { TellsBehindUnit bytes.now place result }
{
    if bytes[place] < 0x80 {
        return Some(place + 1);
    }
    match get_vint(bytes, place) {
        Ok((number, next)) if number < UNIT_LIMIT => Some(next),
        _ => None,
    }
}
