//! What the elements of the kinds give that have no variable bytes.
ghost use Rattle.std.specs.Prelude.{◌≡◌, ◌<◌, ◌≤◌, MatchOption};
ghost use Rattle.object_codec.specs.Part.{SpellsInt, SpellsLong, SpellsReference, SpellsBoolean, IsBadInt, IsBadReference};
ghost use Rattle.object_codec.specs.Parts.{fixed_value};

use crate::part::Part;
use bit_array::all_ones;
use hol_varint::{unzigzag32, unzigzag64};

/// An INT: null for ones alone, else the number whose zigzag number the element is. None where that is no INT.
#[inline(always)]
pub fn int_part(width: u32, element: u64) -> Option<Part>
    requires { width ≤ 64 }
    ensures { MatchOption result (IsBadInt width element) (λ part. SpellsInt width element (fixed_value part)) }
{
    if element == all_ones(width) {
        return Some(Part::Null);
    }
    if element > 0xFFFF_FFFE {
        return None;
    }
    Some(Part::Int(unzigzag32(element as u32)))
}

/// A LONG: null for ones alone, else the number whose zigzag number the element is.
#[inline(always)]
pub fn long_part(width: u32, element: u64) -> Part
    requires { width ≤ 64 }
    ensures { SpellsLong width element (fixed_value result) }
{
    if element == all_ones(width) {
        return Part::Null;
    }
    Part::Long(unzigzag64(element))
}

/// A REFERENCE: null for ones alone, else the ordinal that the element is. None where that is no ordinal.
#[inline(always)]
pub fn reference_part(width: u32, element: u64) -> Option<Part>
    requires { width ≤ 64 }
    ensures { MatchOption result (IsBadReference width element) (λ part. SpellsReference width element (fixed_value part)) }
{
    if element == all_ones(width) {
        return Some(Part::Null);
    }
    if element > 0xFFFF_FFFF {
        return None;
    }
    Some(Part::Ref(element as u32))
}

/// A BOOLEAN: 0 is false, 1 is true and 3 is null. None for 2.
#[inline(always)]
pub fn boolean_part(element: u64) -> Option<Part>
    requires { element < 4 }
    ensures { MatchOption result (element ≡ 2) (λ part. SpellsBoolean element (fixed_value part)) }
{
    match element {
        0 => Some(Part::Bool(false)),
        1 => Some(Part::Bool(true)),
        2 => None,
        _ => Some(Part::Null),
    }
}
