//! A list copied from where its elements stand to a place in words of other widths.
ghost use Rattle.std.specs.Prelude.{ℕ, List, ◌≡◌, ◌+◌, ◌-◌, ◌*◌, ◌^◌, ◌<◌, ◌≤◌, length, All};
ghost use Rattle.bit_array.specs.Element.{element_of, number_of};
ghost use Rattle.list_codec.specs.ListPlace.{pointer_width, element_width, end_at, elements_between, SpellsList};
ghost use Rattle.list_codec.specs.Packing.{HasRoom};
ghost use Rattle.list_codec.specs.Elements.{elements_of};

use crate::elements::Elements;
use bit_array::set_element;

/// Copies the elements of a list to a place, from a start on that is counted in elements, and its end, which is answered, as the pointer.
///
/// The elements are ordinals, and there is room for them. The places before keep what they spell. No memory is taken.
pub fn copy_list(
    from: Elements<'_>,
    widths: &[u32],
    first: &mut [u64],
    second: &mut [u64],
    place: u64,
    start: u64,
) -> u64
    requires room { HasRoom widths.now first.old second.old place start (elements_of from) }
    requires ordinals { All (λ ordinal. ordinal ≤ 2 ^ 32 - 1) (elements_of from) }
    ensures end { result ≡ start + length (elements_of from.entry) }
    ensures pointer { end_at widths.now first.new place ≡ result }
    ensures spelled { SpellsList widths.now result first.new second.new place (elements_of from.entry) }
    ensures earlier { (before total : ℕ) (list : List ℕ) → before < place → total ≤ start → SpellsList widths.now total first.old second.old before list → SpellsList widths.now total first.new second.new before list }
    ensures pointer_bits { number_of first.old < 2 ^ (place * pointer_width widths.now) → number_of first.new < 2 ^ ((place + 1) * pointer_width widths.now) }
    ensures element_bits { number_of second.old < 2 ^ (start * element_width widths.now) → number_of second.new < 2 ^ (result * element_width widths.now) }
{
    let pointer_width = widths[0];
    let end = start + from.len;
    set_element(first, place * u64::from(pointer_width), pointer_width, end);
    copy_elements(from, second, start, widths[1]);
    end
}

/// Writes elements again in a width, from a start on.
fn copy_elements(from: Elements<'_>, words: &mut [u64], start: u64, width: u32)
    requires narrow { width ≤ 64 }
    requires held { (start + length (elements_of from)) * width ≤ 64 * length words.old }
    requires few { 64 * length words.old < 2 ^ 64 }
    requires small { All (λ element. element < 2 ^ width) (elements_of from) }
    ensures are { elements_between words.new width start (start + length (elements_of from.entry)) ≡ elements_of from.entry }
    ensures before { (at len : ℕ) → at + len ≤ start * width → element_of words.new at len ≡ element_of words.old at len }
    ensures bits { number_of words.old < 2 ^ (start * width) → number_of words.new < 2 ^ ((start + length (elements_of from.entry)) * width) }
{
    let mut at = start * u64::from(width);
    for index in 0..from.len {
        set_element(words, at, width, from.element(index));
        at += u64::from(width);
    }
}
