//! What the element of a field gives, with the bytes of a STRING or BYTES where they stand.
ghost use Rattle.std.specs.Prelude.{ℕ, List, ◌≡◌, ◌+◌, ◌-◌, ◌*◌, ◌<◌, ◌≤◌, length, IfOk};
ghost use Rattle.bit_array.specs.Element.{element_of};
ghost use Rattle.schema_model.specs.declared.schema.FieldKind.TheVariants.{Text};
ghost use Rattle.object_codec.specs.ObjectPlace.{start_at, part_at, IsKindWidth};
ghost use Rattle.object_codec.specs.Parts.{IsRunWithin, TellsPart, TellsRun};

use crate::end_offset::EndOffset;
use crate::fixed::{boolean_part, int_part, long_part, reference_part};
use bit_array::element;
use schema_model::{FieldKind, Reason};

/// What the element of a field gives.
#[derive(Clone, Copy)]
pub enum Part {
    /// Nothing, in a field of any kind.
    Null,
    /// The value of an INT.
    Int(i32),
    /// The value of a LONG.
    Long(i64),
    /// The value of a BOOLEAN.
    Bool(bool),
    /// The ordinal of a REFERENCE.
    Ref(u32),
    /// Where the bytes of a STRING or BYTES start, and where they end, in those of the field.
    Run(u64, u64),
}

/// What the element of a field gives that begins at bit `at` of the words, in records of `size` bits; the field has `bytes` bytes.
///
/// It takes no memory, and a constant time. Whether the bytes of a STRING are those of units is not tried.
#[inline(always)]
pub fn read_part(
    first: &[u64],
    kind: &FieldKind,
    at: u64,
    width: u32,
    size: u64,
    bytes: u64,
) -> Result<Part, Reason>
    requires narrow { width ≤ 64 }
    requires wide { IsKindWidth kind.now width }
    requires inside { at + width ≤ 64 * length first.now }
    ensures within { IfOk result (IsRunWithin bytes) }
    ensures tells { (place before : ℕ) (area : List ℕ) → at ≡ place * size + before → before + width ≤ size → bytes ≡ length area → TellsPart kind.now (part_at first.now size place before width area) result }
{
    let element = element(first, at, width);
    match kind {
        FieldKind::Reference(_) => reference_part(width, element).ok_or(Reason::BadValue),
        FieldKind::Int => int_part(width, element).ok_or(Reason::BadValue),
        FieldKind::Long => Ok(long_part(width, element)),
        FieldKind::Boolean => boolean_part(element).ok_or(Reason::BadValue),
        FieldKind::Text => run(first, at, width, size, bytes, element),
        FieldKind::Bytes => run(first, at, width, size, bytes, element),
    }
}

/// Where the bytes of a STRING or BYTES start and end, whose element is given.
#[inline(always)]
fn run(
    first: &[u64],
    at: u64,
    width: u32,
    size: u64,
    bytes: u64,
    element: u64,
) -> Result<Part, Reason>
    requires narrow { width ≤ 64 }
    requires wide { 1 ≤ width }
    requires inside { at + width ≤ 64 * length first.now }
    requires is { element ≡ element_of first.now at width }
    ensures within { IfOk result (IsRunWithin bytes) }
    ensures tells { (place before : ℕ) (area : List ℕ) → at ≡ place * size + before → before + width ≤ size → bytes ≡ length area → TellsRun (part_at first.now size place before width area) result }
{
    let start = start(first, at, width, size);
    let EndOffset { end, is_null } = EndOffset::of(element, width);
    if start > end || end > bytes || (is_null && end != start) {
        return Err(Reason::BadPointers);
    }
    if is_null {
        return Ok(Part::Null);
    }
    Ok(Part::Run(start, end))
}

/// Where the bytes of a STRING or BYTES start: at the end offset of the record before, without its null bit, and at 0 in the first record.
#[tactic(auto, using(crate::proofs::Starts::first_start, crate::proofs::Starts::later_start))]
#[inline(always)]
fn start(first: &[u64], at: u64, width: u32, size: u64) -> u64
    requires narrow { width ≤ 64 }
    requires wide { 1 ≤ width }
    requires inside { at + width ≤ 64 * length first.now }
    ensures { (place before : ℕ) → at ≡ place * size + before → before + width ≤ size → result ≡ start_at first.now size before width place }
{
    if at < size {
        return 0;
    }
    EndOffset::of(element(first, at - size, width), width).end
}
