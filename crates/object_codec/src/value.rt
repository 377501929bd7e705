//! The value of a field, by what its element gives.
ghost use Rattle.std.specs.Prelude.{◌≡◌, ◌-◌, ◌≤◌, length, take, drop, IfOk};
ghost use Rattle.row_model.specs.Areas.{area_of};
ghost use Rattle.schema_model.specs.declared.schema.FieldKind.TheVariants.{Text};
ghost use Rattle.object_codec.specs.Cell.{IsWithin};
ghost use Rattle.object_codec.specs.ObjectPlace.{part_at, IsKindWidth};
ghost use Rattle.object_codec.specs.Part.{FieldPart, HasNullBit, IsSpan, TellsValue, span_of};
ghost use Rattle.object_codec.specs.Parts.{GivesPart, IsRunWithin};
ghost use Rattle.object_codec.specs.declared.part.Part.TheVariants.{Run};

use crate::part::{Part, read_part};
use hol_varint::{Octets, UnitsFault, get_units};
use row_model::{Parts, PlaceFault, Value};
use schema_model::{FieldKind, Reason};
use std::alloc::{AllocError, Global};

/// Where the element of a field stands: at a place, in records of a size, behind the bits of the fields before it.
#[derive(Clone, Copy)]
pub struct Cell {
    /// The place of the record.
    pub place: u64,
    /// The width of a record, in bits.
    pub size: u64,
    /// The widths of the fields before this one, in bits.
    pub before: u64,
    /// The width of the element, in bits.
    pub width: u32,
    /// The index of the field.
    pub field: u32,
}

/// The value of a field of a kind, whose element stands in the cell.
pub fn value<P: Parts>(
    alloc: Global,
    parts: &P,
    kind: &FieldKind,
    cell: Cell,
) -> Result<Value, PlaceFault>
    requires wide { IsKindWidth kind.now cell.width }
    requires within { IsWithin (P.first_words parts.now) cell.size cell.place cell.before cell.width }
    ensures { TellsValue kind.now (part_at (P.first_words parts.now) cell.size cell.place cell.before cell.width (area_of (P.area_bytes parts.now) cell.field)) result }
{
    let at = cell.place * cell.size + cell.before;
    let bytes = parts.area(cell.field);
    match read_part(parts.first(), kind, at, cell.width, cell.size, bytes) {
        Ok(given) => value_of(alloc, parts, kind, cell.field, given),
        Err(reason) => Err(PlaceFault::Bad(reason)),
    }
}

/// The value of what the element of a field gives.
fn value_of<P: Parts>(
    alloc: Global,
    parts: &P,
    kind: &FieldKind,
    field: u32,
    given: Part,
) -> Result<Value, PlaceFault>
    requires { IsRunWithin (length (area_of (P.area_bytes parts.now) field)) given }
    ensures { (part : FieldPart) → part.area ≡ area_of (P.area_bytes parts.now) field → GivesPart kind.now part given → TellsValue kind.now part result }
{
    match given {
        Part::Null => Ok(Value::Null),
        Part::Int(number) => Ok(Value::Int(number)),
        Part::Long(number) => Ok(Value::Long(number)),
        Part::Bool(flag) => Ok(Value::Bool(flag)),
        Part::Ref(ordinal) => Ok(Value::Ref(ordinal)),
        Part::Run(start, end) => run_value(alloc, parts, kind, field, start, end),
    }
}

/// The value of a STRING or BYTES whose bytes stand from one offset of the field's up to another.
fn run_value<P: Parts>(
    alloc: Global,
    parts: &P,
    kind: &FieldKind,
    field: u32,
    start: u64,
    end: u64,
) -> Result<Value, PlaceFault>
    requires rises { start ≤ end }
    requires inside { end ≤ length (area_of (P.area_bytes parts.now) field) }
    ensures { (part : FieldPart) → part.area ≡ area_of (P.area_bytes parts.now) field → GivesPart kind.now part (Run start end) → TellsValue kind.now part result }
{
    let bytes = copy(alloc, parts, field, start, end)?;
    match kind {
        FieldKind::Text => text_value(alloc, &bytes),
        _ => Ok(Value::Bytes(bytes)),
    }
}

/// The value of a STRING that is no null, by its bytes.
fn text_value(alloc: Global, bytes: &Octets) -> Result<Value, PlaceFault>
    ensures { (part : FieldPart) → IsSpan part → (HasNullBit part → ⊥) → bytes.now ≡ span_of part → TellsValue Text part result }
{
    match get_units(alloc, bytes.as_slice()) {
        Ok(units) => Ok(Value::Text(units)),
        Err(UnitsFault::BadText) => Err(PlaceFault::Bad(Reason::BadText)),
        Err(UnitsFault::Memory) => Err(PlaceFault::Memory),
    }
}

/// The bytes of a field's area from `start` up to `end`.
#[tactic(auto, using(crate::proofs::Places::span_more))]
fn copy<P: Parts>(
    alloc: Global,
    parts: &P,
    field: u32,
    start: u64,
    end: u64,
) -> Result<Octets, AllocError>
    requires rises { start ≤ end }
    requires inside { end ≤ length (area_of (P.area_bytes parts.now) field) }
    ensures { IfOk result (λ bytes. bytes ≡ take (end - start) (drop start (area_of (P.area_bytes parts.now) field))) }
{
    let mut bytes = Vec::with_capacity(alloc, (end - start) as usize)?;
    for at in start..end {
        bytes.push(parts.byte(field, at))?;
    }
    Ok(Octets::from_vec(bytes))
}
