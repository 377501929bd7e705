//! The widths that the writer chooses, over the rows of two states, and the variable bytes of one.
ghost use Rattle.std.specs.Prelude.{ℕ, List, ◌≡◌, ◌<◌, ◌≤◌, ◌+◌, ◌-◌, ◌^◌, length, min, max, IfOk};
ghost use Rattle.std.specs.Option.{option_to_list};
ghost use Rattle.row_model.specs.declared.row.Value.{Value as StoredValue};
ghost use Rattle.row_model.specs.Table.{row_at};
ghost use Rattle.row_model.specs.BothStates.{rows_of_both};
ghost use Rattle.object_codec.specs.Stored.{value_at, value_bytes};
ghost use Rattle.object_codec.specs.Widths.{fields_at, value_bits, most_bits, byte_count, width_for, widths_for, rows_bytes, live_rows, bytes_for};
ghost use Rattle.row_widths.specs.RecordSpread.{spread_at, IsSpreadWith, AreSpreads};

use crate::RowWalk;
use bit_array::digits;
use object_codec::{stored_number, value_bytes, values_of};
use row_model::{Rows, Value, Widths};
use schema_model::{Field, FieldKind, MAX_BYTES};
use std::alloc::{AllocError, Global};

/// The widths, in bits, of the fields of an OBJECT type, those of the new state's model: what the values of both states need.
///
/// A number takes as many bits as the one after it has digits, and null takes 1; the field has those of the value that takes the most, and 0
/// without rows. A BOOLEAN has 2, and 0 without rows. A STRING or BYTES has the digits of the number after that of all its bytes, and a null
/// bit. A row that both states have counts once, and all their rows have fewer than 2^62 bytes.
pub fn widths<A: Rows, B: Rows>(
    alloc: Global,
    old: &A,
    new: &B,
    type_index: u32,
) -> Result<Widths, AllocError>
    requires { length (rows_bytes (rows_of_both (A.table old.now) (B.table new.now) type_index)) < 2 ^ 62 }
    ensures { IfOk result (λ widths. widths ≡ widths_for (fields_at (B.schemas new.now) type_index) (rows_of_both (A.table old.now) (B.table new.now) type_index)) }
{
    let fields = fields_of(new, type_index);
    let spreads = gather(alloc, old, new, type_index, fields.len())?;
    let mut widths = Widths::new(alloc);
    for (index, field) in fields.iter().enumerate() {
        let spread = spreads[index];
        widths.push(field_width(&field.kind, spread.bits, spread.bytes))?;
    }
    Ok(widths)
}

/// How many variable bytes the live rows of an OBJECT type have; 2^25 + 1 where they are over 2^25.
pub fn bytes<R: Rows>(alloc: Global, rows: &R, type_index: u32) -> Result<u64, AllocError>
    ensures { IfOk result (λ bytes. bytes ≡ bytes_for (live_rows (R.table rows.now) type_index)) }
{
    let mut bytes: u64 = 0;
    for ordinal in 0..rows.bound(type_index) {
        bytes = bytes.saturating_add(bytes_under(alloc, rows, type_index, ordinal)?);
    }
    Ok(bytes.min(MAX_BYTES + 1))
}

/// How many variable bytes the row under an ordinal has, up to the greatest number; 0 where none is live there.
fn bytes_under<R: Rows>(
    alloc: Global,
    rows: &R,
    type_index: u32,
    ordinal: u32,
) -> Result<u64, AllocError>
    ensures { IfOk result (λ bytes. bytes ≡ min (length (rows_bytes (option_to_list (row_at (R.table rows.now) type_index ordinal)))) (2 ^ 64 - 1)) }
{
    if !rows.is_live(type_index, ordinal) {
        return Ok(0);
    }
    let lent = rows.lend(alloc, type_index, ordinal)?;
    Ok(bytes_of(values_of(lent.row())))
}

/// The fields of a type, none where there is no such type.
fn fields_of<R: Rows>(rows: &R, type_index: u32) -> &[Field]
    ensures { result.now ≡ fields_at (R.schemas rows.now) type_index }
{
    let model = rows.model();
    if type_index >= model.len() {
        return &[];
    }
    model.schema(type_index).shape.fields()
}

/// How many variable bytes some values have, up to the greatest number.
fn bytes_of(values: &[Value]) -> u64
    ensures { result ≡ min (byte_count values.now) (2 ^ 64 - 1) }
{
    let mut bytes: u64 = 0;
    for value in values {
        bytes = bytes.saturating_add(value_bytes(value));
    }
    bytes
}

/// What the values of a field take: the most bits that one takes, and their bytes, up to the greatest number.
#[derive(Clone, Copy)]
struct Spread {
    bits: u32,
    bytes: u64,
}

impl Spread {
    /// What the values of a field take, with one value more.
    fn with(self, value: &Value) -> Spread
        ensures bits { result.bits ≡ max self.bits (value_bits value.now) }
        ensures bytes { result.bytes ≡ min (self.bytes + length (value_bytes value.now)) (2 ^ 64 - 1) }
    {
        Spread {
            bits: self.bits.max(value_bits(value)),
            bytes: self.bytes.saturating_add(value_bytes(value)),
        }
    }
}

/// How many bits the element of a value takes: the digits of the number after its own, and 1 for null.
#[inline(always)]
pub fn value_bits(value: &Value) -> u32
    ensures is { result ≡ value_bits value.now }
    ensures few { result ≤ 64 }
{
    match stored_number(value) {
        Some(number) => digits(number + 1),
        None => 1,
    }
}

/// The width of a field of a kind whose values take so many bits at most, and have so many bytes.
pub fn field_width(kind: &FieldKind, bits: u32, bytes: u64) -> u32
    requires { bytes < 2 ^ 63 }
    ensures { (values : List StoredValue) → bits ≡ most_bits values → bytes ≡ byte_count values → result ≡ width_for kind.now values }
{
    match kind {
        FieldKind::Boolean => if bits == 0 { 0 } else { 2 },
        FieldKind::Text | FieldKind::Bytes => digits(bytes + 1) + 1,
        _ => bits,
    }
}

/// What the values of each field take over the rows of both states, a row that both have counted once.
fn gather<A: Rows, B: Rows>(
    alloc: Global,
    old: &A,
    new: &B,
    type_index: u32,
    fields: usize,
) -> Result<Vec<Spread>, AllocError>
    ensures { IfOk result (λ spreads. AreSpreads fields (rows_of_both (A.table old.now) (B.table new.now) type_index) spreads.items) }
{
    let mut spreads = vec![in alloc; Spread { bits: 0, bytes: 0 }; fields]?;
    let mut walk = RowWalk::start();
    while let Some(lent) = walk.next(alloc, old, new, type_index)? {
        add_record(&mut spreads, values_of(lent.row()));
    }
    Ok(spreads)
}

/// Counts the values of one record more into what the values of each field take.
fn add_record(spreads: &mut [Spread], values: &[Value])
    requires { (index : ℕ) → index < length spreads.old → (spread_at spreads.old index).bytes ≤ 2 ^ 64 - 1 }
    ensures { (index : ℕ) → index < length spreads.old → IsSpreadWith (value_at index values.now) (spread_at spreads.old index) (spread_at spreads.new index) }
{
    for index in 0..spreads.len().min(values.len()) {
        spreads[index] = spreads[index].with(&values[index]);
    }
}
