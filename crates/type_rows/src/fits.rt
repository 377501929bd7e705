//! Which records the widths of an OBJECT's fields can hold.
ghost use Rattle.std.specs.Prelude.{◌≡◌, ◌↔◌, ◌-◌, ◌≤◌, ℕ, length, slice_index, IsTrue};
ghost use Rattle.type_rows.specs.Holds.{FitsWidth, FitsWidths};
ghost use Rattle.type_rows.specs.Ends.{end_after, end_before};

use bit_array::all_ones;
use hol_varint::{zigzag32, zigzag64};
use object_codec::{EndOffset, value_bytes};
use row_model::Value;
use schema_model::{Field, FieldKind};

/// Whether a value fits the width of a field of this kind, which ends at an offset.
fn fits_width(kind: &FieldKind, width: u32, end: u64, value: &Value) -> bool
    requires { width ≤ 64 }
    ensures { IsTrue result ↔ FitsWidth kind.now width end value.now }
{
    match (kind, value) {
        (FieldKind::Reference(_), Value::Null) => true,
        (FieldKind::Reference(_), Value::Ref(ordinal)) => u64::from(*ordinal) < all_ones(width),
        (FieldKind::Int, Value::Null) => true,
        (FieldKind::Int, Value::Int(number)) => u64::from(zigzag32(*number)) < all_ones(width),
        (FieldKind::Long, Value::Null) => true,
        (FieldKind::Long, Value::Long(number)) => zigzag64(*number) < all_ones(width),
        (FieldKind::Boolean, Value::Null) => width == 2,
        (FieldKind::Boolean, Value::Bool(_)) => width == 2,
        (FieldKind::Text, _) => EndOffset::fits(end, width),
        (FieldKind::Bytes, _) => EndOffset::fits(end, width),
        _ => false,
    }
}

/// Adds the bytes of each value to the end offset of its field, and tells whether each value fits the width of its field.
pub(crate) fn add_values(
    fields: &[Field],
    widths: &[u32],
    values: &[Value],
    ends: &mut [u64],
) -> bool
    requires widths { length widths.now ≡ length fields.now }
    requires values { length values.now ≡ length fields.now }
    requires ends { length ends.old ≡ length fields.now }
    requires narrow { (field : ℕ) → slice_index widths.now field ≤ 64 }
    ensures fits { IsTrue result ↔ FitsWidths fields.now widths.now (end_after ends.old values.now) values.now }
    ensures ends { IsTrue result → (field : ℕ) → slice_index ends.new field ≡ end_after ends.old values.now field }
{
    for (index, field) in fields.iter().enumerate() {
        let value = &values[index];
        let end = ends[index].saturating_add(value_bytes(value));
        if !fits_width(&field.kind, widths[index], end, value) {
            return false;
        }
        ends[index] = end;
    }
    true
}

/// Takes the bytes of each value off the end offset of its field.
pub(crate) fn take_values(values: &[Value], ends: &mut [u64])
    requires { length values.now ≤ length ends.old }
    ensures { (field : ℕ) → slice_index ends.new field ≡ end_before ends.old values.now field }
{
    for (index, value) in values.iter().enumerate() {
        ends[index] = ends[index].saturating_sub(value_bytes(value));
    }
}
