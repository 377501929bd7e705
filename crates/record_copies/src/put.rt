//! Records written at their places, and places cleared, in any order.
ghost use Rattle.std.specs.Prelude.{ℕ, List, ◌≡◌, ◌+◌, ◌*◌, ◌^◌, ◌<◌, ◌≤◌, length, sum, slice_get, slice_index, All, IfSome, None};
ghost use Rattle.bit_array.specs.Element.{SetsBlock};
ghost use Rattle.schema_model.specs.Parts.{shape_fields};
ghost use Rattle.schema_model.specs.declared.schema.Shape.{Shape};
ghost use Rattle.row_model.specs.Row.{stored_row};
ghost use Rattle.object_codec.specs.ObjectPlace.{SpellsObjectRow};
ghost use Rattle.object_codec.specs.Packing.{HoldsValue};
ghost use Rattle.object_codec.specs.Stored.{values_of_row};
ghost use Rattle.record_copies.specs.Element.{IsOutsideKept, GivesValue, GiveValues};
ghost use Rattle.record_copies.specs.Fixed.{HasRecordRoom, record_at, AreOthersKept, IsEndKept};

use bit_array::{all_ones, set_element, total_width};
use object_codec::{stored_number, values_of};
use row_model::{Row, Value};
use schema_model::Schema;

/// Writes the record of a row at a place, the least INT and LONG as null. What stood there is gone, and no bit outside of the place changes.
///
/// The type of the schema has no STRING and no BYTES, and the widths hold the numbers of the row.
pub fn put_record(_schema: &Schema, widths: &[u32], first: &mut [u64], place: u64, row: &Row)
    requires { HasRecordRoom _schema.now.shape widths.now first.old place row.now }
    ensures spelled { (areas : List (List ℕ)) → length areas ≡ length (shape_fields _schema.now.shape) → SpellsObjectRow _schema.now.shape widths.now first.new areas place (stored_row row.now) }
    ensures others { AreOthersKept widths.now first.old first.new place }
    ensures end { IsEndKept widths.now first.old first.new place }
{
    let start = place * total_width(widths) as u64;
    put_values(widths, first, start, values_of(row));
}

/// Clears a place: its record has no bits, as where there is no row. No bit outside of the place changes.
pub fn clear_record(widths: &[u32], first: &mut [u64], place: u64)
    requires within { (place + 1) * sum widths.now ≤ 64 * length first.old }
    requires counted { (place + 1) * sum widths.now < 2 ^ 64 }
    ensures clear { record_at widths.now first.new place ≡ 0 }
    ensures others { AreOthersKept widths.now first.old first.new place }
    ensures end { IsEndKept widths.now first.old first.new place }
{
    let size = total_width(widths) as u64;
    clear_bits(first, place * size, size);
}

/// Writes the elements of values behind one another, from a bit on.
fn put_values(widths: &[u32], first: &mut [u64], start: u64, values: &[Value])
    requires narrow { All (λ width. width ≤ 64) widths.now }
    requires long { length values.now ≡ length widths.now }
    requires held { (index : ℕ) → IfSome (slice_get values.now index) (HoldsValue (slice_index widths.now index)) }
    requires inside { start + sum widths.now ≤ 64 * length first.old }
    requires counted { start + sum widths.now < 2 ^ 64 }
    ensures values { GiveValues widths.now first.new start values.now }
    ensures kept { IsOutsideKept first.old first.new start (start + sum widths.now) }
{
    let mut at = start;
    for (index, value) in values.iter().enumerate() {
        let width = widths[index];
        set_element(first, at, width, fixed_element(width, value));
        at += u64::from(width);
    }
}

/// Clears so many bits, from a bit on.
fn clear_bits(first: &mut [u64], start: u64, size: u64)
    requires inside { start + size ≤ 64 * length first.old }
    requires counted { start + size < 2 ^ 64 }
    ensures { SetsBlock first.old first.new start size 0 }
{
    let mut done = 0;
    while done < size {
        let width = (size - done).min(64);
        set_element(first, start + done, width as u32, 0);
        done += width;
    }
}

/// The element of a value in a field of this width: its number, and ones alone for null, which the least INT and the least LONG are too.
fn fixed_element(width: u32, value: &Value) -> u64
    requires narrow { width ≤ 64 }
    requires held { HoldsValue width value.now }
    ensures below { result < 2 ^ width }
    ensures gives { GivesValue width result value.now }
{
    stored_number(value).unwrap_or(all_ones(width))
}
