//! Whether the rows that stay fit other widths, told by the fields whose width is narrower, where they stand packed: no row is made.
ghost use Rattle.std.specs.Prelude.{◌≡◌, ◌^◌, ◌<◌, ◌≤◌, ℕ, [], All, IsTrue, None, Some, length, map, slice_get, slice_index};
ghost use Rattle.std.specs.FinMap.{find, values};
ghost use Rattle.std.specs.Ordering.{nat_cmp};
ghost use Rattle.row_model.specs.declared.row.Value.{Value};
ghost use Rattle.schema_model.specs.declared.schema.Field.{Field as FieldOf};
ghost use Rattle.object_codec.specs.Part.{SpellsValue};
ghost use Rattle.object_codec.specs.Columns.{IsReadAt, part_of};
ghost use Rattle.type_rows.specs.Holds.{HoldsRows};
ghost use Rattle.type_rows.specs.Layout.{width_count};
ghost use Rattle.column_rows.specs.OneType.{IsColumnIn};
ghost use Rattle.type_state.specs.Counted.{IsNoNarrower, StayFitting};
ghost use Rattle.type_state.specs.Differences.{removal};
ghost use Rattle.type_state.specs.Staying.{FieldStays, FitsBesideNull, FitsUnder};

use crate::packed_rows::PackedRows;
use bit_array::{all_ones, element};
use column_rows::{TypeColumns, TypeRows};
use object_codec::Column;
use schema_model::{Field, FieldKind, Shape};

/// Whether the number of a field in the record at a place is null, or fits another width beside null.
#[inline(always)]
fn number_fits(column: &Column<'_>, place: u64, width: u32) -> bool
    requires reads { IsReadAt column.now place }
    requires narrow { width ≤ 64 }
    ensures { IsTrue result → (value : Value) → SpellsValue column.now.kind.now (part_of column.now place) value → FitsBesideNull width value }
{
    let at = place * column.size + column.before;
    let number = element(column.first, at, column.width);
    number < all_ones(width) || number == all_ones(column.width)
}

/// Whether the number of a field in the record under an ordinal is null, or fits another width beside null; true where no row stands there.
#[inline(always)]
fn fits_under(
    rows: &PackedRows<'_>,
    column: &Column<'_>,
    field: u32,
    width: u32,
    ordinal: u32,
) -> bool
    requires column { IsColumnIn rows.now.rows field column.now }
    requires narrow { width ≤ 64 }
    ensures { IsTrue result → FitsUnder rows.now.rows field width ordinal }
{
    !rows.is_live(ordinal) || number_fits(column, u64::from(ordinal), width)
}

/// Whether the number of a field is null, or fits another width beside null, in each row under an ordinal from `from` on and below `to`.
fn run_fits(
    rows: &PackedRows<'_>,
    column: &Column<'_>,
    field: u32,
    width: u32,
    from: u32,
    to: u32,
) -> bool
    requires column { IsColumnIn rows.now.rows field column.now }
    requires narrow { width ≤ 64 }
    ensures { IsTrue result → (ordinal : ℕ) → from ≤ ordinal → ordinal < to → FitsUnder rows.now.rows field width ordinal }
{
    for ordinal in from..to {
        if !fits_under(rows, column, field, width, ordinal) {
            return false;
        }
    }
    true
}

/// Whether the number of a field is null, or fits another width beside null, in all rows but those under the ordinals of some differences, which rise.
fn column_fits(
    rows: &PackedRows<'_>,
    column: &Column<'_>,
    field: u32,
    width: u32,
    removed: &[u64],
) -> bool
    requires column { IsColumnIn rows.now.rows field column.now }
    requires narrow { width ≤ 64 }
    requires small { All (λ ordinal. ordinal < 2 ^ 32) removed.now }
    ensures { IsTrue result → (ordinal : ℕ) → find nat_cmp ordinal (map removal removed.now) ≡ None → FitsUnder rows.now.rows field width ordinal }
{
    let mut from = 0;
    for ordinal in removed {
        let ordinal = *ordinal as u32;
        if !run_fits(rows, column, field, width, from, ordinal) {
            return false;
        }
        from = ordinal.saturating_add(1);
    }
    run_fits(rows, column, field, width, from, rows.bound())
}

/// Whether each value of a field of this kind fits another width, where it fits the one before. The end offsets of a STRING or BYTES are not tried.
fn field_fits(
    rows: &PackedRows<'_>,
    kind: &FieldKind,
    field: u32,
    before: u32,
    width: u32,
    removed: &[u64],
) -> bool
    requires narrow { width ≤ 64 }
    requires small { All (λ ordinal. ordinal < 2 ^ 32) removed.now }
    ensures { IsTrue result → FieldStays rows.now.rows (map removal removed.now) field kind.now before width }
{
    match kind {
        FieldKind::Text => true,
        FieldKind::Bytes => true,
        FieldKind::Boolean => width == 2,
        _ => before <= width || numbers_fit(rows, field, width, removed),
    }
}

/// Whether each number of a field fits a width beside null.
fn numbers_fit(rows: &PackedRows<'_>, field: u32, width: u32, removed: &[u64]) -> bool
    requires narrow { width ≤ 64 }
    requires small { All (λ ordinal. ordinal < 2 ^ 32) removed.now }
    ensures { IsTrue result → (ordinal : ℕ) → find nat_cmp ordinal (map removal removed.now) ≡ None → FitsUnder rows.now.rows field width ordinal }
{
    match rows.column(field) {
        Some(column) => column_fits(rows, &column, field, width, removed),
        None => false,
    }
}

/// Whether each value of each of these fields does.
fn fields_fit(rows: &PackedRows<'_>, fields: &[Field], widths: &[u32], removed: &[u64]) -> bool
    requires widths { length widths.now ≡ length fields.now }
    requires narrow { (part : ℕ) → slice_index widths.now part ≤ 64 }
    requires small { All (λ ordinal. ordinal < 2 ^ 32) removed.now }
    ensures { IsTrue result → (index : ℕ) (field : FieldOf) → slice_get fields.now index ≡ Some field → FieldStays rows.now.rows (map removal removed.now) index field.kind (slice_index rows.now.widths index) (slice_index widths.now index) }
{
    let before = rows.widths();
    if before.len() != fields.len() {
        return false;
    }
    let Ok(count) = u32::try_from(fields.len()) else {
        return false;
    };
    for field in 0..count {
        let index = field as usize;
        let kind = &fields[index].kind;
        if !field_fits(rows, kind, field, before[index], widths[index], removed) {
            return false;
        }
    }
    true
}

/// Whether there are as many widths as before, and none is narrower.
fn are_no_narrower(before: &[u32], widths: &[u32]) -> bool
    ensures { IsTrue result → IsNoNarrower before.now widths.now }
{
    if before.len() != widths.len() {
        return false;
    }
    for (part, width) in before.iter().enumerate() {
        if *width > widths[part] {
            return false;
        }
    }
    true
}

/// Whether each row but those under the ordinals of some differences fits other widths somewhere: of an OBJECT the narrower fields are tried, and of the
/// other kinds no width may be narrower. False tells nothing. It takes no memory.
pub(crate) fn stay_fitting(
    rows: &PackedRows<'_>,
    shape: &Shape,
    widths: &[u32],
    removed: &[u64],
) -> bool
    requires widths { length widths.now ≡ width_count shape.now }
    requires narrow { (part : ℕ) → slice_index widths.now part ≤ 64 }
    requires held { HoldsRows shape.now rows.now.widths [] (values rows.now.rows) }
    requires small { All (λ ordinal. ordinal < 2 ^ 32) removed.now }
    ensures { IsTrue result → StayFitting shape.now widths.now (map removal removed.now) rows.now.rows }
{
    match shape {
        Shape::Object(_, fields) => fields_fit(rows, fields.as_slice(), widths, removed),
        _ => are_no_narrower(rows.widths(), widths),
    }
}
