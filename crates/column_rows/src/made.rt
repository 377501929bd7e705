//! The column of a field.
ghost use Rattle.std.specs.Prelude.{ℕ, List, ◌≡◌, ◌<◌, ◌≤◌, length};
ghost use Rattle.std.specs.List.{AllZip};
ghost use Rattle.row_model.specs.Areas.{area_of};
ghost use Rattle.row_model.specs.declared.row.Value.{Value};
ghost use Rattle.object_codec.specs.ObjectPlace.{HoldsPlace, IsFieldWidth, SpellsObject};
ghost use Rattle.object_codec.specs.Bytes.{bytes_of};
ghost use Rattle.column_rows.specs.Columns.{HasValueOf};

use bit_array::total_width;
use object_codec::{Column, PackedBytes};
use schema_model::{Field, FieldKind};

/// The column of the field at an index, whose bytes are given.
pub fn column_of<'a>(
    fields: &'a [Field],
    widths: &[u32],
    first: &'a [u64],
    area: PackedBytes<'a>,
    index: usize,
) -> Column<'a>
    requires few { length fields.now ≤ 1024 }
    requires wide { AllZip IsFieldWidth fields.now widths.now }
    requires there { index < length fields.now }
    ensures { (place : ℕ) (areas : List (List ℕ)) (values : List Value) → HoldsPlace fields.now widths.now first.now areas place → area_of areas index ≡ bytes_of area.entry → SpellsObject fields.now widths.now first.now areas place values → HasValueOf result place values index }
{
    let size = total_width(widths) as u64;
    let before = total_width(&widths[..index]) as u64;
    made(
        &fields[index].kind,
        widths[index],
        before,
        size,
        first,
        area,
    )
}

/// The column of these parts.
#[inline(always)]
fn made<'a>(
    kind: &'a FieldKind,
    width: u32,
    before: u64,
    size: u64,
    first: &'a [u64],
    area: PackedBytes<'a>,
) -> Column<'a>
    ensures kind { result.kind.now ≡ kind.now }
    ensures width { result.width ≡ width }
    ensures before { result.before ≡ before }
    ensures size { result.size ≡ size }
    ensures first { result.first.now ≡ first.now }
    ensures area { bytes_of result.area ≡ bytes_of area.entry }
{
    Column {
        kind,
        width,
        before,
        size,
        first,
        area,
    }
}
