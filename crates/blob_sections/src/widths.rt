//! The widths of the parts of a type's rows.
ghost use Rattle.std.specs.Prelude.{◌≡◌, ◌≤◌, ◌↔◌, All, IfOk, IsTrue, length};
ghost use Rattle.std.specs.List.{AllZip};
ghost use Rattle.object_codec.specs.ObjectPlace.{IsKindWidth};
ghost use Rattle.type_rows.specs.WellFormed.{IsWidth};
ghost use Rattle.blob_grammar.specs.Form.{each_of};
ghost use Rattle.blob_cursor.specs.Scene.{IsAbove, Leads};
ghost use Rattle.type_rows.specs.Layout.{width_count};
ghost use Rattle.blob_sections.specs.Width.{field_width, part_width, part_widths};

use blob_cursor::Cursor;
use blob_frame::BlobFault;
use hol_io::BlobStore;
use row_model::Widths;
use schema_model::{Field, FieldKind, Reason, Shape};

// Whether a field of a kind may have a width where there are places.
fn is_kind_width(kind: &FieldKind, width: u32) -> bool
    ensures { IsTrue result ↔ IsKindWidth kind.now width }
{
    match kind {
        FieldKind::Boolean => width == 2,
        FieldKind::Text | FieldKind::Bytes => width >= 1,
        FieldKind::Reference(_) | FieldKind::Int | FieldKind::Long => true,
    }
}

// Whether a field of a kind may have a width under this max ordinal.
fn is_width(max: Option<u32>, kind: &FieldKind, width: u32) -> bool
    ensures { IsTrue result ↔ IsWidth max kind.now width }
{
    match max {
        Some(_) => width <= 64 && is_kind_width(kind, width),
        None => width <= 64,
    }
}

// The width of a field. `BadWidth` stands at one that the field's kind may not have.
fn field_width<S: BlobStore>(
    cursor: &mut Cursor,
    store: &mut S,
    max: Option<u32>,
    kind: &FieldKind,
) -> Result<u32, BlobFault>
    requires over { IsAbove S.seen store.old cursor.old }
    ensures reads { Leads S.seen (field_width max kind.now) store.old cursor.old store.new cursor.new result }
    ensures whole { IfOk result (IsWidth max kind.now) }
{
    let at = cursor.at();
    let width = cursor.vint(store)?;
    if !is_width(max, kind, width) {
        return Err(BlobFault::Bad(at, Reason::BadWidth));
    }
    Ok(width)
}

/// The width of each field, under a max ordinal. `BadWidth` stands at one that the field's kind may not have.
pub fn field_widths<S: BlobStore>(
    cursor: &mut Cursor,
    store: &mut S,
    max: Option<u32>,
    fields: &[Field],
) -> Result<Widths, BlobFault>
    requires over { IsAbove S.seen store.old cursor.old }
    ensures reads { Leads S.seen (each_of (λ field. field_width max field.kind) fields.now) store.old cursor.old store.new cursor.new result }
    ensures whole { IfOk result (AllZip (λ field width. IsWidth max field.kind width) fields.now) }
{
    let mut widths = Widths::new(cursor.allocator());
    for field in fields {
        widths.push(field_width(cursor, store, max, &field.kind)?)?;
    }
    Ok(widths)
}

// A width of a LIST, SET or MAP. `BadWidth` stands at one over 64.
fn part_width<S: BlobStore>(cursor: &mut Cursor, store: &mut S) -> Result<u32, BlobFault>
    requires over { IsAbove S.seen store.old cursor.old }
    ensures reads { Leads S.seen part_width store.old cursor.old store.new cursor.new result }
    ensures whole { IfOk result (λ width. width ≤ 64) }
{
    let at = cursor.at();
    let width = cursor.vint(store)?;
    if width > 64 {
        return Err(BlobFault::Bad(at, Reason::BadWidth));
    }
    Ok(width)
}

// How many widths a type of this shape has.
fn width_count(shape: &Shape) -> usize
    ensures { result ≡ width_count shape.now }
{
    match shape {
        Shape::Object(_, fields) => fields.len(),
        Shape::List(_) => 2,
        Shape::Set(_) => 3,
        Shape::Map(_, _) => 4,
    }
}

/// The widths of a LIST, SET or MAP. `BadWidth` stands at one over 64.
pub fn part_widths<S: BlobStore>(
    cursor: &mut Cursor,
    store: &mut S,
    shape: &Shape,
) -> Result<Widths, BlobFault>
    requires over { IsAbove S.seen store.old cursor.old }
    ensures reads { Leads S.seen (part_widths shape.now) store.old cursor.old store.new cursor.new result }
    ensures whole { IfOk result (All (λ width. width ≤ 64)) }
    ensures long { IfOk result (λ widths. length widths ≡ width_count shape.now) }
{
    let count = width_count(shape);
    let mut widths = Widths::new(cursor.allocator());
    for _item in 0..count {
        widths.push(part_width(cursor, store)?)?;
    }
    Ok(widths)
}
