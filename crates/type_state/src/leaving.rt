//! What the rows that leave take off totals, told where they stand packed: no row is made.
ghost use Rattle.std.specs.Prelude.{◌≡◌, ◌-◌, ◌^◌, ◌≤◌, ℕ, IfOk, IfSome, List, Some, length, min, slice_index, sum_by};
ghost use Rattle.row_model.specs.declared.row.Row.{Row as StoredRow};
ghost use Rattle.row_model.specs.declared.row.Value.{Value};
ghost use Rattle.schema_model.specs.Parts.{shape_fields};
ghost use Rattle.object_codec.specs.Part.{SpellsValue};
ghost use Rattle.object_codec.specs.Columns.{IsReadAt, part_of};
ghost use Rattle.column_rows.specs.Items.{IsListThere, IsRunThere};
ghost use Rattle.type_rows.specs.Ends.{AreOfKind, end_before};
ghost use Rattle.type_rows.specs.Layout.{items_of_row};
ghost use Rattle.type_rows.specs.Totals.{AreLess, HasParts};
ghost use Rattle.type_rows.specs.WordsHeld.{value_bytes};
ghost use Rattle.type_state.specs.Leaving.{AreColumns, AreReadAt, AreStanding, HasColumns, HasItems, StandsIn};

use crate::packed_rows::PackedRows;
use bucket_codec::{BucketRows, buckets_for};
use column_rows::{PackedItems, TypeColumns, TypeRows};
use list_codec::ListRows;
use object_codec::{Column, ValueRef, has_bytes};
use schema_model::{Field, Shape};
use std::alloc::{AllocError, Global};
use type_rows::Totals;

/// The items of the rows of a type, where they stand packed.
#[derive(Clone, Copy)]
pub(crate) enum Items<'a> {
    /// Records have none.
    None,
    /// The elements of lists.
    Lists(PackedItems<'a>),
    /// The buckets of sets or maps.
    Runs(PackedItems<'a>),
}

/// The rows of a type where they stand packed: the fields of records, or the items of the other kinds.
#[derive(Drop)]
pub(crate) struct Leaving<'a> {
    /// Each field of records; none of the other kinds.
    pub(crate) columns: Vec<Column<'a>>,
    /// The items of the other kinds.
    pub(crate) items: Items<'a>,
}

/// How many variable bytes the value of a field has in the record at a place.
#[inline(always)]
fn value_len(column: &Column<'_>, place: u64) -> u64
    requires { IsReadAt column.now place }
    ensures { (value : Value) → SpellsValue column.now.kind.now (part_of column.now place) value → result ≡ value_bytes value }
{
    if !has_bytes(column.kind) {
        return 0;
    }
    match column.value(place) {
        ValueRef::Text(bytes) => bytes.len,
        ValueRef::Bytes(bytes) => bytes.len,
        _ => 0,
    }
}

/// Takes the bytes of each field of the record at a place off the end offset of the field, and gives how many bytes these are together.
fn take_values(columns: &[Column<'_>], place: u64, ends: &mut [u64]) -> u64
    requires reads { AreReadAt columns.now place }
    requires enough { length columns.now ≤ length ends.old }
    ensures ends { (values : List Value) → HasColumns columns.now place values → (field : ℕ) → slice_index ends.new field ≡ end_before ends.old values field }
    ensures bytes { (values : List Value) → HasColumns columns.now place values → result ≡ min (sum_by value_bytes values) (2 ^ 64 - 1) }
{
    let mut bytes: u64 = 0;
    for (field, column) in columns.iter().enumerate() {
        let len = value_len(column, place);
        ends[field] = ends[field].saturating_sub(len);
        bytes = bytes.saturating_add(len);
    }
    bytes
}

/// How many elements the list under an ordinal has.
fn list_len(items: &PackedItems<'_>, ordinal: u32) -> u64
    requires { (row : StoredRow) × IsListThere items.now ordinal row }
    ensures { (row : StoredRow) → IsListThere items.now ordinal row → result ≡ items_of_row row }
{
    let rows = ListRows {
        widths: items.widths,
        total: items.total,
        first: items.first,
        second: items.second,
    };
    rows.length(u64::from(ordinal))
}

/// How many buckets the set or map under an ordinal takes, told by its size.
fn run_len(items: &PackedItems<'_>, ordinal: u32) -> u64
    requires { (row : StoredRow) × HasParts 0 row × IsRunThere items.now ordinal row }
    ensures { (row : StoredRow) → HasParts 0 row → IsRunThere items.now ordinal row → result ≡ items_of_row row }
{
    let rows = BucketRows {
        widths: items.widths,
        total: items.total,
        first: items.first,
        second: items.second,
    };
    buckets_for(rows.size(u64::from(ordinal)) as u32)
}

/// How many items the row under an ordinal has.
fn items_under(items: &Items<'_>, ordinal: u32) -> u64
    requires { (row : StoredRow) × HasItems items.now ordinal row }
    ensures { (row : StoredRow) → HasItems items.now ordinal row → result ≡ items_of_row row }
{
    match items {
        Items::None => 0,
        Items::Lists(lists) => list_len(lists, ordinal),
        Items::Runs(runs) => run_len(runs, ordinal),
    }
}

impl Leaving<'_> {
    /// Takes off the row under an ordinal, which stands there. It takes no memory.
    pub(crate) fn take_off(&self, totals: &mut Totals, ordinal: u32)
        requires stands { (row : StoredRow) × StandsIn self.now ordinal row }
        requires enough { length self.now.columns.items ≤ length totals.old.ends.offsets.items }
        ensures { (row : StoredRow) → StandsIn self.now ordinal row → AreLess totals.old (Some row) totals.new }
    {
        let columns = self.columns.as_slice();
        let bytes = take_values(columns, u64::from(ordinal), &mut totals.ends.offsets);
        totals.bytes = totals.bytes.saturating_sub(bytes);
        let items = items_under(&self.items, ordinal);
        totals.ends.items = totals.ends.items.saturating_sub(items);
    }
}

/// The fields of the records of a type, where they stand packed. None tells nothing.
fn columns_of<'a>(
    alloc: Global,
    rows: &PackedRows<'a>,
    fields: &[Field],
) -> Result<Option<Vec<Column<'a>>>, AllocError>
    ensures { IfOk result (λ told. IfSome told (λ columns. AreColumns rows.now.rows columns.items (length fields.now))) }
{
    let Ok(count) = u32::try_from(fields.len()) else {
        return Ok(None);
    };
    let mut columns = Vec::with_capacity(alloc, fields.len())?;
    for field in 0..count {
        match rows.column(field) {
            Some(column) => columns.push(column)?,
            None => return Ok(None),
        }
    }
    Ok(Some(columns))
}

/// Rows that are not records, where their items stand packed. None tells nothing.
fn items_of<'a>(alloc: Global, rows: &PackedRows<'a>, shape: &Shape) -> Option<Leaving<'a>>
    requires { AreOfKind shape.now rows.now.rows }
    ensures stands { IfSome result (AreStanding rows.now.rows) }
    ensures none { IfSome result (λ leaving. length leaving.columns.items ≡ 0) }
{
    let items = match shape {
        Shape::Object(_, _) => return None,
        Shape::List(_) => Items::Lists(rows.lists()?),
        _ => Items::Runs(rows.runs()?),
    };
    Some(Leaving {
        columns: Vec::new(alloc),
        items,
    })
}

/// The rows of a type where they stand packed. None tells nothing.
pub(crate) fn leaving_of<'a>(
    alloc: Global,
    rows: &PackedRows<'a>,
    shape: &Shape,
) -> Result<Option<Leaving<'a>>, AllocError>
    requires { AreOfKind shape.now rows.now.rows }
    ensures stands { IfOk result (λ told. IfSome told (AreStanding rows.now.rows)) }
    ensures enough { IfOk result (λ told. IfSome told (λ leaving. length leaving.columns.items ≤ length (shape_fields shape.now))) }
{
    if rows.bound() == 0 {
        return Ok(Some(Leaving {
            columns: Vec::new(alloc),
            items: Items::None,
        }));
    }
    let Shape::Object(_, fields) = shape else {
        return Ok(items_of(alloc, rows, shape));
    };
    match columns_of(alloc, rows, fields.as_slice())? {
        Some(columns) => Ok(Some(Leaving {
            columns,
            items: Items::None,
        })),
        None => Ok(None),
    }
}
