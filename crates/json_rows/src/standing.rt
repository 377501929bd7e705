//! The lines of a type's rows, and where these rows stand.
ghost use Rattle.std.specs.Prelude.{◌<◌, IfOk, IfSome, length};
ghost use Rattle.json_rows.specs.Standing.{AreColumnsOf, AreLinesIn, IsStandingIn};

use crate::form::{LineForm, line_form};
use column_rows::{ColumnRows, PackedItems};
use object_codec::Column;
use schema_model::{Field, Shape};
use std::alloc::{AllocError, Global};

/// The lines of a type's rows: what they have in common, and where the rows stand.
#[derive(Drop)]
pub struct TypeLines<'a> {
    /// What the lines have in common.
    pub form: LineForm<'a>,
    /// Where the rows stand.
    pub standing: Standing<'a>,
}

/// Where the rows of a type stand.
#[derive(Drop)]
pub enum Standing<'a> {
    /// The records stand packed: the columns of their fields, in order.
    Columns(Vec<Column<'a>>),
    /// The lists stand packed: their pointers and elements.
    Lists(PackedItems<'a>),
    /// The rows stand elsewhere, or are sets or maps: each is lent.
    Lent,
}

/// The lines of the rows of a type, made once for all of them. It fails only where memory is refused.
pub fn type_lines<'a, R: ColumnRows>(
    alloc: Global,
    rows: &'a R,
    type_index: u32,
) -> Result<TypeLines<'a>, AllocError>
    requires { type_index < length (R.schemas rows.now) }
    ensures { IfOk result (AreLinesIn (R.schemas rows.now) (R.table rows.now) type_index) }
{
    let form = line_form(alloc, rows.model().schema(type_index))?;
    let standing = standing_of(alloc, rows, type_index, &form.schema.shape)?;
    Ok(TypeLines { form, standing })
}

// Where the rows of a type of this shape stand.
fn standing_of<'a, R: ColumnRows>(
    alloc: Global,
    rows: &'a R,
    type_index: u32,
    shape: &Shape,
) -> Result<Standing<'a>, AllocError>
    ensures { IfOk result (IsStandingIn (R.table rows.now) type_index shape.now) }
{
    match shape {
        Shape::Object(_, fields) => match columns_of(alloc, rows, type_index, fields.as_slice())? {
            Some(columns) => Ok(Standing::Columns(columns)),
            None => Ok(Standing::Lent),
        },
        Shape::List(_) => match rows.lists(type_index) {
            Some(lists) => Ok(Standing::Lists(lists)),
            None => Ok(Standing::Lent),
        },
        Shape::Set(_) | Shape::Map(_, _) => Ok(Standing::Lent),
    }
}

// The columns of these fields, if all records stand packed.
fn columns_of<'a, R: ColumnRows>(
    alloc: Global,
    rows: &'a R,
    type_index: u32,
    fields: &[Field],
) -> Result<Option<Vec<Column<'a>>>, AllocError>
    ensures { IfOk result (λ found. IfSome found (λ columns. AreColumnsOf (R.table rows.now) type_index (length fields.now) columns.items)) }
{
    let Ok(count) = u32::try_from(fields.len()) else {
        return Ok(None);
    };
    let mut columns = Vec::with_capacity(alloc, fields.len())?;
    for field in 0..count {
        let Some(column) = rows.column(type_index, field) else {
            return Ok(None);
        };
        columns.push(column)?;
    }
    Ok(Some(columns))
}
