//! The rows of a section of a snapshot, each read at its place when it is laid out.
ghost use Rattle.std.specs.Prelude.{◌≡◌, IfOk, IsSome, Some};
ghost use Rattle.std.specs.FinMap.{get};
ghost use Rattle.type_rows.specs.Rows.{rows_in};
ghost use Rattle.type_state.specs.SectionRows.{HasRows};

use packed_half::NewRows;
use row_model::{PlaceFault, Row};
use schema_model::Schema;
use std::alloc::{AllocError, Global};
use std::marker::Model;
use type_rows::{Section, read_place};

/// The rows of a section.
#[derive(Drop)]
pub(crate) struct SectionRows<'a> {
    schema: &'a Schema,
    section: &'a Section,
}

impl<'a> Model for SectionRows<'a> {
    ghost use Rattle.row_model.specs.Table.{RowMap};
    ghost use Rattle.type_rows.specs.Rows.{rows_in};
    ghost use Rattle.type_state.specs.SectionRows.{HasRows, rows_code};

    ghost Value = { RowMap };

    ghost coded = { rows_code };

    ghost view = { λ view. rows_in view.schema.now.shape view.section.now };

    ghost invariant = { λ view. HasRows view.schema.now.shape view.section.now };
}

impl<'a> SectionRows<'a> {
    /// Those of a section that can be read.
    pub(crate) fn new(schema: &'a Schema, section: &'a Section) -> SectionRows<'a>
        requires { HasRows schema.now.shape section.now }
        ensures { result ≡ rows_in schema.now.shape section.now }
    {
        SectionRows { schema, section }
    }
}

/// The row at the place of a live ordinal.
fn read_live(
    alloc: Global,
    schema: &Schema,
    section: &Section,
    ordinal: u32,
) -> Result<Row, AllocError>
    requires has { HasRows schema.now.shape section.now }
    requires live { IsSome (get (rows_in schema.now.shape section.now) ordinal) }
    ensures { IfOk result (λ row. get (rows_in schema.now.shape section.now) ordinal ≡ Some row) }
{
    let place = u64::from(ordinal);
    match read_place(
        alloc,
        schema,
        &section.widths,
        section.total,
        section,
        place,
    ) {
        Ok(row) => Ok(row),
        Err(PlaceFault::Bad(_)) => unreachable!(),
        Err(PlaceFault::Memory) => Err(AllocError),
    }
}

impl NewRows for SectionRows<'_> {
    ghost rows = { λ rows. rows };

    ghost suits = { λ rows shape. Unit {0} };

    fn new_row(&self, alloc: Global, ordinal: u32) -> Result<Row, AllocError> {
        read_live(alloc, self.schema, self.section, ordinal)
    }
}
