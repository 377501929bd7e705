//! Rows seen through another model.
ghost use Rattle.std.specs.Prelude.{◌≡◌, IfOk, MatchOption};
ghost use Rattle.row_model.specs.View.{place_in, seen_row as row_seen, seen_values as values_seen, value_named as value_of_name};

use hol_varint::Duplicate;
use row_model::{Row, Rows, Value, Values};
use schema_model::{Field, Model, Shape};
use std::alloc::{AllocError, Global};

// The value of the field of a name, none where no field has it.
fn value_named<'a>(fields: &[Field], values: &'a [Value], name: &str) -> Option<&'a Value>
    ensures { MatchOption result (value_of_name fields.now values.now name.now ≡ Value.Null) (λ value. value_of_name fields.now values.now name.now ≡ value.now) }
{
    let [field, other_fields @ ..] = fields else {
        return None;
    };
    let [value, other_values @ ..] = values else {
        return None;
    };
    if field.name.text() == name {
        return Some(value);
    }
    value_named(other_fields, other_values, name)
}

// A copy of the value of the field of a name, null where no field has it.
fn copy_named(
    alloc: Global,
    fields: &[Field],
    values: &[Value],
    name: &str,
) -> Result<Value, AllocError>
    ensures { IfOk result (λ value. value ≡ value_of_name fields.now values.now name.now) }
{
    match value_named(fields, values, name) {
        Some(value) => value.copy(alloc),
        None => Ok(Value::Null),
    }
}

// The values of a record for other fields, by their names.
fn seen_values(
    alloc: Global,
    own: &[Field],
    mine: &[Field],
    values: &[Value],
) -> Result<Values, AllocError>
    ensures { IfOk result (λ seen. seen ≡ values_seen own.now mine.now values.now) }
{
    let mut seen = Values::with_capacity(alloc, mine.len())?;
    for field in mine {
        seen.push(copy_named(alloc, own, values, field.name.text())?)?;
    }
    Ok(seen)
}

/// A row of one shape as one of another shape: a record gets the values of the other fields, by their names, and null for a field that it lacks.
pub fn seen_row(alloc: Global, own: &Shape, mine: &Shape, row: Row) -> Result<Row, AllocError>
    ensures { IfOk result (λ seen. seen ≡ row_seen own.now mine.now row) }
{
    match row {
        Row::Object(values) => {
            let seen = seen_values(alloc, own.fields(), mine.fields(), values.as_slice())?;
            Ok(Row::Object(seen))
        }
        row => Ok(row),
    }
}

// The index in one model of the type that a type of another model is, if there is one.
fn place_of(own: &Model, mine: &Model, type_index: u32) -> Option<u32>
    ensures { result ≡ place_in own.now mine.now type_index }
{
    if type_index >= mine.len() {
        return None;
    }
    own.index_of(mine.schema(type_index).name.text())
}

/// Rows of a model, seen through another one, whose schemas agree with the first one's: what the second one lacks is passed over, and what the first one
/// lacks is null, or has no rows.
#[derive(Drop)]
pub struct Seen<'a, R: Rows> {
    rows: &'a R,
    model: &'a Model,
}

impl<'a, R: Rows> std::marker::Model for Seen<'a, R> {
    ghost use Rattle.seen_rows.specs.Seen.{SeenRows, seen_code};
    ghost use Rattle.row_model.specs.Table.{IsTableOf};
    ghost use Rattle.row_model.specs.View.{view as seen_table};

    ghost Value = { SeenRows };

    ghost coded = { seen_code };

    ghost view = { λ seen. record { schemas = seen.model.now; table = seen_table seen.model.now (R.schemas seen.rows.now) (R.table seen.rows.now) } };

    ghost invariant = { λ seen. IsTableOf seen.model.now (seen_table seen.model.now (R.schemas seen.rows.now) (R.table seen.rows.now)) };
}

impl<'a, R: Rows> Seen<'a, R> {
    ghost use Rattle.std.specs.Prelude.{◌≡◌};
    ghost use Rattle.schema_model.specs.Growth.{ModelsAgree};
    ghost use Rattle.row_model.specs.View.{view as seen_table};

    /// Rows, seen through a model.
    pub fn new(rows: &'a R, model: &'a Model) -> Seen<'a, R>
        requires { ModelsAgree (R.schemas rows.now) model.now }
        ensures schemas { result.schemas ≡ model.now }
        ensures table { result.table ≡ seen_table model.now (R.schemas rows.now) (R.table rows.now) }
    {
        let _types = rows.model().len();
        Seen { rows, model }
    }
}

impl<'a, R: Rows> Rows for Seen<'a, R> {
    ghost schemas = { λ seen. seen.schemas };

    ghost table = { λ seen. seen.table };

    fn model(&self) -> &Model {
        self.model
    }

    fn bound(&self, type_index: u32) -> u32 {
        match place_of(self.rows.model(), self.model, type_index) {
            Some(place) => self.rows.bound(place),
            None => 0,
        }
    }

    fn is_live(&self, type_index: u32, ordinal: u32) -> bool {
        match place_of(self.rows.model(), self.model, type_index) {
            Some(place) => self.rows.is_live(place, ordinal),
            None => false,
        }
    }

    fn row(&self, alloc: Global, type_index: u32, ordinal: u32) -> Result<Row, AllocError> {
        let Some(place) = place_of(self.rows.model(), self.model, type_index) else {
            unreachable!();
        };
        let row = self.rows.row(alloc, place, ordinal)?;
        let own = &self.rows.model().schema(place).shape;
        seen_row(alloc, own, &self.model.schema(type_index).shape, row)
    }
}
