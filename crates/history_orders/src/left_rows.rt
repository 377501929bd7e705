//! The rows of a type that left since a version and may have a key.
ghost use Rattle.std.specs.Prelude.{◌≡◌, ℕ, Contains, IsTrue, List, OnOk, Some};
ghost use Rattle.schema_model.specs.declared.schema.Schema.{Schema};
ghost use Rattle.row_model.specs.Key.{key_of, value_along};
ghost use Rattle.row_model.specs.Table.{Table, row_at};
ghost use Rattle.hol_history.specs.History.{versions};
ghost use Rattle.history_orders.specs.Left.{HasAll, HasLeft, HasLeftSince};

use crate::key_rows::is_value;
use column_rows::value_in;
use hol_history::{History, Part};
use row_model::{Row, Value, Values};
use schema_model::Paths;
use std::alloc::AllocError;

/// Adds ordinals of rows of a type that left in a step since a version that the history reaches, among them each whose row had the key.
pub(crate) fn add_left_since(
    history: &History,
    wanted: u64,
    type_index: u32,
    paths: &Paths,
    key: &Values,
    among: &mut Vec<u32>,
) -> Result<(), AllocError>
    requires { Contains (versions history.now.steps) wanted }
    ensures left { OnOk result (HasLeftSince history.now.steps wanted type_index paths.now key.now among.new.items) }
    ensures kept { OnOk result (HasAll among.old.items among.new.items) }
{
    for place in 0..history.steps_since(wanted) {
        if let Some(part) = history.part(place, type_index) {
            add_left(part, paths, key, among)?;
        }
    }
    Ok(())
}

// Adds ordinals of rows that left in a step, among them each whose row had the key.
fn add_left(
    part: &Part,
    paths: &Paths,
    key: &Values,
    among: &mut Vec<u32>,
) -> Result<(), AllocError>
    ensures left { OnOk result (HasLeft part.now paths.now key.now among.new.items) }
    ensures kept { OnOk result (HasAll among.old.items among.new.items) }
{
    let ordinals = part.gone();
    let rows = part.rows();
    for place in 0..ordinals.len() {
        if may_have_key(&rows[place], paths, key) {
            among.push(ordinals[place])?;
        }
    }
    Ok(())
}

// Whether a row may have a key, wherever it stands: false only where its own field at the end of the first path has another value.
#[inline(always)]
fn may_have_key(row: &Row, paths: &Paths, key: &Values) -> bool
    ensures { (schemas : List Schema) (table : Table) (type_index ordinal : ℕ) → row_at table type_index ordinal ≡ Some row.now → key_of schemas table type_index paths.now ordinal ≡ Some key.now → IsTrue result }
{
    let [path, ..] = paths.as_slice() else {
        return true;
    };
    let [value, ..] = key.as_slice() else {
        return true;
    };
    may_lead(row, path.fields.as_slice(), value)
}

// Whether fields may lead from a row to a value, wherever it stands: false only where they are one field, which has another value.
#[inline(always)]
fn may_lead(row: &Row, fields: &[u32], value: &Value) -> bool
    ensures { (schemas : List Schema) (table : Table) (type_index ordinal : ℕ) → row_at table type_index ordinal ≡ Some row.now → value_along schemas table type_index ordinal fields.now ≡ Some value.now → IsTrue result }
{
    let [field] = fields else {
        return true;
    };
    match value_in(row, *field) {
        Some(found) => is_value(found, value),
        None => false,
    }
}
