//! The ordinals that a row names by a part of a walk path.
ghost use Rattle.std.specs.Prelude.{◌≡◌, ◌++◌, OnOk, map};
ghost use Rattle.row_model.specs.Reach.{named_by as named_in};
ghost use Rattle.row_model.specs.Table.{IsLive, IsTableOf};
ghost use Rattle.hol_paths.specs.Reached.{IsNoField, named_at};

use crate::packed::{packed_list, push_elements};
use column_rows::{ColumnRows, field_value};
use row_model::{Row, Rows, Value};
use schema_model::WalkPart;
use std::alloc::{AllocError, Global};

/// Adds the ordinals that the row under a live ordinal names by a part.
pub(crate) fn push_named<R: ColumnRows>(
    alloc: Global,
    rows: &R,
    type_index: u32,
    part: WalkPart,
    ordinal: u32,
    named: &mut Vec<u32>,
) -> Result<(), AllocError>
    requires fits { IsTableOf (R.schemas rows.now) (R.table rows.now) }
    requires live { IsLive (R.table rows.now) type_index ordinal }
    ensures { OnOk result (named.new.items ≡ named.old.items ++ named_at (R.table rows.now) type_index part ordinal) }
{
    match part {
        WalkPart::Field(field) => push_field(alloc, rows, type_index, ordinal, field, named),
        WalkPart::Element => push_list(alloc, rows, type_index, ordinal, named),
        _ => {
            let lent = rows.lend(alloc, type_index, ordinal)?;
            push_items(lent.row(), part, named)
        }
    }
}

/// Adds the ordinal that a field of the row under a live ordinal names, if it names one.
fn push_field<R: ColumnRows>(
    alloc: Global,
    rows: &R,
    type_index: u32,
    ordinal: u32,
    field: u32,
    named: &mut Vec<u32>,
) -> Result<(), AllocError>
    requires { IsLive (R.table rows.now) type_index ordinal }
    ensures { OnOk result (named.new.items ≡ named.old.items ++ named_at (R.table rows.now) type_index (WalkPart.Field field) ordinal) }
{
    if let Some(Value::Ref(other)) = field_value(alloc, rows, type_index, ordinal, field)? {
        named.push(other)?;
    }
    Ok(())
}

/// Adds the elements of the list or set under a live ordinal.
fn push_list<R: ColumnRows>(
    alloc: Global,
    rows: &R,
    type_index: u32,
    ordinal: u32,
    named: &mut Vec<u32>,
) -> Result<(), AllocError>
    requires fits { IsTableOf (R.schemas rows.now) (R.table rows.now) }
    requires live { IsLive (R.table rows.now) type_index ordinal }
    ensures { OnOk result (named.new.items ≡ named.old.items ++ named_at (R.table rows.now) type_index WalkPart.Element ordinal) }
{
    match packed_list(rows, type_index, ordinal) {
        Some(elements) => push_elements(&elements, named),
        None => {
            let lent = rows.lend(alloc, type_index, ordinal)?;
            push_items(lent.row(), WalkPart::Element, named)
        }
    }
}

/// Adds the ordinals that a row names by a part that is no field.
fn push_items(row: &Row, part: WalkPart, named: &mut Vec<u32>) -> Result<(), AllocError>
    requires { IsNoField part }
    ensures { OnOk result (named.new.items ≡ named.old.items ++ named_in part row.now) }
{
    match (row, part) {
        (Row::List(ordinals), WalkPart::Element) => named.extend_from_slice(ordinals.as_slice()),
        (Row::Set(ordinals), WalkPart::Element) => named.extend_from_slice(ordinals.as_slice()),
        (Row::Map(pairs), WalkPart::MapKey) => push_keys(pairs.as_slice(), named),
        (Row::Map(pairs), WalkPart::MapValue) => push_values(pairs.as_slice(), named),
        _ => Ok(()),
    }
}

/// Adds the keys of a map.
fn push_keys(pairs: &[(u32, u32)], named: &mut Vec<u32>) -> Result<(), AllocError>
    ensures { OnOk result (named.new.items ≡ named.old.items ++ map (λ pair. pair.0) pairs.now) }
{
    for pair in pairs {
        named.push(pair.0)?;
    }
    Ok(())
}

/// Adds the values of a map.
fn push_values(pairs: &[(u32, u32)], named: &mut Vec<u32>) -> Result<(), AllocError>
    ensures { OnOk result (named.new.items ≡ named.old.items ++ map (λ pair. pair.1) pairs.now) }
{
    for pair in pairs {
        named.push(pair.1)?;
    }
    Ok(())
}
