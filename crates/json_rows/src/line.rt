//! The line of a stored row, put behind what stands already, with no tree of values.
ghost use Rattle.std.specs.Prelude.{ℕ, List, ◌≡◌, ◌++◌, ◌∷◌, [], decimal, length, take, Some, OnOk, OnErr};
ghost use Rattle.serde_json.specs.Written.{comma_if};
ghost use Rattle.row_model.specs.declared.row.Row.{Row as RowOf};
ghost use Rattle.row_model.specs.declared.row.Value.{Value as ValueOf};
ghost use Rattle.row_model.specs.Table.{IsLive, IsTableOf, row_at};
ghost use Rattle.list_codec.specs.Elements.{elements_of};
ghost use Rattle.column_rows.specs.Items.{AreListsOf};
ghost use Rattle.json_rows.specs.FieldOrder.{AreBelow};
ghost use Rattle.json_rows.specs.RowLine.{IsLineOf, PutsAll, PutsItems, PutsPairs, PutsRecord, PutsRow, values_of};
ghost use Rattle.json_rows.specs.Standing.{AreColumnsOf, AreLinesIn, IsSoOfRow};
ghost use Rattle.json_rows.specs.StoredRow.{IsRowData};

use crate::field::put_field;
use crate::standing::{Standing, TypeLines};
use crate::value::{put_unsigned, put_value};
use column_rows::{ColumnRows, PackedItems};
use list_codec::Elements;
use object_codec::Column;
use row_model::{Row, Value};
use std::alloc::{AllocError, Global};

/// Puts the line of the row under a live ordinal behind what stands in `out`: the JSON object of its ordinal, of the row as `row_value` prints it, and
/// of the name of its type, without spaces, and a newline. Of records and lists that stand packed none is made. It fails only where memory is refused, and then
/// `out` stays as it was.
pub fn put_row_line<R: ColumnRows>(
    alloc: Global,
    rows: &R,
    lines: &TypeLines<'_>,
    type_index: u32,
    ordinal: u32,
    out: &mut Vec<u8>,
) -> Result<(), AllocError>
    requires lines { AreLinesIn (R.schemas rows.now) (R.table rows.now) type_index lines.now }
    requires fits { IsTableOf (R.schemas rows.now) (R.table rows.now) }
    requires live { IsLive (R.table rows.now) type_index ordinal }
    ensures put { OnOk result (IsSoOfRow (R.table rows.now) type_index ordinal
        (λ row. (line : List ℕ) × IsLineOf lines.now.form.schema.now ordinal row line × (out.new.items ≡ out.old.items ++ line))) }
    ensures err { OnErr result (out.new.items ≡ out.old.items) }
{
    let before = out.len();
    let put = put_parts(alloc, rows, lines, type_index, ordinal, out);
    if put.is_err() {
        out.truncate(before);
    }
    put
}

// The parts of a line, of which some stand where memory is refused.
fn put_parts<R: ColumnRows>(
    alloc: Global,
    rows: &R,
    lines: &TypeLines<'_>,
    type_index: u32,
    ordinal: u32,
    out: &mut Vec<u8>,
) -> Result<(), AllocError>
    requires lines { AreLinesIn (R.schemas rows.now) (R.table rows.now) type_index lines.now }
    requires fits { IsTableOf (R.schemas rows.now) (R.table rows.now) }
    requires live { IsLive (R.table rows.now) type_index ordinal }
    ensures put { OnOk result (IsSoOfRow (R.table rows.now) type_index ordinal
        (λ row. (line : List ℕ) × IsLineOf lines.now.form.schema.now ordinal row line × (out.new.items ≡ out.old.items ++ line))) }
    ensures front { take (length out.old.items) out.new.items ≡ out.old.items }
{
    out.extend_from_slice(b"{\"ordinal\":")?;
    put_unsigned(u64::from(ordinal), out)?;
    out.extend_from_slice(b",\"row\":")?;
    put_standing(alloc, rows, lines, type_index, ordinal, out)?;
    out.extend_from_slice(lines.form.end.as_bytes())
}

// The row under an ordinal, from where it stands.
fn put_standing<R: ColumnRows>(
    alloc: Global,
    rows: &R,
    lines: &TypeLines<'_>,
    type_index: u32,
    ordinal: u32,
    out: &mut Vec<u8>,
) -> Result<(), AllocError>
    requires lines { AreLinesIn (R.schemas rows.now) (R.table rows.now) type_index lines.now }
    requires fits { IsTableOf (R.schemas rows.now) (R.table rows.now) }
    requires live { IsLive (R.table rows.now) type_index ordinal }
    ensures put { OnOk result (IsSoOfRow (R.table rows.now) type_index ordinal
        (λ row. PutsAll (IsRowData lines.now.form.schema.now.shape row) out.old.items out.new.items)) }
    ensures front { take (length out.old.items) out.new.items ≡ out.old.items }
{
    let leads = lines.form.leads.as_slice();
    match &lines.standing {
        Standing::Columns(columns) => {
            let columns = columns.as_slice();
            put_columns(alloc, rows, leads, columns, type_index, ordinal, out)
        }
        Standing::Lists(lists) => put_list(alloc, rows, leads, lists, type_index, ordinal, out),
        Standing::Lent => put_lent(alloc, rows, leads, type_index, ordinal, out),
    }
}

// The object of a record, whose values stand in these columns.
fn put_columns<R: ColumnRows>(
    alloc: Global,
    rows: &R,
    leads: &[(String, usize)],
    columns: &[Column<'_>],
    type_index: u32,
    ordinal: u32,
    out: &mut Vec<u8>,
) -> Result<(), AllocError>
    requires below { AreBelow (length columns.now) leads.now }
    requires columns { AreColumnsOf (R.table rows.now) type_index (length columns.now) columns.now }
    requires live { IsLive (R.table rows.now) type_index ordinal }
    ensures put { OnOk result ((values : List ValueOf) → row_at (R.table rows.now) type_index ordinal ≡ Some (RowOf.Object values) → length values ≡ length columns.now
        → PutsRecord leads.now values out.old.items out.new.items) }
    ensures front { take (length out.old.items) out.new.items ≡ out.old.items }
{
    out.push(b'{')?;
    for lead in leads {
        out.extend_from_slice(lead.0.as_bytes())?;
        let column = &columns[lead.1];
        put_field(alloc, rows, column, type_index, lead.1, ordinal, out)?;
    }
    out.push(b'}')?;
    Ok(())
}

// The array of the list under an ordinal.
fn put_list<R: ColumnRows>(
    alloc: Global,
    rows: &R,
    leads: &[(String, usize)],
    lists: &PackedItems<'_>,
    type_index: u32,
    ordinal: u32,
    out: &mut Vec<u8>,
) -> Result<(), AllocError>
    requires lists { AreListsOf (R.table rows.now) type_index lists.now }
    requires live { IsLive (R.table rows.now) type_index ordinal }
    requires below { IsSoOfRow (R.table rows.now) type_index ordinal (λ row. AreBelow (length (values_of row)) leads.now) }
    ensures put { OnOk result (IsSoOfRow (R.table rows.now) type_index ordinal (λ row. PutsRow leads.now row out.old.items out.new.items)) }
    ensures front { take (length out.old.items) out.new.items ≡ out.old.items }
{
    match lists.elements(ordinal) {
        Some(elements) => put_elements(elements, out),
        None => put_lent(alloc, rows, leads, type_index, ordinal, out),
    }
}

// The array of the elements of a list.
fn put_elements(elements: Elements<'_>, out: &mut Vec<u8>) -> Result<(), AllocError>
    ensures put { OnOk result (PutsItems (elements_of elements.entry) out.old.items out.new.items) }
    ensures front { take (length out.old.items) out.new.items ≡ out.old.items }
{
    out.push(b'[')?;
    for index in 0..elements.len {
        put_comma(index > 0, out)?;
        put_unsigned(elements.element(index), out)?;
    }
    out.push(b']')?;
    Ok(())
}

// The row under an ordinal, which is lent.
fn put_lent<R: ColumnRows>(
    alloc: Global,
    rows: &R,
    leads: &[(String, usize)],
    type_index: u32,
    ordinal: u32,
    out: &mut Vec<u8>,
) -> Result<(), AllocError>
    requires live { IsLive (R.table rows.now) type_index ordinal }
    requires below { IsSoOfRow (R.table rows.now) type_index ordinal (λ row. AreBelow (length (values_of row)) leads.now) }
    ensures put { OnOk result (IsSoOfRow (R.table rows.now) type_index ordinal (λ row. PutsRow leads.now row out.old.items out.new.items)) }
    ensures front { take (length out.old.items) out.new.items ≡ out.old.items }
{
    let lent = rows.lend(alloc, type_index, ordinal)?;
    put_row(alloc, leads, lent.row(), out)
}

// A row: a record as an object, with the text before each value.
fn put_row(
    alloc: Global,
    leads: &[(String, usize)],
    row: &Row,
    out: &mut Vec<u8>,
) -> Result<(), AllocError>
    requires { AreBelow (length (values_of row.now)) leads.now }
    ensures put { OnOk result (PutsRow leads.now row.now out.old.items out.new.items) }
    ensures front { take (length out.old.items) out.new.items ≡ out.old.items }
{
    match row {
        Row::Object(values) => put_record(alloc, leads, values.as_slice(), out),
        Row::List(ordinals) => put_ordinals(ordinals.as_slice(), out),
        Row::Set(ordinals) => put_ordinals(ordinals.as_slice(), out),
        Row::Map(pairs) => put_pairs(pairs.as_slice(), out),
    }
}

// The object of a record.
fn put_record(
    alloc: Global,
    leads: &[(String, usize)],
    values: &[Value],
    out: &mut Vec<u8>,
) -> Result<(), AllocError>
    requires { AreBelow (length values.now) leads.now }
    ensures put { OnOk result (PutsRecord leads.now values.now out.old.items out.new.items) }
    ensures front { take (length out.old.items) out.new.items ≡ out.old.items }
{
    out.push(b'{')?;
    for lead in leads {
        out.extend_from_slice(lead.0.as_bytes())?;
        put_value(alloc, &values[lead.1], out)?;
    }
    out.push(b'}')?;
    Ok(())
}

/// Puts the array of these ordinals behind what stands in `out`, without spaces. It fails only where memory is refused, and then a front of the array may stand
/// there.
pub fn put_ordinals(ordinals: &[u32], out: &mut Vec<u8>) -> Result<(), AllocError>
    ensures put { OnOk result (PutsItems ordinals.now out.old.items out.new.items) }
    ensures front { take (length out.old.items) out.new.items ≡ out.old.items }
{
    out.push(b'[')?;
    for (index, ordinal) in ordinals.iter().enumerate() {
        put_comma(index > 0, out)?;
        put_unsigned(u64::from(*ordinal), out)?;
    }
    out.push(b']')?;
    Ok(())
}

// The array of the pairs of a map.
fn put_pairs(pairs: &[(u32, u32)], out: &mut Vec<u8>) -> Result<(), AllocError>
    ensures put { OnOk result (PutsPairs pairs.now out.old.items out.new.items) }
    ensures front { take (length out.old.items) out.new.items ≡ out.old.items }
{
    out.push(b'[')?;
    for (index, pair) in pairs.iter().enumerate() {
        put_comma(index > 0, out)?;
        put_pair(*pair, out)?;
    }
    out.push(b']')?;
    Ok(())
}

// A comma, where something stands before.
#[inline(always)]
fn put_comma(later: bool, out: &mut Vec<u8>) -> Result<(), AllocError>
    ensures put { OnOk result (out.new.items ≡ out.old.items ++ comma_if later) }
    ensures err { OnErr result (out.new.items ≡ out.old.items) }
{
    if later {
        out.push(b',')?;
    }
    Ok(())
}

// A pair of a map.
fn put_pair(pair: (u32, u32), out: &mut Vec<u8>) -> Result<(), AllocError>
    ensures put { OnOk result (out.new.items ≡ out.old.items ++ 91 ∷ (decimal pair.0 ++ 44 ∷ (decimal pair.1 ++ 93 ∷ []))) }
    ensures front { take (length out.old.items) out.new.items ≡ out.old.items }
{
    out.push(b'[')?;
    put_unsigned(u64::from(pair.0), out)?;
    out.push(b',')?;
    put_unsigned(u64::from(pair.1), out)?;
    out.push(b']')?;
    Ok(())
}
