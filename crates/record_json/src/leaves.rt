//! A value of a record where it stands, put behind what stands already, and the row that a REFERENCE names.
ghost use Rattle.std.specs.Prelude.{◌≡◌, IfOk, IsSome, Some};
ghost use Rattle.row_model.specs.declared.row.Value.{Value as ValueOf};
ghost use Rattle.row_model.specs.Key.{ordinal_in, value_in};
ghost use Rattle.row_model.specs.Table.{IsLive, row_at};
ghost use Rattle.json_rows.specs.StoredRow.{IsValueData};
ghost use Rattle.serde_json.specs.Data.{null};
ghost use Rattle.object_codec.specs.Columns.{Shows};
ghost use Rattle.record_json.specs.Printing.{TellsPrinted, TellsPut};

use crate::PrintFault;
use column_rows::{ColumnRows, field_value};
use json_rows::put_field_of;
use object_codec::ValueRef;
use row_model::Value;
use std::alloc::{AllocError, Global};

/// Takes one node off.
pub(crate) fn take_node(budget: &mut u64) -> Result<(), PrintFault>
    ensures { TellsPrinted (λ (x : Unit {0}). x) (λ x. Unit {0}) 1 budget.old budget.new result }
{
    if *budget == 0 {
        return Err(PrintFault::Nodes);
    }
    *budget -= 1;
    Ok(())
}

/// Puts a null, which is a node.
pub(crate) fn put_null(budget: &mut u64, out: &mut Vec<u8>) -> Result<(), PrintFault>
    ensures { TellsPut (λ printed. printed ≡ null) 1 out.old.items out.new.items budget.old budget.new result }
{
    take_node(budget)?;
    out.extend_from_slice(b"null")?;
    Ok(())
}

/// Puts the value of a field of the record under a live ordinal, which is a node, as `json_rows` prints it.
pub(crate) fn put_leaf<R: ColumnRows>(
    alloc: Global,
    rows: &R,
    type_index: u32,
    field: u32,
    ordinal: u32,
    budget: &mut u64,
    out: &mut Vec<u8>,
) -> Result<(), PrintFault>
    requires live { IsLive (R.table rows.now) type_index ordinal }
    requires there { IsSome (value_in (row_at (R.table rows.now) type_index ordinal) field) }
    ensures { (value : ValueOf) → value_in (row_at (R.table rows.now) type_index ordinal) field ≡ Some value
        → TellsPut (IsValueData value) 1 out.old.items out.new.items budget.old budget.new result }
{
    take_node(budget)?;
    put_field_of(alloc, rows, type_index, field, ordinal, out)?;
    Ok(())
}

/// The ordinal that a field of the record under a live ordinal names; none where it names no row.
pub(crate) fn reference_of<R: ColumnRows>(
    alloc: Global,
    rows: &R,
    type_index: u32,
    field: u32,
    ordinal: u32,
) -> Result<Option<u32>, AllocError>
    requires { IsLive (R.table rows.now) type_index ordinal }
    ensures { IfOk result (λ named. named ≡ ordinal_in (value_in (row_at (R.table rows.now) type_index ordinal) field)) }
{
    match rows.column(type_index, field) {
        Some(column) => Ok(ordinal_of(column.value(u64::from(ordinal)))),
        None => match field_value(alloc, rows, type_index, ordinal, field)? {
            Some(Value::Ref(named)) => Ok(Some(named)),
            _ => Ok(None),
        },
    }
}

// The ordinal that a value names.
#[inline(always)]
fn ordinal_of(shown: ValueRef<'_>) -> Option<u32>
    ensures { (value : ValueOf) → Shows shown.entry value → result ≡ ordinal_in (Some value) }
{
    match shown {
        ValueRef::Ref(named) => Some(named),
        _ => None,
    }
}
