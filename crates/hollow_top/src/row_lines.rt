//! The lines of the rows of a table.
ghost use Rattle.std.specs.Prelude.{◌≡◌, ◌<◌, ◌≤◌, [], ◌∷◌, Some, length, slice_get, IfSome, IsErrOf};
ghost use Rattle.std.specs.List.{zip};
ghost use Rattle.hol_io.specs.Causes.{Rose};
ghost use Rattle.row_model.specs.Table.{IsTableOf, IsLive, row_at};
ghost use Rattle.json_rows.specs.Standing.{AreLinesIn};
ghost use Rattle.hollow_top.specs.HeldLines.{HoldsLines, LeavesText};
ghost use Rattle.hollow_top.specs.RowLines.{LeavesLines, rows_of_type, rows_in_order};

use crate::stop::Stop;
use column_rows::ColumnRows;
use hol_io::{Sink, write_all};
use json_rows::{TypeLines, put_row_line, type_lines};
use std::alloc::Global;

/// Lines wait until they are so many bytes.
const BATCH: usize = 0x8000;

/// Writes a line for each row of a table: types in model order, and the ordinals of each type rising. Lines are written
/// many at a time, and the last ones before it ends.
pub fn show_rows<R: ColumnRows, O: Sink>(alloc: Global, rows: &R, out: &mut O) -> Result<(), Stop>
    ensures lines { LeavesLines (rows_in_order (R.schemas rows.now) (R.table rows.now))
        (O.taken out.old) (O.taken out.new) result }
    ensures sink_fault { IsErrOf result Stop.Sink → Rose (O.faults out.old) (O.faults out.new) }
    ensures later { O.faults out.old ≤ O.faults out.new }
{
    let mut lines = Vec::new(alloc);
    for type_index in 0..rows.model().len() {
        show_type(alloc, rows, type_index, &mut lines, out)?;
    }
    write_all(out, lines.as_slice())?;
    Ok(())
}

// Puts a line for each row of a type.
fn show_type<R: ColumnRows, O: Sink>(
    alloc: Global,
    rows: &R,
    type_index: u32,
    pending: &mut Vec<u8>,
    out: &mut O,
) -> Result<(), Stop>
    requires known { type_index < length (R.schemas rows.now) }
    requires fits { IsTableOf (R.schemas rows.now) (R.table rows.now) }
    ensures lines { IfSome (slice_get (zip (R.schemas rows.now) (R.table rows.now)) type_index)
        (λ typed. HoldsLines (rows_of_type typed)
        (O.taken out.old, pending.old.items) (O.taken out.new, pending.new.items) result) }
    ensures sink_fault { IsErrOf result Stop.Sink → Rose (O.faults out.old) (O.faults out.new) }
    ensures later { O.faults out.old ≤ O.faults out.new }
{
    let of_type = type_lines(alloc, rows, type_index)?;
    for ordinal in 0..rows.bound(type_index) {
        if rows.is_live(type_index, ordinal) {
            put_line(alloc, rows, type_index, ordinal, &of_type, pending, out)?;
        }
    }
    Ok(())
}

// Puts the line of a row behind those that wait.
fn put_line<R: ColumnRows, O: Sink>(
    alloc: Global,
    rows: &R,
    type_index: u32,
    ordinal: u32,
    of_type: &TypeLines<'_>,
    pending: &mut Vec<u8>,
    out: &mut O,
) -> Result<(), Stop>
    requires fits { IsTableOf (R.schemas rows.now) (R.table rows.now) }
    requires live { IsLive (R.table rows.now) type_index ordinal }
    requires lines { AreLinesIn (R.schemas rows.now) (R.table rows.now) type_index of_type.now }
    ensures lines { IfSome (slice_get (R.schemas rows.now) type_index) (λ schema. IfSome (row_at (R.table rows.now) type_index ordinal)
        (λ row. HoldsLines ((schema, (ordinal, row)) ∷ []) (O.taken out.old, pending.old.items) (O.taken out.new, pending.new.items) result)) }
    ensures sink_fault { IsErrOf result Stop.Sink → Rose (O.faults out.old) (O.faults out.new) }
    ensures later { O.faults out.old ≤ O.faults out.new }
{
    put_row_line(alloc, rows, of_type, type_index, ordinal, pending)?;
    write_many(pending, out)
}

// Writes the lines that wait, once they are many.
fn write_many<O: Sink>(pending: &mut Vec<u8>, out: &mut O) -> Result<(), Stop>
    ensures lines { LeavesText [] (O.taken out.old, pending.old.items) (O.taken out.new, pending.new.items) result }
    ensures sink_fault { IsErrOf result Stop.Sink → Rose (O.faults out.old) (O.faults out.new) }
    ensures later { O.faults out.old ≤ O.faults out.new }
{
    if pending.len() < BATCH {
        return Ok(());
    }
    write_all(out, pending.as_slice())?;
    pending.clear();
    Ok(())
}
