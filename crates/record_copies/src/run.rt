//! A run of records copied from its places in some words to the same places in others.
ghost use Rattle.std.specs.Prelude.{◌≡◌, ◌≤◌, ◌+◌, ◌-◌, ◌*◌, ◌^◌, ◌<◌, OnOk, length, map};
ghost use Rattle.row_model.specs.Table.{RowMap};
ghost use Rattle.object_codec.specs.Bytes.{bytes_of};
ghost use Rattle.record_copies.specs.Column.{CanShift, IsMoved, Lies, start_in};
ghost use Rattle.record_copies.specs.Run.{AreStanding, HasRunRoom, IsRunPut};

use crate::bytes::add_bytes;
use crate::column::Column;
use crate::source::WordRecords;
use bit_array::{copy_bits, total_width};
use hol_varint::Octets;
use object_codec::{PackedBytes, has_bytes};
use schema_model::Schema;
use std::alloc::{AllocError, Global};

/// Places that follow one another.
#[derive(Clone, Copy)]
pub struct Run {
    /// The first place.
    pub place: u64,
    /// The place behind the last one.
    pub end: u64,
}

/// Copies the records of a run of places to the same places in other words of the same widths, and the bytes of their fields behind those of these.
///
/// The bits of all records are copied at once, then the bytes of each STRING and BYTES, and where these stand at other offsets than before the end
/// offsets are moved. The places before keep what they spell, and no bit behind the run is written. Memory is taken for the bytes alone; where it is
/// refused, the bytes of some fields may be there.
pub fn copy_run(
    alloc: Global,
    schema: &Schema,
    widths: &[u32],
    from: &WordRecords<'_>,
    run: Run,
    first: &mut [u64],
    areas: &mut [Octets],
) -> Result<(), AllocError>
    requires { (rows : RowMap) × AreStanding schema.now.shape widths.now from.now.first.now (map bytes_of from.now.areas.now) run.end rows × HasRunRoom schema.now.shape widths.now first.old areas.old run.place run.end rows }
    ensures { OnOk result ((rows : RowMap) → AreStanding schema.now.shape widths.now from.now.first.now (map bytes_of from.now.areas.now) run.end rows → HasRunRoom schema.now.shape widths.now first.old areas.old run.place run.end rows
        → IsRunPut schema.now.shape widths.now first.old areas.old first.new areas.new run.place run.end rows) }
{
    let fields = schema.shape.fields();
    let size = total_width(widths) as u64;
    let start = run.place * size;
    copy_bits(from.first, start, first, start, run.end * size - start);
    let mut before = 0;
    for (index, field) in fields.iter().enumerate() {
        let width = widths[index];
        if has_bytes(&field.kind) {
            let column = Column {
                size,
                before,
                width,
            };
            let bytes = from.areas[index];
            move_bytes(
                alloc,
                column,
                from.first,
                bytes,
                run,
                first,
                &mut areas[index],
            )?;
        }
        before += u64::from(width);
    }
    Ok(())
}

/// Adds the bytes of a field in a run to others, and moves the end offsets of the run's records to where they stand there.
fn move_bytes(
    alloc: Global,
    column: Column,
    from: &[u64],
    bytes: PackedBytes<'_>,
    run: Run,
    first: &mut [u64],
    area: &mut Octets,
) -> Result<(), AllocError>
    requires lies { Lies column first.old run }
    requires stands { Lies column from.now run }
    requires rises { run.place ≤ run.end }
    requires steps { start_in column from.now run.place ≤ start_in column from.now run.end }
    requires inside { start_in column from.now run.end ≤ length (bytes_of bytes) }
    requires can { CanShift column first.old run (start_in column from.now run.place) (length area.old) }
    ensures { OnOk result (IsMoved column from.now (bytes_of bytes.entry) run first.old first.new area.old area.new) }
{
    let start = column.start(from, run.place);
    let end = column.start(from, run.end);
    let more = area.len() as u64;
    add_bytes(alloc, bytes.between(start, end), area)?;
    if start != more {
        column.shift(first, run, start, more);
    }
    Ok(())
}
