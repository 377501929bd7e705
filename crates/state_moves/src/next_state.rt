//! Moving a state by the parts of a patch: its types into their next halves, as rows that are closed.
ghost use Rattle.std.specs.Prelude.{◌≡◌, All, IfErr, IfOk, map};
ghost use Rattle.row_model.specs.Table.{IsClosed, IsTableOf};
ghost use Rattle.type_state.specs.Views.{table_of};
ghost use Rattle.delta_blob.specs.Reads.{IsWholePart};
ghost use Rattle.blob_faults.specs.Judge.{Blames};
ghost use Rattle.state_moves.specs.Halves.{current_halves};
ghost use Rattle.state_moves.specs.Judged.{IsFreeMove, state_moved};
ghost use Rattle.state_moves.specs.Moving.{MovesParts, StaysCurrent, coming_halves};

use crate::closing::check_closed;
use crate::coming::coming_of;
use crate::moved::Moved;
use crate::moving::move_types;
use blob_frame::BlobFault;
use delta_blob::PatchPart;
use schema_model::Model;
use std::alloc::Global;
use type_rows::laws;
use type_state::TypeState;

/// Moves the types of a model by the parts of a patch, each into its next half, and answers which types they name and what is to be kept of each.
/// The current halves stay as they are; what comes is made current by `flip_named`.
///
/// The first part that moves the rows of its type to no rows is at fault; where there is none, the first row that comes and names an ordinal that
/// is not live, at the offset of the part that names its type, or at the length of the blob, `size`, where no part does.
pub fn move_state(
    alloc: Global,
    model: &Model,
    states: &mut [TypeState],
    parts: &[PatchPart],
    size: u64,
) -> Result<Moved, BlobFault>
    requires named { map (λ state. state.schema) states.old ≡ model.now }
    requires fits { IsTableOf model.now (table_of (current_halves states.old)) }
    requires closed { IsClosed model.now (table_of (current_halves states.old)) }
    requires whole { All (IsWholePart model.now) parts.now }
    ensures moves { IfOk result (λ moved. MovesParts model.now parts.now states.old states.new moved.named moved.past) }
    ensures passes { IfOk result (λ moved. (state_moved model.now parts.now size (table_of (current_halves states.old))).Passes (table_of (coming_halves states.new moved.named))) }
    ensures blamed { IfErr result (Blames (state_moved model.now parts.now size (table_of (current_halves states.old))) IsFreeMove) }
    ensures stays { StaysCurrent states.old states.new }
{
    laws::moved_rows_fit();
    let moved = move_types(alloc, model.len(), states, parts)?;
    check_closed(
        alloc,
        &coming_of(model, states, moved.named.as_slice()),
        moved.past.as_slice(),
        parts,
        size,
    )?;
    Ok(moved)
}
