//! A step of a consumer: the rows of its state are moved by the parts of a delta.
ghost use Rattle.std.specs.Prelude.{◌≡◌, ◌≢◌, ◌+◌, ◌≤◌, ◌⊎◌, All, Err, IfErr, IfOk, IfSome, IsSome, IsSomeAnd, OnErr, OnOk, map, sum_by};
ghost use Rattle.hol_io.specs.Causes.{Rose};
ghost use Rattle.hol_io.specs.Store.{told};
ghost use Rattle.row_model.specs.Table.{IsClosed, IsTableOf};
ghost use Rattle.type_state.specs.Views.{table_of};
ghost use Rattle.blob_faults.specs.Judge.{Blames};
ghost use Rattle.delta_blob.specs.Reads.{IsWholePart};
ghost use Rattle.state_moves.specs.Halves.{current_halves};
ghost use Rattle.state_moves.specs.Judged.{IsFreeMove, state_moved};
ghost use Rattle.state_moves.specs.Moving.{StaysCurrent};
ghost use Rattle.read_engine.specs.Indexes.{CountsStep};
ghost use Rattle.read_engine.specs.Kept.{IsKept, IsWalkKept, came_all, count_came, index_kept};
ghost use Rattle.read_engine.specs.Position.{IsPosition};
ghost use Rattle.read_engine.specs.Taken.{CountsTaken, ReadsSome, TakesParts, TakesWalks, TellsTaken};
ghost use Rattle.read_engine.specs.Taking.{CountsPart, FollowsFrom, IsStepFault, TellsStep};

use crate::Consumer;
use crate::indexes::KeyIndexes;
use crate::keeping::{ready_both, turn_all, turn_ready};
use crate::walks::WalkIndexes;
use blob_frame::BlobFault;
use delta_blob::{PatchPart, read_delta};
use hol_io::{BlobName, BlobStore, Steps};
use hol_paths::WalkIndex;
use key_index::KeyIndex;
use schema_model::Model;
use state_moves::{PastParts, flip_named, move_state};
use std::alloc::Global;
use std::mem;
use std::sync::ledger::Ledger;
use type_state::{TypeState, TypeStates};

/// Moves the state of a consumer, which has one, by the delta of a name. After a fault it is as before.
pub(crate) fn step<S: BlobStore, L: Ledger>(
    consumer: &mut Consumer,
    store: &mut S,
    name: &BlobName,
    steps: &mut Steps<L>,
) -> Result<(), BlobFault>
    requires standing { IsSome consumer.old }
    ensures tells { IfSome (S.seen store.old).held
        (λ held. IfSome consumer.old (λ from. TellsStep name.now (told (S.seen store.old).held name.now) from consumer.new result)) }
    ensures follows { OnOk result (IfSome consumer.old (λ from. IsSomeAnd consumer.new (FollowsFrom from))) }
    ensures position { IfSome consumer.old IsPosition }
    ensures state { IsSome consumer.new }
    ensures refused { OnErr result (consumer.new ≡ consumer.old) }
    ensures kind { IfErr result (λ fault. IfSome consumer.old (λ from. IsStepFault name.now from.tag fault)) }
    ensures cause { result ≡ Err BlobFault.Store → Rose (S.seen store.old).faults (S.seen store.new).faults }
    ensures kept { (S.seen store.new).held ≡ (S.seen store.old).held }
    ensures later { (S.seen store.old).faults ≤ (S.seen store.new).faults }
    ensures unput { (S.seen store.new).puts ≡ (S.seen store.old).puts }
    ensures counted { OnOk result (IfSome consumer.old (λ from. IsSomeAnd consumer.new (λ to. CountsStep from to steps.old steps.new))) }
    ensures uncounted { IfErr result (λ fault. fault ≢ BlobFault.Memory → steps.new ≡ steps.old) }
    ensures part { OnErr result (IfSome (S.seen store.old).held
        (λ held. IfSome consumer.old (λ from. (steps.new ≡ steps.old) ⊎ CountsPart (told (S.seen store.old).held name.now) from steps.old steps.new))) }
{
    let current = consumer.tag_or_zero();
    let patch = read_delta(consumer.alloc, store, name, current, consumer.types())?;
    let parts = patch.parts.as_slice();
    take(consumer, parts, patch.length, patch.destination, steps)
}

// Moves the state of a consumer, which has one, by the parts of a patch that stand in a blob of this length, to this tag. After a fault it is as
// before.
fn take<L: Ledger>(
    consumer: &mut Consumer,
    parts: &[PatchPart],
    size: u64,
    tag: i64,
    steps: &mut Steps<L>,
) -> Result<(), BlobFault>
    requires standing { IsSome consumer.old }
    requires whole { IfSome consumer.old (λ from. All (IsWholePart from.schemas) parts.now) }
    ensures tells { IfSome consumer.old (λ from. TellsTaken size tag parts.now from consumer.new result) }
    ensures state { IsSome consumer.new }
    ensures refused { OnErr result (consumer.new ≡ consumer.old) }
    ensures counted { OnOk result (IfSome consumer.old (λ from. IsSomeAnd consumer.new (λ to. CountsStep from to steps.old steps.new))) }
    ensures uncounted { IfErr result (λ fault. fault ≢ BlobFault.Memory → steps.new ≡ steps.old) }
    ensures part { OnErr result (IfSome consumer.old (λ from. (steps.new ≡ steps.old) ⊎ CountsTaken tag parts.now from steps.old steps.new)) }
{
    let alloc = consumer.alloc;
    let mut states = mem::replace(&mut consumer.states, TypeStates::new(alloc)).into_vec();
    let mut indexes = mem::replace(&mut consumer.indexes, KeyIndexes::new(alloc)).into_vec();
    let mut walks = mem::replace(&mut consumer.walks, WalkIndexes::new(alloc)).into_vec();
    let taken = take_parts(
        alloc,
        &consumer.model,
        states.as_mut_slice(),
        parts,
        size,
        indexes.as_mut_slice(),
        &mut walks,
        steps,
    );
    consumer.states = TypeStates::from_vec(states);
    consumer.indexes = KeyIndexes::from_vec(indexes);
    consumer.walks = WalkIndexes::from_vec(walks);
    let past = taken?;
    consumer.past = past;
    consumer.tag = Some(tag);
    Ok(())
}

// Moves the types into their next halves, tries whether the rows that come are closed, makes the indexes ready for them, and makes their halves
// the current ones: nothing is turned before all is tried. Those walk indexes are dropped that would have too many entries.
fn take_parts<L: Ledger>(
    alloc: Global,
    model: &Model,
    states: &mut [TypeState],
    parts: &[PatchPart],
    size: u64,
    indexes: &mut [KeyIndex],
    walks: &mut Vec<WalkIndex>,
    steps: &mut Steps<L>,
) -> Result<PastParts, BlobFault>
    requires named { map (λ state. state.schema) states.old ≡ model.now }
    requires fits { IsTableOf model.now (table_of (current_halves states.old)) }
    requires closed { IsClosed model.now (table_of (current_halves states.old)) }
    requires whole { All (IsWholePart model.now) parts.now }
    requires kept { All (IsKept model.now (table_of (current_halves states.old))) indexes.old }
    requires walks { All (IsWalkKept model.now (table_of (current_halves states.old))) walks.old.items }
    ensures takes { IfOk result (TakesParts model.now parts.now states.old states.new) }
    ensures follow { OnOk result (All (IsKept model.now (table_of (current_halves states.new))) indexes.new) }
    ensures same { map index_kept indexes.new ≡ map index_kept indexes.old }
    ensures walks { OnOk result (TakesWalks model.now (table_of (current_halves states.new)) walks.old.items walks.new.items) }
    ensures least { IfOk result (λ past. steps.old + came_all past indexes.old walks.new.items ≤ steps.new) }
    ensures most { IfOk result (λ past. steps.new ≤ steps.old + came_all past indexes.old walks.old.items) }
    ensures stays { OnErr result (StaysCurrent states.old states.new) }
    ensures unmoved { OnErr result (indexes.new ≡ indexes.old) }
    ensures unwalked { OnErr result (walks.new.items ≡ walks.old.items) }
    ensures blamed { IfErr result (Blames (state_moved model.now parts.now size (table_of (current_halves states.old))) IsFreeMove) }
    ensures uncounted { IfErr result (λ fault. fault ≢ BlobFault.Memory → steps.new ≡ steps.old) }
    ensures part { OnErr result ((steps.new ≡ steps.old) ⊎ ReadsSome model.now parts.now states.old indexes.old walks.old.items steps.old steps.new) }
{
    key_index::laws::kept_key();
    hol_paths::laws::step_followed();
    let moved = move_state(alloc, model, states, parts, size)?;
    let named = moved.named.as_slice();
    let past = moved.past.as_slice();
    let kept = walks.as_mut_slice();
    ready_both(indexes, kept, model, states, named, past, steps)?;
    flip_named(states, named);
    turn_all(indexes);
    turn_ready(walks);
    Ok(moved.past)
}
