//! The entries by which the next state differs from the state of now.
ghost use Rattle.std.specs.Prelude.{ℕ, ◌≡◌, ◌+◌, ◌-◌, ◌≤◌, ◌<◌, ◌++◌, ◌∷◌, [], All, Err, IfOk, IfSome, IsPermutation, OnOk, get_or, length, map};
ghost use Rattle.row_model.specs.Row.{Rises};
ghost use Rattle.row_model.specs.Table.{IsClosed, IsLive};
ghost use Rattle.hol_paths.specs.declared.fault.WalkFault.{WalkFault as Fault};
ghost use Rattle.hol_paths.specs.Distinct.{Stay};
ghost use Rattle.hol_varint.specs.Yields.{Yields};
ghost use Rattle.row_model.specs.Reach.{AreEntries};
ghost use Rattle.schema_model.specs.Limit.{number_of_limit};
ghost use Rattle.schema_model.specs.declared.limit.Limit.{Limit};
ghost use Rattle.hol_paths.specs.Met.{AreMet, IsFirstColumn, IsRowPushed, NamesOnly, ReachesMany, run_of};
ghost use Rattle.hol_paths.specs.Slots.{AreKnown, AreLeaving, CountsOnce, IsReserved, ReachMany, entries_of, next_of, no_slot, owner_in, owner_of, without_slots};
ghost use Rattle.hol_paths.specs.Walked.{AreAdded, CountsOwners, FollowsWalk, HasManyEntries, IsFree};

use crate::entries::{Entries, Slot};
use crate::fault::WalkFault;
use crate::levels::{rising, type_behind};
use crate::met::{Run, first_column, keep_run, none_met, only_named, run_through};
use crate::read::reached_by;
use column_rows::ColumnRows;
use hol_io::Steps;
use hol_varint::Ordinals;
use object_codec::Column;
use row_model::{Rows, Values};
use schema_model::{MAX_ENTRIES, WalkPart, WalkPath};
use std::alloc::{AllocError, Global};
use std::sync::ledger::Ledger;

/// The places of the entries that leave, rising, and the entries that come.
#[derive(Drop)]
pub(crate) struct Reserved {
    pub(crate) leaving: Ordinals,
    pub(crate) coming: Vec<Slot>,
    /// How many rows have an entry then.
    pub(crate) keyed: u64,
}

/// The places of the entries of rows, rising. No value is looked at.
pub(crate) fn places_of(
    alloc: Global,
    entries: &Entries,
    removed: &[u32],
) -> Result<Ordinals, AllocError>
    ensures { IfOk result (AreLeaving entries.now.slots removed.now) }
{
    let mut places = Vec::new(alloc);
    for ordinal in removed {
        entries.gather_owned(*ordinal, &mut places)?;
    }
    Ok(rising(places))
}

/// Adds the entries of a row that reaches these values. The entries that are kept stay as they are.
fn push_entries(
    entries: &mut Entries,
    owner: u32,
    values: Values,
    coming: &mut Vec<Slot>,
) -> Result<(), AllocError>
    requires { AreKnown entries.old.values coming.old.items }
    ensures slots { entries.new.slots ≡ entries.old.slots }
    ensures room { entries.new.room ≡ entries.old.room }
    ensures stays { Stay entries.old.values entries.new.values }
    ensures entries { entries_of entries.new.values entries.old.slots ≡ entries_of entries.old.values entries.old.slots }
    ensures known { OnOk result (AreKnown entries.new.values coming.new.items) }
    ensures coming { OnOk result (entries_of entries.new.values coming.new.items ≡ entries_of entries.old.values coming.old.items ++ map (λ value. (owner, value)) values) }
{
    for value in values.into_vec() {
        let number = entries.number(value)?;
        coming.push(Slot { owner, number })?;
    }
    Ok(())
}

/// Adds the entries of a run, of another row, if there are then not more than so many.
fn push_met(owner: u32, run: Run, most: usize, coming: &mut Vec<Slot>) -> Result<(), WalkFault>
    requires few { length coming.old.items ≤ most }
    requires inside { run.start + run.count ≤ length coming.old.items }
    ensures coming { OnOk result (coming.new.items ≡ coming.old.items ++ run_of owner run coming.old.items) }
    ensures few { OnOk result (length coming.new.items ≤ most) }
    ensures many { result ≡ Err Fault.Entries → most < length coming.old.items + run.count }
{
    let count = run.count as usize;
    if count > most - coming.len() {
        return Err(WalkFault::Entries);
    }
    push_run(owner, run, coming)?;
    Ok(())
}

/// Adds the entries of a run, of another row.
fn push_run(owner: u32, run: Run, coming: &mut Vec<Slot>) -> Result<(), AllocError>
    requires { run.start + run.count ≤ length coming.old.items }
    ensures { OnOk result (coming.new.items ≡ coming.old.items ++ run_of owner run coming.old.items) }
{
    let start = run.start as usize;
    for place in 0..run.count as usize {
        let number = number_in(coming.as_slice(), start + place);
        push_slot(coming, Slot { owner, number })?;
    }
    Ok(())
}

/// The number of the slot at a place.
fn number_in(slots: &[Slot], place: usize) -> u32
    requires { place < length slots.now }
    ensures { result ≡ (get_or slots.now place no_slot).number }
{
    slots[place].number
}

/// Adds a slot at the end.
fn push_slot(coming: &mut Vec<Slot>, slot: Slot) -> Result<(), AllocError>
    ensures { OnOk result (coming.new.items ≡ coming.old.items ++ slot ∷ []) }
{
    coming.push(slot)?;
    Ok(())
}

/// Adds the entries of a row that is read, if there are then not more than so many, and keeps where they stand.
fn push_read<R: ColumnRows>(
    alloc: Global,
    rows: &R,
    path: &WalkPath,
    owner: u32,
    named: Option<u32>,
    most: usize,
    entries: &mut Entries,
    met: &mut Vec<Option<Run>>,
    coming: &mut Vec<Slot>,
) -> Result<(), WalkFault>
    requires closed { IsClosed (R.schemas rows.now) (R.table rows.now) }
    requires live { IsLive (R.table rows.now) path.now.type_index owner }
    requires named { IfSome named (NamesOnly (R.table rows.now) path.now.type_index path.now.parts owner) }
    requires known { AreKnown entries.old.values coming.old.items }
    requires few { length coming.old.items ≤ most }
    requires small { most ≤ number_of_limit Limit.Entries }
    requires met { AreMet (R.schemas rows.now) (R.table rows.now) path.now.type_index path.now.parts (entries_of entries.old.values coming.old.items) met.old.items }
    ensures slots { entries.new.slots ≡ entries.old.slots }
    ensures room { entries.new.room ≡ entries.old.room }
    ensures entries { entries_of entries.new.values entries.old.slots ≡ entries_of entries.old.values entries.old.slots }
    ensures known { OnOk result (AreKnown entries.new.values coming.new.items) }
    ensures pushed { OnOk result (IsRowPushed (R.schemas rows.now) (R.table rows.now) path.now.type_index path.now.parts owner (entries_of entries.old.values coming.old.items) (entries_of entries.new.values coming.new.items)) }
    ensures few { OnOk result (length coming.new.items ≤ most) }
    ensures met { OnOk result (AreMet (R.schemas rows.now) (R.table rows.now) path.now.type_index path.now.parts (entries_of entries.new.values coming.new.items) met.new.items) }
    ensures many { result ≡ Err Fault.Entries → ReachesMany (R.schemas rows.now) (R.table rows.now) path.now.type_index path.now.parts owner (length coming.old.items) most }
{
    let values = reached_by(alloc, rows, path, owner)?;
    let before = coming.len();
    let count = values.len();
    if count > most - before {
        return Err(WalkFault::Entries);
    }
    push_entries(entries, owner, values, coming)?;
    let start = before as u32;
    let count = count as u32;
    keep_run(met, named, Run { start, count });
    Ok(())
}

/// Adds the entries of a row, if there are then not more than so many. A row that names an ordinal that was met is not read.
fn push_row<R: ColumnRows>(
    alloc: Global,
    rows: &R,
    column: &Option<Column<'_>>,
    path: &WalkPath,
    owner: u32,
    most: usize,
    entries: &mut Entries,
    met: &mut Vec<Option<Run>>,
    coming: &mut Vec<Slot>,
) -> Result<(), WalkFault>
    requires closed { IsClosed (R.schemas rows.now) (R.table rows.now) }
    requires live { IsLive (R.table rows.now) path.now.type_index owner }
    requires column { IfSome column.now (IsFirstColumn (R.table rows.now) path.now.type_index path.now.parts) }
    requires known { AreKnown entries.old.values coming.old.items }
    requires few { length coming.old.items ≤ most }
    requires small { most ≤ number_of_limit Limit.Entries }
    requires met { AreMet (R.schemas rows.now) (R.table rows.now) path.now.type_index path.now.parts (entries_of entries.old.values coming.old.items) met.old.items }
    ensures slots { entries.new.slots ≡ entries.old.slots }
    ensures room { entries.new.room ≡ entries.old.room }
    ensures entries { entries_of entries.new.values entries.old.slots ≡ entries_of entries.old.values entries.old.slots }
    ensures known { OnOk result (AreKnown entries.new.values coming.new.items) }
    ensures pushed { OnOk result (IsRowPushed (R.schemas rows.now) (R.table rows.now) path.now.type_index path.now.parts owner (entries_of entries.old.values coming.old.items) (entries_of entries.new.values coming.new.items)) }
    ensures few { OnOk result (length coming.new.items ≤ most) }
    ensures met { OnOk result (AreMet (R.schemas rows.now) (R.table rows.now) path.now.type_index path.now.parts (entries_of entries.new.values coming.new.items) met.new.items) }
    ensures many { result ≡ Err Fault.Entries → ReachesMany (R.schemas rows.now) (R.table rows.now) path.now.type_index path.now.parts owner (length coming.old.items) most }
{
    let parts = path.parts.as_slice();
    let type_index = path.type_index;
    let named = only_named(
        alloc,
        rows,
        column,
        type_index,
        parts,
        owner,
        met.as_slice(),
    )?;
    match run_through(met.as_slice(), named) {
        Some(kept) => push_met(owner, kept, most, coming),
        None => push_read(alloc, rows, path, owner, named, most, entries, met, coming),
    }
}

/// For how many ordinals runs are kept, where so many rows are read: for all that the first part of a path may name, unless they are many more than the rows.
fn met_room<R: ColumnRows>(rows: &R, path: &WalkPath, count: usize) -> usize {
    let Some(WalkPart::Field(field)) = path.parts.as_slice().first() else {
        return 0;
    };
    let Some(named) = type_behind(rows.model(), path.type_index, WalkPart::Field(*field)) else {
        return 0;
    };
    let bound = rows.bound(named) as usize;
    if bound / 4 <= count { bound } else { 0 }
}

/// The entries of rows that come, if they are not more than so many. It counts a step for each row. The entries that are kept stay as they are.
pub(crate) fn read_added<R: ColumnRows, L: Ledger>(
    alloc: Global,
    rows: &R,
    path: &WalkPath,
    added: &[u32],
    most: usize,
    entries: &mut Entries,
    steps: &mut Steps<L>,
) -> Result<Vec<Slot>, WalkFault>
    requires closed { IsClosed (R.schemas rows.now) (R.table rows.now) }
    requires rise { Rises added.now }
    requires live { All (IsLive (R.table rows.now) path.now.type_index) added.now }
    requires small { most ≤ number_of_limit Limit.Entries }
    ensures slots { entries.new.slots ≡ entries.old.slots }
    ensures room { entries.new.room ≡ entries.old.room }
    ensures entries { entries_of entries.new.values entries.old.slots ≡ entries_of entries.old.values entries.old.slots }
    ensures known { IfOk result (λ coming. AreKnown entries.new.values coming.items) }
    ensures added { IfOk result (λ coming. AreAdded (R.schemas rows.now) (R.table rows.now) path.now.type_index path.now.parts added.now (entries_of entries.new.values coming.items)) }
    ensures few { IfOk result (λ coming. length coming.items ≤ most) }
    ensures many { result ≡ Err Fault.Entries → ReachMany (R.schemas rows.now) (R.table rows.now) path.now.type_index path.now.parts added.now most }
    ensures counted { OnOk result (steps.new ≡ steps.old + length added.now) }
    ensures bounded { (steps.old ≤ steps.new) × (steps.new ≤ steps.old + length added.now) }
{
    let mut coming = Vec::new(alloc);
    let mut met = none_met(alloc, met_room(rows, path, added.len()))?;
    let column = first_column(rows, path);
    for ordinal in added {
        steps.tick();
        push_row(
            alloc,
            rows,
            &column,
            path,
            *ordinal,
            most,
            entries,
            &mut met,
            &mut coming,
        )?;
    }
    Ok(coming)
}

/// How many rows entries have.
fn count_owners(alloc: Global, slots: &[Slot]) -> Result<u64, AllocError>
    ensures { IfOk result (CountsOnce (map owner_in slots.now)) }
{
    let mut owners = Vec::with_capacity(alloc, slots.len())?;
    for slot in slots {
        owners.push(slot.owner)?;
    }
    Ok(rising(owners).len() as u64)
}

/// Sorts the entries that come, those of a value side by side: a walk along the chain of a value then goes through neighbouring slots.
fn by_value(mut coming: Vec<Slot>) -> Result<Vec<Slot>, AllocError>
    ensures { IfOk result (λ sorted. IsPermutation coming.items sorted.items) }
{
    coming.sort_by_key(|slot| slot.number)?;
    Ok(coming)
}

/// What is reserved, of the places of the entries that leave and of the entries that come. It makes the room for them, and counts the rows that have an entry then.
fn make_ready(
    alloc: Global,
    entries: &mut Entries,
    leaving: Ordinals,
    coming: Vec<Slot>,
    keyed: u64,
) -> Result<Reserved, AllocError>
    requires rise { Rises leaving }
    requires there { All (λ place. place < length entries.old.slots) leaving }
    requires known { AreKnown entries.old.values coming.items }
    requires small { length entries.old.slots ≤ number_of_limit Limit.Entries }
    requires few { length entries.old.slots + length coming.items ≤ number_of_limit Limit.Entries + length leaving }
    requires counts { (gone new : ℕ) → CountsOnce (map (owner_of entries.old.slots) leaving) gone → CountsOnce (map owner_in coming.items) new → (gone ≤ keyed) × CountsOwners (entries_of entries.old.values (without_slots leaving entries.old.slots ++ coming.items)) (keyed - gone + new) }
    ensures values { entries.new.values ≡ entries.old.values }
    ensures slots { entries.new.slots ≡ entries.old.slots }
    ensures reserved { IfOk result (IsReserved entries.new) }
    ensures leaving { IfOk result (λ reserved. reserved.leaving ≡ leaving) }
    ensures coming { IfOk result (λ reserved. IsPermutation coming.items reserved.coming.items) }
{
    let gone = entries.count_owners(alloc, leaving.as_slice())?;
    let new = count_owners(alloc, coming.as_slice())?;
    let there = entries.len();
    let more = coming.len();
    let room = there + more;
    entries.reserve(room as u32)?;
    let kept = keyed - gone;
    let keyed = kept + new;
    let coming = by_value(coming)?;
    Ok(Reserved {
        leaving,
        coming,
        keyed,
    })
}

/// What is reserved for the next state: the places of the entries of rows that are removed, and the entries of those that are added. It makes the room for
/// them. It counts a step for each row that is added. The entries that are kept stay as they are; so many rows have one.
pub(crate) fn read_next<R: ColumnRows, L: Ledger>(
    alloc: Global,
    rows: &R,
    path: &WalkPath,
    removed: &Ordinals,
    added: &Ordinals,
    entries: &mut Entries,
    keyed: u64,
    steps: &mut Steps<L>,
) -> Result<Reserved, WalkFault>
    requires closed { IsClosed (R.schemas rows.now) (R.table rows.now) }
    requires few { length entries.old.slots ≤ number_of_limit Limit.Entries }
    requires counts { CountsOwners (entries_of entries.old.values entries.old.slots) keyed }
    requires follows { FollowsWalk (entries_of entries.old.values entries.old.slots) (R.schemas rows.now) (R.table rows.now) path.now.type_index path.now.parts removed.now added.now }
    ensures slots { entries.new.slots ≡ entries.old.slots }
    ensures entries { entries_of entries.new.values entries.old.slots ≡ entries_of entries.old.values entries.old.slots }
    ensures reserved { IfOk result (IsReserved entries.new) }
    ensures next { IfOk result (λ reserved. AreEntries (R.schemas rows.now) (R.table rows.now) path.now.type_index path.now.parts (next_of entries.new reserved)) }
    ensures many { Yields IsFree result (Err Fault.Entries) (HasManyEntries (R.schemas rows.now) (R.table rows.now) path.now.type_index path.now.parts) }
    ensures counted { OnOk result (steps.new ≡ steps.old + length added.now) }
    ensures bounded { (steps.old ≤ steps.new) × (steps.new ≤ steps.old + length added.now) }
{
    let leaving = places_of(alloc, entries, removed.as_slice())?;
    let there = entries.len();
    let gone = leaving.len();
    let stay = there - gone;
    let most = MAX_ENTRIES as usize - stay;
    let coming = read_added(alloc, rows, path, added.as_slice(), most, entries, steps)?;
    let reserved = make_ready(alloc, entries, leaving, coming, keyed)?;
    Ok(reserved)
}

/// Takes out the entries at places that rise.
fn take_out_all(entries: &mut Entries, places: &[u32])
    requires rise { Rises places.now }
    requires there { All (λ place. place < length entries.old.slots) places.now }
    ensures { entries.new ≡ record entries.old { slots = without_slots places.now entries.old.slots } }
{
    let mut left = places.len();
    while left > 0 {
        left -= 1;
        entries.take_out(places[left]);
    }
}

/// Puts the entries that come behind those that are kept, for which there is room. It takes no memory.
fn put_all(entries: &mut Entries, coming: &[Slot])
    requires known { AreKnown entries.old.values coming.now }
    requires room { length entries.old.slots + length coming.now ≤ entries.old.room }
    ensures { entries.new ≡ record entries.old { slots = entries.old.slots ++ coming.now } }
{
    for slot in coming {
        entries.put(*slot);
    }
}

impl Reserved {
    ghost use Rattle.std.specs.Prelude.{◌≡◌, ◌++◌};
    ghost use Rattle.hol_paths.specs.Slots.{IsReserved, without_slots};

    /// Makes the entries those of the next state. It takes no memory.
    pub(crate) fn turn(self, entries: &mut Entries)
        requires { IsReserved entries.old self }
        ensures { entries.new ≡ record entries.old { slots = without_slots self.leaving entries.old.slots ++ self.coming.items } }
    {
        take_out_all(entries, self.leaving.as_slice());
        put_all(entries, self.coming.as_slice());
    }
}
