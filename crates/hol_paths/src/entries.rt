//! The entries of a walk index, in slots.
ghost use Rattle.std.specs.Prelude.{◌≡◌, ◌<◌, ◌≤◌, ◌++◌, ◌∷◌, [], All, IfOk, OnOk, Some, length, map, slice_get};
ghost use Rattle.hol_paths.specs.Distinct.{Stay};
ghost use Rattle.hol_paths.specs.Groups.{AreGathered};
ghost use Rattle.hol_paths.specs.Slots.{CountsOnce, entries_of, owner_at, owner_of, without_slot};
ghost use Rattle.hol_paths.specs.Walked.{AreWith};

use crate::distinct::Distinct;
use crate::groups::Groups;
use crate::levels::rising;
use hol_varint::Ordinals;
use row_model::Value;
use std::alloc::{AllocError, Global};
use std::marker::Model;

/// An entry: a row, and a value that the row reaches.
#[derive(Clone, Copy)]
pub(crate) struct Slot {
    /// The row's ordinal.
    pub(crate) owner: u32,
    /// The place of the value among the values.
    pub(crate) number: u32,
}

/// Entries, of which those of a row and those of a value are found without a search. A value that many rows reach is kept once.
#[derive(Drop)]
pub(crate) struct Entries {
    slots: Vec<Slot>,
    /// The slots by their rows' ordinals.
    owners: Groups,
    /// The slots by the places of their values.
    numbers: Groups,
    values: Distinct,
    /// For how many slots there is room.
    room: u32,
}

impl Model for Entries {
    ghost use Rattle.std.specs.Prelude.{vec_capacity};
    ghost use Rattle.hol_paths.specs.Slots.{AreSlotted, Slotted, slotted_code};

    ghost Value = { Slotted };

    ghost coded = { slotted_code };

    ghost view = { λ a. record { room = a.room; values = a.values; slots = a.slots.items } };

    ghost invariant = { λ a. AreSlotted a.slots.items (vec_capacity a.slots) a.owners a.numbers a.values a.room };
}

impl Entries {
    /// No entries. It takes no memory.
    pub(crate) fn new(alloc: Global) -> Entries
        ensures { result ≡ record { room = 0; values = []; slots = [] } }
    {
        Entries {
            slots: Vec::new(alloc),
            owners: Groups::new(alloc),
            numbers: Groups::new(alloc),
            values: Distinct::new(alloc),
            room: 0,
        }
    }

    /// How many entries there are.
    pub(crate) fn len(&self) -> usize
        ensures { result ≡ length self.now.slots }
    {
        self.slots.len()
    }

    /// Makes room for so many slots. The entries stay as they are, also where memory is refused.
    pub(crate) fn reserve(&mut self, room: u32) -> Result<(), AllocError>
        ensures values { self.new.values ≡ self.old.values }
        ensures slots { self.new.slots ≡ self.old.slots }
        ensures room { OnOk result (room ≤ self.new.room) }
    {
        if room <= self.room {
            return Ok(());
        }
        self.slots.reserve(room as usize - self.slots.len())?;
        self.owners.reserve(room)?;
        self.numbers.reserve(room)?;
        self.room = room;
        Ok(())
    }

    /// The place of a value among the values, where it is put if it does not stand there. The entries stay as they are, also where memory is refused.
    pub(crate) fn number(&mut self, value: Value) -> Result<u32, AllocError>
        ensures slots { self.new.slots ≡ self.old.slots }
        ensures room { self.new.room ≡ self.old.room }
        ensures placed { IfOk result (λ number. slice_get self.new.values number ≡ Some value) }
        ensures stays { Stay self.old.values self.new.values }
        ensures entries { entries_of self.new.values self.old.slots ≡ entries_of self.old.values self.old.slots }
    {
        self.values.add(value)
    }

    /// Adds an entry, for which there is room. It takes no memory.
    pub(crate) fn put(&mut self, slot: Slot)
        requires room { length self.old.slots < self.old.room }
        requires known { slot.number < length self.old.values }
        ensures { self.new ≡ record self.old { slots = self.old.slots ++ slot ∷ [] } }
    {
        let place = self.slots.len() as u32;
        self.owners.put(place, slot.owner);
        self.numbers.put(place, slot.number);
        if self.slots.push(slot).is_err() {
            unreachable!()
        }
    }

    /// Takes out the entry at a place, which the last one takes. It takes no memory, and no value is looked at.
    pub(crate) fn take_out(&mut self, place: u32)
        requires { place < length self.old.slots }
        ensures { self.new ≡ record self.old { slots = without_slot place self.old.slots } }
    {
        let last = self.slots.len() as u32 - 1;
        let slot = self.slots[last as usize];
        self.owners.replace(place, last, slot.owner);
        self.numbers.replace(place, last, slot.number);
        self.slots.swap_remove(place as usize);
    }

    /// Adds the places of the entries of a row to a list.
    pub(crate) fn gather_owned(&self, owner: u32, found: &mut Vec<u32>) -> Result<(), AllocError>
        ensures { OnOk result (AreGathered (owner_at self.now.slots) owner found.old.items found.new.items) }
    {
        self.owners.gather(owner, found)
    }

    /// How many rows the entries at some places have.
    pub(crate) fn count_owners(&self, alloc: Global, places: &[u32]) -> Result<u64, AllocError>
        requires { All (λ place. place < length self.now.slots) places.now }
        ensures { IfOk result (CountsOnce (map (owner_of self.now.slots) places.now)) }
    {
        let owners = owners_at(alloc, self.slots.as_slice(), places)?;
        Ok(rising(owners).len() as u64)
    }

    /// The ordinals of the rows that have an entry with a value, rising.
    pub(crate) fn owners_with(&self, alloc: Global, value: &Value) -> Result<Ordinals, AllocError>
        ensures { IfOk result (AreWith (entries_of self.now.values self.now.slots) value.now) }
    {
        let Some(number) = self.values.place_of(value) else {
            return Ok(Ordinals::new(alloc));
        };
        let mut places = Vec::new(alloc);
        self.numbers.gather(number, &mut places)?;
        let owners = owners_at(alloc, self.slots.as_slice(), places.as_slice())?;
        Ok(rising(owners))
    }
}

/// The ordinals of the rows of slots.
fn owners_at(alloc: Global, slots: &[Slot], places: &[u32]) -> Result<Vec<u32>, AllocError>
    requires { All (λ place. place < length slots.now) places.now }
    ensures { IfOk result (λ owners. owners.items ≡ map (owner_of slots.now) places.now) }
{
    let mut owners = Vec::with_capacity(alloc, places.len())?;
    for place in places {
        owners.push(slots[*place as usize].owner)?;
    }
    Ok(owners)
}
