//! What stands under each ordinal, in slots that are no larger than the keys ask for.
ghost use Rattle.std.specs.Prelude.{◌≡◌, ◌↔◌, ◌≤◌, IfOk, IsTrue, OnOk, Some, length, map, slice_get};
ghost use Rattle.std.specs.Option.{option_copied};
ghost use Rattle.key_index.specs.Slots.{Widens, key_hash, key_in, read_at, slot_of};

use crate::slot::{Slot, SmallSlot};
use row_hash::{same_values, values_hash};
use row_model::Value;
use std::alloc::{AllocError, Global};

/// What stands under each ordinal.
#[derive(Drop)]
pub(crate) enum KeySlots {
    /// Each key is one value of 32 bits at most.
    Small(Vec<SmallSlot>),
    /// The keys are of any kind.
    Large(Vec<Slot>),
}

impl KeySlots {
    ghost use Rattle.std.specs.Prelude.{◌≡◌, ◌↔◌, ◌<◌, ◌≤◌, [], IsTrue, OnOk, Some, if◌then◌else◌, length, slice_set, true};
    ghost use Rattle.key_index.specs.Slots.{Widens, fits, is_large, key_hash, key_in, read_at, slots_in};

    /// No slots. It takes no memory.
    pub(crate) fn new(alloc: Global) -> KeySlots
        ensures { slots_in result ≡ [] }
    {
        KeySlots::Small(Vec::new(alloc))
    }

    /// How many slots there are.
    pub(crate) fn len(&self) -> usize
        ensures { result ≡ length (slots_in self.now) }
    {
        match self {
            KeySlots::Small(slots) => slots.len(),
            KeySlots::Large(slots) => slots.len(),
        }
    }

    /// Makes free slots, up to a number of them.
    pub(crate) fn make_room(&mut self, room: u32) -> Result<(), AllocError>
        ensures room { OnOk result (room ≤ length (slots_in self.new)) }
        ensures widens { Widens (slots_in self.old) room (slots_in self.new) }
        ensures form { is_large self.new ≡ is_large self.old }
    {
        match self {
            KeySlots::Small(slots) => widen_small(slots, room),
            KeySlots::Large(slots) => widen_large(slots, room),
        }
    }

    /// Makes the slots such as take any key. What stands in them stays, also where memory is refused.
    pub(crate) fn enlarge(&mut self, alloc: Global) -> Result<(), AllocError>
        ensures slots { slots_in self.new ≡ slots_in self.old }
        ensures large { OnOk result (IsTrue (is_large self.new)) }
    {
        if let KeySlots::Small(slots) = self {
            *self = KeySlots::Large(large_slots(alloc, slots.as_slice())?);
        }
        Ok(())
    }

    /// Makes the slots such as take any key, unless the keys that come are small. What stands in them stays, also where memory is refused.
    pub(crate) fn fit(&mut self, alloc: Global, small: bool) -> Result<(), AllocError>
        ensures slots { slots_in self.new ≡ slots_in self.old }
        ensures fits { OnOk result (IsTrue (if small then true else is_large self.new)) }
    {
        if small { Ok(()) } else { self.enlarge(alloc) }
    }

    /// Writes one slot, once there is room for a key of its kind.
    pub(crate) fn put(&mut self, alloc: Global, ordinal: u32, slot: Slot) -> Result<(), AllocError>
        requires { ordinal < length (slots_in self.old) }
        ensures { OnOk result (slots_in self.new ≡ slice_set (slots_in self.old) ordinal slot) }
    {
        self.fit(alloc, slot.is_small())?;
        self.set(ordinal, slot);
        Ok(())
    }

    /// Writes one slot. It takes no memory.
    #[inline(always)]
    pub(crate) fn set(&mut self, ordinal: u32, slot: Slot)
        requires inside { ordinal < length (slots_in self.old) }
        requires fits { IsTrue (fits (is_large self.old) slot) }
        ensures slots { slots_in self.new ≡ slice_set (slots_in self.old) ordinal slot }
        ensures form { is_large self.new ≡ is_large self.old }
    {
        match self {
            KeySlots::Small(slots) => {
                if let Some(small) = slot.small() {
                    slots[ordinal as usize] = small;
                }
            }
            KeySlots::Large(slots) => slots[ordinal as usize] = slot,
        }
    }

    /// The hash of the key of the row under an ordinal, if there is a row that has one.
    #[inline(always)]
    pub(crate) fn hash_at(&self, ordinal: u32) -> Option<u32>
        ensures { result ≡ key_hash (read_at key_in (slots_in self.now) ordinal) }
    {
        match self {
            KeySlots::Small(slots) => small_hash(slots, ordinal),
            KeySlots::Large(slots) => large_hash(slots, ordinal),
        }
    }

    /// Whether the row under an ordinal has this key.
    #[inline(always)]
    pub(crate) fn is_keyed_by(&self, ordinal: u32, key: &[Value]) -> bool
        ensures { IsTrue result ↔ (read_at key_in (slots_in self.now) ordinal ≡ Some key.now) }
    {
        match self {
            KeySlots::Small(slots) => is_small_key(slots, ordinal, key),
            KeySlots::Large(slots) => is_large_key(slots, ordinal, key),
        }
    }
}

// Makes free small slots, up to a number of them.
fn widen_small(slots: &mut Vec<SmallSlot>, room: u32) -> Result<(), AllocError>
    ensures room { OnOk result (room ≤ length slots.new.items) }
    ensures widens { Widens (map slot_of slots.old.items) room (map slot_of slots.new.items) }
{
    if room as usize > slots.len() {
        slots.resize(room as usize, SmallSlot::Free)?;
    }
    Ok(())
}

// Makes free slots, up to a number of them.
fn widen_large(slots: &mut Vec<Slot>, room: u32) -> Result<(), AllocError>
    ensures room { OnOk result (room ≤ length slots.new.items) }
    ensures widens { Widens slots.old.items room slots.new.items }
{
    slots.reserve((room as usize).saturating_sub(slots.len()))?;
    while slots.len() < room as usize {
        slots.push(Slot::Free)?;
    }
    Ok(())
}

// Slots for keys of any kind that hold what these small slots hold.
fn large_slots(alloc: Global, slots: &[SmallSlot]) -> Result<Vec<Slot>, AllocError>
    ensures { IfOk result (λ large. large.items ≡ map slot_of slots.now) }
{
    let mut large = Vec::with_capacity(alloc, slots.len())?;
    for slot in slots {
        large.push(slot.large())?;
    }
    Ok(large)
}

// The small slot of an ordinal, if there is one.
#[inline(always)]
fn small_at(slots: &[SmallSlot], ordinal: u32) -> Option<SmallSlot>
    ensures { result ≡ slice_get slots.now ordinal }
{
    slots.get(ordinal as usize).copied()
}

// Whether the key that stands in a small slot is this one.
#[inline(always)]
fn is_small_key(slots: &[SmallSlot], ordinal: u32, key: &[Value]) -> bool
    ensures { IsTrue result ↔ (read_at key_in (map slot_of slots.now) ordinal ≡ Some key.now) }
{
    match small_at(slots, ordinal) {
        Some(slot) => slot.is_keyed_by(key),
        None => false,
    }
}

// The key of the row under an ordinal, if there is a row that has one.
#[inline(always)]
fn key_at(slots: &[Slot], ordinal: u32) -> Option<&[Value]>
    ensures { option_copied result ≡ read_at key_in slots.now ordinal }
{
    match slots.get(ordinal as usize) {
        Some(slot) => slot.key(),
        None => None,
    }
}

// Whether the key that stands in a slot is this one.
fn is_large_key(slots: &[Slot], ordinal: u32, key: &[Value]) -> bool
    ensures { IsTrue result ↔ (read_at key_in slots.now ordinal ≡ Some key.now) }
{
    match key_at(slots, ordinal) {
        Some(other) => same_values(other, key),
        None => false,
    }
}

// The hash of the key that stands in a small slot, if one does.
#[inline(always)]
fn small_hash(slots: &[SmallSlot], ordinal: u32) -> Option<u32>
    ensures { result ≡ key_hash (read_at key_in (map slot_of slots.now) ordinal) }
{
    match small_at(slots, ordinal) {
        Some(slot) => slot.large().hash(),
        None => None,
    }
}

// The hash of the key that stands in a slot, if one does.
fn large_hash(slots: &[Slot], ordinal: u32) -> Option<u32>
    ensures { result ≡ key_hash (read_at key_in slots.now ordinal) }
{
    match key_at(slots, ordinal) {
        Some(key) => Some(values_hash(key)),
        None => None,
    }
}
