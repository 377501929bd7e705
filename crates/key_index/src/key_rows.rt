//! The rows of a type with their keys, each once: by ordinal, and by key.
ghost use Rattle.std.specs.Prelude.{◌≡◌, ◌≤◌, ◌<◌, IfOk, IsTrue, OnOk, true, if◌then◌else◌};
ghost use Rattle.std.specs.FinMap.{empty, remove};
ghost use Rattle.key_index.specs.Indexed.{AreUnder, CountsKeys};
ghost use Rattle.key_index.specs.Slots.{AreOnce, AreSorted, fits, placed, row_key};

use crate::key_chains::{buckets_for, found, link, link_all, unlink};
use crate::key_slots::KeySlots;
use crate::slot::Slot;
use hol_varint::Ordinals;
use linked_slots::Chains;
use row_model::Values;
use std::alloc::{AllocError, Global};
use std::marker::Model;

/// The rows of a type with their keys. Contracts see for how many ordinals there is room, whether that is for keys of any kind, and the rows'
/// keys by ordinal.
#[derive(Drop)]
pub(crate) struct KeyRows {
    alloc: Global,
    /// What stands under each ordinal.
    slots: KeySlots,
    /// The ordinals of the rows that have a key, by the keys' hashes.
    chains: Chains,
    /// How many buckets the chains have.
    buckets: u32,
    /// How many rows have a key.
    keyed: u64,
}

// Ordinals of which none stands twice, in their order.
fn rising(mut ordinals: Vec<u32>) -> Ordinals
    requires { AreOnce ordinals.items }
    ensures { AreSorted ordinals.items result }
{
    ordinals.sort_unstable();
    Ordinals::from_vec(ordinals)
}

impl Model for KeyRows {
    ghost use Rattle.std.specs.Prelude.{length};
    ghost use Rattle.key_index.specs.Slots.{AreKept, Roomy, is_large, keys_of, roomy_code, slots_in};

    ghost Value = { Roomy };

    ghost coded = { roomy_code };

    ghost view = { λ a. record { room = length (slots_in a.slots); large = is_large a.slots; keys = keys_of (slots_in a.slots) } };

    ghost invariant = { λ a. AreKept (slots_in a.slots) a.chains a.buckets a.keyed };
}

impl KeyRows {
    ghost use Rattle.std.specs.Prelude.{◌^◌, length};
    ghost use Rattle.key_index.specs.Slots.{keys_of, slots_in};

    /// The rows that stand in slots. Their keys are linked once all are there, one behind another, so that the waits for memory overlap.
    pub(crate) fn of_slots(alloc: Global, slots: KeySlots) -> Result<KeyRows, AllocError>
        requires few { length (slots_in slots) < 2 ^ 32 }
        ensures { IfOk result (λ rows. rows.keys ≡ keys_of (slots_in slots)) }
    {
        let room = slots.len() as u32;
        let buckets = buckets_for(room, 0);
        let mut chains = Chains::new(alloc);
        chains.reserve(room, buckets)?;
        let keyed = link_all(&mut chains, &slots);
        Ok(KeyRows {
            alloc,
            slots,
            chains,
            buckets,
            keyed,
        })
    }

    /// Makes room for so many ordinals. The rows stay as they are, also where memory is refused.
    pub(crate) fn reserve(&mut self, room: u32) -> Result<(), AllocError>
        ensures keys { self.new.keys ≡ self.old.keys }
        ensures room { OnOk result (room ≤ self.new.room) }
    {
        if room as usize <= self.slots.len() {
            return Ok(());
        }
        let buckets = buckets_for(room, self.buckets);
        self.chains.reserve(room, buckets)?;
        self.buckets = buckets;
        self.slots.make_room(room)
    }

    /// Makes room for keys of any kind, unless those that come are small. The rows stay as they are, also where memory is refused.
    pub(crate) fn fit(&mut self, small: bool) -> Result<(), AllocError>
        ensures keys { self.new.keys ≡ self.old.keys }
        ensures room { self.new.room ≡ self.old.room }
        ensures fits { OnOk result (IsTrue (if small then true else self.new.large)) }
    {
        self.slots.fit(self.alloc, small)
    }

    /// Writes the slot of an ordinal, and links it by its key. It takes no memory.
    pub(crate) fn place(&mut self, ordinal: u32, slot: Slot)
        requires inside { ordinal < self.old.room }
        requires fits { IsTrue (fits self.old.large slot) }
        ensures { self.new ≡ record self.old { keys = placed self.old.keys ordinal (row_key slot) } }
    {
        unlink(&mut self.chains, &mut self.keyed, ordinal);
        link(&mut self.chains, &mut self.keyed, ordinal, &slot);
        self.slots.set(ordinal, slot);
    }

    // Frees the slot of an ordinal, and lets its key go. It takes no memory.
    fn clear(&mut self, ordinal: u32)
        requires { ordinal < self.old.room }
        ensures { self.new ≡ record self.old { keys = remove self.old.keys ordinal } }
    {
        unlink(&mut self.chains, &mut self.keyed, ordinal);
        self.slots.set(ordinal, Slot::Free);
    }

    /// Drops the row under an ordinal, if there is one, and lets its key go. It takes no memory.
    pub(crate) fn remove(&mut self, ordinal: u32)
        ensures { self.new ≡ record self.old { keys = remove self.old.keys ordinal } }
    {
        if (ordinal as usize) < self.slots.len() {
            self.clear(ordinal);
        }
    }

    /// The ordinals whose rows have a key, rising.
    pub(crate) fn matches(&self, alloc: Global, key: &Values) -> Result<Ordinals, AllocError>
        ensures { IfOk result (AreUnder self.now.keys key.now) }
    {
        let found = found(alloc, &self.slots, &self.chains, key.as_slice())?;
        Ok(rising(found))
    }

    /// How many rows have a key.
    pub(crate) fn keyed(&self) -> u64
        ensures { CountsKeys self.now.keys result }
    {
        self.keyed
    }
}
