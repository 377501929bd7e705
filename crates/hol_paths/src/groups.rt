//! Slots in groups, by a number of each.
ghost use Rattle.std.specs.Prelude.{◌≡◌, ◌<◌, ◌≤◌, ◌↔◌, ℕ, [], None, Some, IsSome, IsTrue, OnOk, nat_eq, if◌then◌else◌};
ghost use Rattle.linked_slots.specs.Chained.{hash_of};
ghost use Rattle.hol_paths.specs.Groups.{AreGathered};

use crate::distinct::buckets_for;
use linked_slots::Chains;
use std::alloc::{AllocError, Global};
use std::marker::Model;

/// Slots with a number each; the slots of one number are found without a search.
#[derive(Drop)]
pub(crate) struct Groups {
    chains: Chains,
    /// How many buckets the chains have.
    buckets: u32,
}

impl Model for Groups {
    ghost use Rattle.linked_slots.specs.Chained.{Chained, chained_code};
    ghost use Rattle.hol_paths.specs.Groups.{AreGrouped};

    ghost Value = { Chained };

    ghost coded = { chained_code };

    ghost view = { λ a. a.chains };

    ghost invariant = { λ a. AreGrouped a.chains a.buckets };
}

impl Groups {
    /// No slots. It takes no memory.
    pub(crate) fn new(alloc: Global) -> Groups
        ensures { result ≡ record { slots = 0; chains = [] } }
    {
        Groups {
            chains: Chains::new(alloc),
            buckets: 0,
        }
    }

    /// Reserves slots. Those that have a number keep it, also where memory is refused.
    pub(crate) fn reserve(&mut self, slots: u32) -> Result<(), AllocError>
        ensures numbers { (slot : ℕ) → hash_of self.new slot ≡ hash_of self.old slot }
        ensures grown { self.old.slots ≤ self.new.slots }
        ensures room { OnOk result (slots ≤ self.new.slots) }
    {
        let buckets = buckets_for(slots, self.buckets);
        self.chains.reserve(slots, buckets)?;
        self.buckets = buckets;
        Ok(())
    }

    /// Gives a slot a number. It takes no memory.
    pub(crate) fn put(&mut self, slot: u32, number: u32)
        requires reserved { slot < self.old.slots }
        requires free { hash_of self.old slot ≡ None }
        ensures numbers { (other : ℕ) → hash_of self.new other ≡ (if nat_eq other slot then Some number else hash_of self.old other) }
        ensures slots { self.new.slots ≡ self.old.slots }
    {
        self.chains.link(slot, number);
    }

    /// Takes the number of a slot, and gives the slot that of the last one, which is its own. It takes no memory.
    pub(crate) fn replace(&mut self, slot: u32, last: u32, number: u32)
        requires reserved { slot < self.old.slots }
        requires numbered { IsSome (hash_of self.old slot) }
        requires last { IsSome (hash_of self.old last) }
        ensures numbers { (other : ℕ) → hash_of self.new other ≡ (if nat_eq other last then None else (if nat_eq other slot then Some number else hash_of self.old other)) }
        ensures slots { self.new.slots ≡ self.old.slots }
    {
        self.chains.unlink(slot);
        if slot != last {
            self.chains.unlink(last);
            self.chains.link(slot, number);
        }
    }

    /// Adds the slots of a number to a list.
    pub(crate) fn gather(&self, number: u32, found: &mut Vec<u32>) -> Result<(), AllocError>
        ensures { OnOk result (AreGathered (hash_of self.now) number found.old.items found.new.items) }
    {
        gather(&self.chains, number, found)
    }
}

/// Adds the slots that are linked with a number to a list.
fn gather(chains: &Chains, number: u32, found: &mut Vec<u32>) -> Result<(), AllocError>
    ensures { OnOk result (AreGathered (hash_of chains.now) number found.old.items found.new.items) }
{
    let mut at = chains.first(number);
    while let Some(slot) = at {
        if has_number(chains, slot, number) {
            found.push(slot)?;
        }
        at = chains.following(slot);
    }
    Ok(())
}

/// Whether a slot is linked with this number.
fn has_number(chains: &Chains, slot: u32, number: u32) -> bool
    ensures { IsTrue result ↔ (hash_of chains.now slot ≡ Some number) }
{
    chains.hash(slot) == Some(number)
}
