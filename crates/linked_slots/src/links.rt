//! What stands at each slot, in two arrays: what a walk along a chain reads, and what only a change of the chain does.
ghost use Rattle.std.specs.Prelude.{◌≡◌, ◌≢◌, ◌<◌, ◌≤◌, ◌-◌, ◌^◌, ◌++◌, ℕ, [], not, length, nat_eq, replicate, slice_get, slice_set, Some, OnErr, OnOk};
ghost use Rattle.linked_slots.specs.Links.{before_set, free_link, free_next, hash_at, next_set};

use crate::link::{FREE, Link, NONE};
use std::alloc::{AllocError, Global};
use std::marker::Model;

/// What a walk along a chain reads of a slot: its hash, and the slot that follows. `FREE` follows where the slot is not linked.
#[derive(Clone, Copy)]
pub(crate) struct Step {
    hash: u32,
    next: u32,
}

impl Step {
    ghost use Rattle.std.specs.Prelude.{◌≡◌, ℕ, Some};
    ghost use Rattle.linked_slots.specs.Links.{hash_at, link_of};

    /// The hash, where the slot is linked.
    #[inline(always)]
    fn linked_hash(&self) -> Option<u32>
        ensures { (before : ℕ) → result ≡ hash_at (Some (link_of (self.now, before))) }
    {
        if self.next == FREE {
            None
        } else {
            Some(self.hash)
        }
    }
}

/// What stands at each slot. A walk reads eight bytes of a slot, and so more of them lie near the processor.
///
/// Contracts see the list of links, of which there are fewer than 2^32 - 1.
#[derive(Drop)]
pub(crate) struct Links {
    steps: Vec<Step>,
    /// The slot before each slot.
    befores: Vec<u32>,
}

impl Model for Links {
    ghost use Rattle.std.specs.Prelude.{List};
    ghost use Rattle.linked_slots.specs.Links.{ArePaired, links_of};
    ghost use Rattle.linked_slots.specs.declared.link.Link.{Link};

    ghost Value = { List Link };

    ghost view = { λ l. links_of l.steps.items l.befores.items };

    ghost invariant = { λ l. ArePaired l.steps.items l.befores.items };
}

impl Links {
    /// No slots. It takes no memory.
    pub(crate) fn new(alloc: Global) -> Links
        ensures { result ≡ [] }
    {
        Links {
            steps: Vec::new(alloc),
            befores: Vec::new(alloc),
        }
    }

    /// How many slots there are.
    pub(crate) fn len(&self) -> usize
        ensures is { result ≡ length self.now }
        ensures short { length self.now < 2 ^ 32 - 1 }
    {
        self.steps.len()
    }

    /// Makes it so many slots, of which those that come are not linked. Where memory is refused it stays as it was.
    pub(crate) fn grow(&mut self, slots: usize) -> Result<(), AllocError>
        requires { length self.old ≤ slots }
        ensures ok { OnOk result (self.new ≡ self.old ++ replicate (slots - length self.old) free_link) }
        ensures short { OnOk result (slots < 2 ^ 32 - 1) }
        ensures err { OnErr result (self.new ≡ self.old) }
    {
        if slots >= FREE as usize + 1 {
            return Err(AllocError);
        }
        let before = self.steps.len();
        let free = Step {
            hash: 0,
            next: FREE,
        };
        self.befores.resize(slots, NONE)?;
        if self.steps.resize(slots, free).is_err() {
            self.befores.truncate(before);
            return Err(AllocError);
        }
        Ok(())
    }

    /// What stands at a slot.
    #[inline(always)]
    pub(crate) fn link(&self, slot: u32) -> Link
        requires { slot < length self.now }
        ensures link { slice_get self.now slot ≡ Some result }
        ensures flag { result.linked ≡ not (nat_eq result.next free_next) }
    {
        let step = self.steps[slot as usize];
        Link {
            linked: step.next != FREE,
            hash: step.hash,
            before: self.befores[slot as usize],
            next: step.next,
        }
    }

    /// The hash with which a slot is linked, if it is.
    #[inline(always)]
    pub(crate) fn hash(&self, slot: u32) -> Option<u32>
        ensures { result ≡ hash_at (slice_get self.now slot) }
    {
        match self.steps.get(slot as usize) {
            Some(step) => step.linked_hash(),
            None => None,
        }
    }

    /// What follows a slot.
    #[inline(always)]
    pub(crate) fn next(&self, slot: u32) -> u32
        requires { slot < length self.now }
        ensures { (link : Link) → slice_get self.now slot ≡ Some link → result ≡ link.next }
    {
        self.steps[slot as usize].next
    }

    /// Writes what stands at a slot.
    #[inline(always)]
    pub(crate) fn put(&mut self, slot: u32, link: Link)
        requires within { slot < length self.old }
        requires flag { link.linked ≡ not (nat_eq link.next free_next) }
        ensures { self.new ≡ slice_set self.old slot link }
    {
        self.steps[slot as usize] = Step {
            hash: link.hash,
            next: link.next,
        };
        self.befores[slot as usize] = link.before;
    }

    /// Writes what follows a slot, if there is such a slot and it is linked.
    pub(crate) fn set_next(&mut self, slot: u32, next: u32)
        requires { next ≢ free_next }
        ensures reads { (place : ℕ) → slice_get self.new place ≡ next_set slot next (slice_get self.old) place }
        ensures len { length self.new ≡ length self.old }
    {
        if self.hash(slot).is_some() {
            self.steps[slot as usize].next = next;
        }
    }

    /// Writes what stands before a slot, if there is such a slot.
    #[inline(always)]
    pub(crate) fn set_before(&mut self, slot: u32, before: u32)
        ensures reads { (place : ℕ) → slice_get self.new place ≡ before_set slot before (slice_get self.old) place }
        ensures len { length self.new ≡ length self.old }
    {
        if (slot as usize) < self.befores.len() {
            self.befores[slot as usize] = before;
        }
    }
}
