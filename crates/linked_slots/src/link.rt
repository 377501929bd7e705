//! What stands at a slot, and writes of its neighbours.
ghost use Rattle.std.specs.Prelude.{◌≡◌, ◌≢◌, ◌≤◌, ◌<◌, ℕ, length, slice_get, slice_set, nat_eq, if◌then◌else◌, Some, None, ◌++◌, IfOk, OnOk};
ghost use Rattle.linked_slots.specs.Links.{none, free_next, AreLinked, chains_from, front_or, IsChain, next_set, before_set, walk};
ghost use Rattle.linked_slots.specs.Chained.{all_of};

use crate::links::Links;
use std::alloc::{AllocError, Global};

/// No slot: what stands behind the last slot of a chain, before its first one, and at the head of an empty bucket.
pub(crate) const NONE: u32 = u32::MAX;

/// What follows a slot that is not linked.
pub(crate) const FREE: u32 = u32::MAX - 1;

/// What stands at a slot: whether it is linked, its hash, and its neighbours in its chain, `NONE` at the ends.
#[derive(Clone, Copy)]
pub(crate) struct Link {
    pub(crate) linked: bool,
    pub(crate) hash: u32,
    pub(crate) before: u32,
    pub(crate) next: u32,
}

impl Link {
    ghost use Rattle.std.specs.Prelude.{◌≡◌};
    ghost use Rattle.linked_slots.specs.Links.{free_link};

    /// A slot that is not linked.
    pub(crate) fn free() -> Link
        ensures { result ≡ free_link }
    {
        Link {
            linked: false,
            hash: 0,
            before: NONE,
            next: FREE,
        }
    }
}

/// Writes what follows a slot, or where there is no such slot the head of a bucket.
pub(crate) fn set_follower(
    heads: &mut Vec<u32>,
    links: &mut Links,
    bucket: usize,
    before: u32,
    next: u32,
)
    requires bucket { bucket < length heads.old.items }
    requires few { length links.old ≤ none }
    requires next { next ≢ free_next }
    ensures heads { heads.new.items ≡ (if nat_eq before none then slice_set heads.old.items bucket next else heads.old.items) }
    ensures reads { (place : ℕ) → slice_get links.new place ≡ next_set before next (slice_get links.old) place }
    ensures len { length links.new ≡ length links.old }
{
    if before == NONE {
        heads[bucket] = next;
    }
    links.set_next(before, next);
}

/// The neighbour of a slot, or the slot itself where it has none. A slot that is then written whole has so its neighbour written without a branch: one
/// that is guessed wrong makes all that follows wait for what tells whether there is a neighbour.
#[inline(always)]
pub(crate) fn neighbour_or(neighbour: u32, slot: u32) -> u32
    ensures { result ≡ (if nat_eq neighbour none then slot else neighbour) }
{
    if neighbour == NONE { slot } else { neighbour }
}

/// The slot that a head or a neighbour is; `None` where it is `NONE`.
#[inline(always)]
pub(crate) fn some_slot(slot: u32) -> Option<u32>
    ensures { result ≡ (if nat_eq slot none then None else Some slot) }
{
    if slot == NONE { None } else { Some(slot) }
}

/// Adds the chain that begins at a head to a list.
fn add_chain(links: &Links, head: u32, order: &mut Vec<(u32, u32)>) -> Result<(), AllocError>
    requires few { length links.now ≤ none }
    requires front { head ≡ front_or none (walk (slice_get links.now) (length links.now) head) }
    requires chained { IsChain (slice_get links.now) none (walk (slice_get links.now) (length links.now) head) none }
    ensures { OnOk result (order.new.items ≡ order.old.items ++ walk (slice_get links.now) (length links.now) head) }
{
    let mut slot = head;
    while slot != NONE {
        let link = links.link(slot);
        order.push((slot, link.hash))?;
        slot = link.next;
    }
    Ok(())
}

/// All chains, one after another.
pub(crate) fn all_links(
    alloc: Global,
    heads: &[u32],
    links: &Links,
) -> Result<Vec<(u32, u32)>, AllocError>
    requires { AreLinked heads.now links.now }
    ensures { IfOk result (λ order. order.items ≡ all_of (chains_from heads.now links.now)) }
{
    let mut order = Vec::new(alloc);
    for head in heads {
        add_chain(links, *head, &mut order)?;
    }
    Ok(order)
}
