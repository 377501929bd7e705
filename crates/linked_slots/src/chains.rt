//! Chains of slots by the buckets of their hashes.
ghost use Rattle.std.specs.Prelude.{◌≡◌, ◌<◌, ◌↔◌, ℕ, [], ◌∷◌, Some, None, IsSome, is_some, map, length, slice_get, slice_set, nat_eq, if◌then◌else◌, IfOk, OnOk, OnErr, replicate, max, ◌≤◌, List, get_or};
ghost use Rattle.std.specs.Int.{IsPowerOfTwo};
ghost use Rattle.linked_slots.specs.Chained.{Among, AreApart, IsAt, IsBuckets, Shows, fallen, IsReserved, IsSpread, IsWhole, all_of, hash_among, with_hash, bucket_of, chain_of, hash_of, left_at, links_under, without};

use crate::link::{Link, NONE, all_links, neighbour_or, set_follower, some_slot};
use crate::links::Links;
use std::alloc::{AllocError, Global};
use std::marker::Model;

/// Chains of slots, one for each bucket. A slot stands in the chain of the bucket into which its hash falls.
#[derive(Drop)]
pub struct Chains {
    alloc: Global,
    /// The first slot of each bucket, `NONE` for none.
    heads: Vec<u32>,
    /// What stands at each slot.
    links: Links,
}

impl Model for Chains {
    ghost use Rattle.std.specs.Prelude.{length};
    ghost use Rattle.linked_slots.specs.Chained.{Chained, chained_code};
    ghost use Rattle.linked_slots.specs.Links.{AreLinked, chains_from};

    ghost Value = { Chained };

    ghost coded = { chained_code };

    ghost view = { λ a. record { slots = length a.links; chains = chains_from a.heads.items a.links } };

    ghost invariant = { λ a. AreLinked a.heads.items a.links };
}

impl Chains {
    /// No slots and no buckets. It takes no memory.
    pub fn new(alloc: Global) -> Chains
        ensures { result ≡ record { slots = 0; chains = [] } }
    {
        Chains {
            alloc,
            heads: Vec::new(alloc),
            links: Links::new(alloc),
        }
    }

    // So many slots, of which none is linked, and so many buckets.
    fn sized(alloc: Global, slots: u32, buckets: u32) -> Result<Chains, AllocError>
        requires { IsPowerOfTwo buckets }
        ensures { IfOk result (λ chains. chains ≡ record { slots = slots; chains = replicate buckets [] }) }
    {
        let mut heads = Vec::new(alloc);
        heads.resize(buckets as usize, NONE)?;
        let mut links = Links::new(alloc);
        links.grow(slots as usize)?;
        Ok(Chains {
            alloc,
            heads,
            links,
        })
    }

    // All linked slots with their hashes, by bucket.
    fn all(&self) -> Result<Vec<(u32, u32)>, AllocError>
        ensures order { IfOk result (λ order. order.items ≡ all_of self.now.chains) }
        ensures apart { AreApart (all_of self.now.chains) }
        ensures within { (slot : ℕ) → Among slot (all_of self.now.chains) → slot < self.now.slots }
        ensures hashes { (hash : ℕ) → with_hash hash (all_of self.now.chains) ≡ with_hash hash (links_under self.now hash) }
        ensures fall { (bucket : ℕ) → fallen (length self.now.chains) bucket (get_or self.now.chains bucket []) ≡ get_or self.now.chains bucket [] }
        ensures powered { IsBuckets (length self.now.chains) }
    {
        all_links(self.alloc, &self.heads, &self.links)
    }

    /// How many slots are reserved.
    pub fn slots(&self) -> u32
        ensures { result ≡ self.now.slots }
    {
        self.links.len() as u32
    }

    // Links slots in empty chains, the first of the list in front of the others.
    fn link_all(&mut self, order: &[(u32, u32)])
        requires buckets { 0 < length self.old.chains }
        requires empty { self.old.chains ≡ replicate (length self.old.chains) [] }
        requires apart { AreApart order.now }
        requires within { (slot : ℕ) → Among slot order.now → slot < self.old.slots }
        ensures slots { self.new.slots ≡ self.old.slots }
        ensures spread { IsSpread self.new.chains (length self.old.chains) order.now }
        ensures hashes { (slot : ℕ) → hash_of self.new slot ≡ hash_among slot order.now }
    {
        let mut count = order.len();
        while count > 0 {
            count -= 1;
            let (slot, hash) = order[count];
            self.link(slot, hash);
        }
    }

    // Adds slots, none of them linked, until there are so many at least. Where memory is refused all stays as it was.
    fn add_slots(&mut self, slots: u32) -> Result<(), AllocError>
        ensures ok { OnOk result (self.new ≡ record self.old { slots = max self.old.slots slots }) }
        ensures err { OnErr result (self.new ≡ self.old) }
    {
        if slots as usize > self.links.len() {
            self.links.grow(slots as usize)?;
        }
        Ok(())
    }

    /// Reserves slots and buckets, of which there are not less than before. It alone takes memory. The linked slots stay linked, those of
    /// each hash in their order. Where memory is refused all stays as it was.
    pub fn reserve(&mut self, slots: u32, buckets: u32) -> Result<(), AllocError>
        requires power { IsPowerOfTwo buckets }
        requires more { length self.old.chains ≤ buckets }
        ensures ok { OnOk result (IsReserved self.old slots buckets self.new) }
        ensures err { OnErr result (self.new ≡ self.old) }
    {
        if buckets as usize == self.heads.len() {
            return self.add_slots(slots);
        }
        let order = self.all()?;
        let mut fresh = Chains::sized(self.alloc, slots.max(self.slots()), buckets)?;
        fresh.link_all(&order);
        *self = fresh;
        Ok(())
    }

    // The bucket of a hash: its low bits, since the number of buckets is a power of two.
    #[inline(always)]
    fn bucket(&self, hash: u32) -> usize
        requires { 0 < length self.now.chains }
        ensures is { result ≡ bucket_of self.now hash }
        ensures within { result < length self.now.chains }
    {
        hash as usize & (self.heads.len() - 1)
    }

    /// Links a slot at the front of the chain of its hash. It takes no memory.
    pub fn link(&mut self, slot: u32, hash: u32)
        requires reserved { slot < self.old.slots }
        requires buckets { 0 < length self.old.chains }
        requires free { hash_of self.old slot ≡ None }
        ensures chains { self.new ≡ record self.old { chains = slice_set self.old.chains (bucket_of self.old hash) ((slot, hash) ∷ links_under self.old hash) } }
        ensures hashes { (other : ℕ) → hash_of self.new other ≡ (if nat_eq other slot then Some hash else hash_of self.old other) }
        ensures shows { (links : List (ℕ × ℕ)) → Shows self.old links → Shows self.new ((slot, hash) ∷ links) }
    {
        let bucket = self.bucket(hash);
        let next = self.heads[bucket];
        let place = neighbour_or(next, slot);
        self.links.set_before(place, slot);
        self.links.put(
            slot,
            Link {
                linked: true,
                hash,
                before: NONE,
                next,
            },
        );
        self.heads[bucket] = slot;
    }

    /// Takes a slot out of its chain, in constant time. It takes no memory.
    pub fn unlink(&mut self, slot: u32)
        requires linked { IsSome (hash_of self.old slot) }
        ensures chains { self.new ≡ record self.old { chains = map (without slot) self.old.chains } }
        ensures hashes { (other : ℕ) → hash_of self.new other ≡ (if nat_eq other slot then None else hash_of self.old other) }
        ensures shows { (links : List (ℕ × ℕ)) → Shows self.old links → Shows self.new (without slot links) }
    {
        let link = self.links.link(slot);
        let bucket = self.bucket(link.hash);
        set_follower(
            &mut self.heads,
            &mut self.links,
            bucket,
            link.before,
            link.next,
        );
        let place = neighbour_or(link.next, slot);
        self.links.set_before(place, link.before);
        self.links.put(slot, Link::free());
    }

    /// Whether a slot is linked.
    #[inline(always)]
    pub fn linked(&self, slot: u32) -> bool
        ensures { result ≡ is_some (hash_of self.now slot) }
    {
        self.links.hash(slot).is_some()
    }

    /// The hash with which a slot is linked, if it is.
    #[inline(always)]
    pub fn hash(&self, slot: u32) -> Option<u32>
        ensures { result ≡ hash_of self.now slot }
    {
        self.links.hash(slot)
    }

    /// The first slot of the chain of a hash, where a walk along it begins.
    #[inline(always)]
    pub fn first(&self, hash: u32) -> Option<u32>
        ensures first { result ≡ slice_get (chain_of self.now hash) 0 }
        ensures left { left_at self.now hash result ≡ chain_of self.now hash }
        ensures at { IsAt self.now hash result }
        ensures whole { IsWhole self.now hash }
    {
        if self.heads.is_empty() {
            return None;
        }
        some_slot(self.heads[self.bucket(hash)])
    }

    /// The slot that follows one in its chain: the next step of a walk.
    #[inline(always)]
    pub fn following(&self, slot: u32) -> Option<u32>
        requires linked { IsSome (hash_of self.now slot) }
        ensures left { (hash : ℕ) → IsAt self.now hash (Some slot) → left_at self.now hash (Some slot) ≡ slot ∷ left_at self.now hash result }
        ensures at { (hash : ℕ) → IsAt self.now hash (Some slot) → IsAt self.now hash result }
    {
        some_slot(self.links.next(slot))
    }
}
