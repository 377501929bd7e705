//! Rows found by their keys, along the chains of the keys' hashes.
ghost use Rattle.std.specs.Prelude.{◌≡◌, ◌≤◌, ◌<◌, ◌+◌, ◌^◌, ◌↔◌, ℕ, Some, None, Contains, count_by, IfOk, IsSome, IsTrue, is_some, length, nat_eq, if◌then◌else◌};
ghost use Rattle.std.specs.Int.{IsPowerOfTwo};
ghost use Rattle.linked_slots.specs.Chained.{IsBuckets, hash_of};
ghost use Rattle.row_hash.specs.Hash.{values_hash as hash_of_values};
ghost use Rattle.key_index.specs.Slots.{AreHashed, AreOnce, has_key, key_hash, key_in, one_if, read_at, slots_in};

use crate::key_slots::KeySlots;
use crate::slot::Slot;
use linked_slots::Chains;
use row_hash::values_hash;
use row_model::Value;
use std::alloc::{AllocError, Global};

// No more buckets than these: 2^31.
const MOST_BUCKETS: u32 = 0x8000_0000;

/// The number of buckets for so many slots; it is not below the one before.
pub(crate) fn buckets_for(room: u32, before: u32) -> u32
    requires { IsBuckets before }
    ensures power { IsPowerOfTwo result }
    ensures more { before ≤ result }
{
    room.min(MOST_BUCKETS).next_power_of_two().max(before)
}

/// Unlinks an ordinal, if it is linked, and counts one key less then. It takes no memory.
pub(crate) fn unlink(chains: &mut Chains, keyed: &mut u64, ordinal: u32)
    requires { IsSome (hash_of chains.old ordinal) → 0 < keyed.old }
    ensures hashes { (other : ℕ) → hash_of chains.new other ≡ (if nat_eq other ordinal then None else hash_of chains.old other) }
    ensures slots { chains.new.slots ≡ chains.old.slots }
    ensures buckets { length chains.new.chains ≡ length chains.old.chains }
    ensures keyed { keyed.new + one_if (is_some (hash_of chains.old ordinal)) ≡ keyed.old }
{
    if chains.linked(ordinal) {
        chains.unlink(ordinal);
        *keyed -= 1;
    }
}

/// Links an ordinal by the key of its slot, if that has one, and counts one key more then. It takes no memory.
pub(crate) fn link(chains: &mut Chains, keyed: &mut u64, ordinal: u32, slot: &Slot)
    requires reserved { ordinal < chains.old.slots }
    requires buckets { 0 < length chains.old.chains }
    requires free { hash_of chains.old ordinal ≡ None }
    requires few { keyed.old < 2 ^ 32 }
    ensures hashes { (other : ℕ) → hash_of chains.new other ≡ (if nat_eq other ordinal then key_hash (key_in slot.now) else hash_of chains.old other) }
    ensures slots { chains.new.slots ≡ chains.old.slots }
    ensures buckets { length chains.new.chains ≡ length chains.old.chains }
    ensures keyed { keyed.new ≡ keyed.old + one_if (has_key slot.now) }
{
    if let Some(key) = slot.key() {
        chains.link(ordinal, values_hash(key));
        *keyed += 1;
    }
}

/// Links the ordinals of all slots in empty chains, each by the key of its slot, if that has one: how many have one. It takes no memory.
pub(crate) fn link_all(chains: &mut Chains, slots: &KeySlots) -> u64
    requires few { length (slots_in slots.now) < 2 ^ 32 }
    requires reserved { length (slots_in slots.now) ≤ chains.old.slots }
    requires buckets { 0 < length chains.old.chains }
    requires empty { (ordinal : ℕ) → hash_of chains.old ordinal ≡ None }
    ensures hashed { AreHashed (slots_in slots.now) chains.new }
    ensures slots { chains.new.slots ≡ chains.old.slots }
    ensures buckets { length chains.new.chains ≡ length chains.old.chains }
    ensures count { result ≡ count_by has_key (slots_in slots.now) }
{
    let mut keyed = 0;
    for ordinal in 0..slots.len() as u32 {
        link_hash(chains, &mut keyed, ordinal, slots.hash_at(ordinal));
    }
    keyed
}

// Links an ordinal by the hash of its key, if it has one, and counts one key more then. It takes no memory.
fn link_hash(chains: &mut Chains, keyed: &mut u64, ordinal: u32, hash: Option<u32>)
    requires reserved { ordinal < chains.old.slots }
    requires buckets { 0 < length chains.old.chains }
    requires free { hash_of chains.old ordinal ≡ None }
    requires few { keyed.old < 2 ^ 32 }
    ensures hashes { (other : ℕ) → hash_of chains.new other ≡ (if nat_eq other ordinal then hash else hash_of chains.old other) }
    ensures slots { chains.new.slots ≡ chains.old.slots }
    ensures buckets { length chains.new.chains ≡ length chains.old.chains }
    ensures keyed { keyed.new ≡ keyed.old + one_if (is_some hash) }
{
    if let Some(hash) = hash {
        chains.link(ordinal, hash);
        *keyed += 1;
    }
}

/// The ordinals whose rows have a key, each once, as they stand in its chain.
pub(crate) fn found(
    alloc: Global,
    slots: &KeySlots,
    chains: &Chains,
    key: &[Value],
) -> Result<Vec<u32>, AllocError>
    requires { AreHashed (slots_in slots.now) chains.now }
    ensures are { IfOk result (λ found. (ordinal : ℕ) → Contains found.items ordinal ↔ (read_at key_in (slots_in slots.now) ordinal ≡ Some key.now)) }
    ensures once { IfOk result (λ found. AreOnce found.items) }
{
    let hash = values_hash(key);
    let mut found = Vec::new(alloc);
    let mut at = chains.first(hash);
    while let Some(ordinal) = at {
        if stands_at(slots, chains, ordinal, hash, key) {
            found.push(ordinal)?;
        }
        at = chains.following(ordinal);
    }
    Ok(found)
}

// Whether a row with a key of this hash stands under an ordinal. Keys of other hashes are not looked at.
fn stands_at(slots: &KeySlots, chains: &Chains, ordinal: u32, hash: u32, key: &[Value]) -> bool
    requires linked { AreHashed (slots_in slots.now) chains.now }
    requires hashed { hash ≡ hash_of_values key.now }
    ensures { IsTrue result ↔ (read_at key_in (slots_in slots.now) ordinal ≡ Some key.now) }
{
    chains.hash(ordinal) == Some(hash) && slots.is_keyed_by(ordinal, key)
}
