//! The records that a change puts have keys, and no two of a type have the same.
ghost use Rattle.std.specs.Prelude.{◌≡◌, ◌<◌, ◌≤◌, ◌↔◌, ◌^◌, ℕ, [], All, IfOk, IsTrue, None, OnOk, if◌then◌else◌, length, nat_eq};
ghost use Rattle.linked_slots.specs.Chained.{hash_of};
ghost use Rattle.row_hash.specs.Hash.{values_hash as hash_of_values};
ghost use Rattle.hol_incremental.specs.Changes.{records};
ghost use Rattle.hol_orders.specs.Parts.{AskedChange};
ghost use Rattle.hollow_machine.specs.ChangeOrder.{AreAllKeyed, ArePut};
ghost use Rattle.hollow_machine.specs.Records.{entries};
ghost use Rattle.change_orders.specs.Given.{TellsKeyed};
ghost use Rattle.change_orders.specs.Reading.{HaveRead};
ghost use Rattle.change_orders.specs.Keys.{AreHashed, FindsKey, HasKeyOf, IsKeyless, TellsAgain, TellsFound, TellsTwice};

use hol_answers::{EqualKeys, Refusal};
use hol_incremental::{Records, record_key};
use hol_varint::{Duplicate, List};
use linked_slots::Chains;
use record_trees::Tree;
use row_hash::{same_values, values_hash};
use row_model::Values;
use schema_model::Model;
use std::alloc::{AllocError, Global};

// No more records than these are put: 2^31.
const MOST: usize = 0x8000_0000;

/// A record's key, with the index of its type and the record's place among those of the type.
#[derive(Drop)]
pub(crate) struct KeyAt {
    type_index: u32,
    place: u64,
    key: Values,
}

/// Why the records that are put have no keys of their own: the first one that has none, by model order and place; then the first type of which two have
/// one, with the least second place. `None` exactly where each has its own.
pub(crate) fn why_not_keyed(
    alloc: Global,
    model: &Model,
    put: &Records,
) -> Result<Option<Refusal>, AllocError>
    requires types { All (λ entry. entry.0 < length model.now) put.now }
    ensures { (asked : AskedChange) → AreAllKeyed model.now asked → HaveRead model.now (entries model.now asked.put) put.now → IfOk result (TellsKeyed model.now asked (records put.now)) }
{
    // The model tells that it is one.
    let _types = model.len();
    let mut found = List::new(alloc);
    match read_keys(alloc, model, put.as_slice(), &mut found)? {
        Some(refusal) => Ok(Some(refusal)),
        None => key_twice(alloc, model, found.as_slice()),
    }
}

// Reads the keys of records, each with the place of its record among those of the type; or answers why the first record that has none is refused.
fn read_keys(
    alloc: Global,
    model: &Model,
    put: &[(u32, Tree)],
    found: &mut List<KeyAt>,
) -> Result<Option<Refusal>, AllocError>
    requires types { All (λ entry. entry.0 < length model.now) put.now }
    requires none { found.old ≡ [] }
    ensures types { OnOk result (All (λ one. one.type_index < length model.now) found.new) }
    ensures tells { (asked : AskedChange) → ArePut model.now asked (records put.now) → IfOk result (TellsFound model.now asked found.new) }
{
    let mut place = 0u64;
    let mut last = 0u32;
    for entry in put {
        place = place_of(entry.0, last, place);
        last = entry.0;
        match record_key(alloc, model, last, &entry.1)? {
            Some(key) => found.push(KeyAt {
                type_index: last,
                place,
                key,
            })?,
            None => return Ok(Some(no_key(alloc, model, last, place)?)),
        }
        place += 1;
    }
    Ok(None)
}

// The place of a record behind one of the last type: the next one, or the first where it is of another type.
fn place_of(type_index: u32, last: u32, next: u64) -> u64
    ensures is { result ≡ (if nat_eq type_index last then next else 0) }
    ensures low { result ≤ next }
{
    if type_index == last { next } else { 0 }
}

// The refusal of a record that has no key.
fn no_key(alloc: Global, model: &Model, type_index: u32, index: u64) -> Result<Refusal, AllocError>
    requires { type_index < length model.now }
    ensures { IfOk result (IsKeyless model.now type_index index) }
{
    let type_name = model.schema(type_index).name.copy(alloc)?;
    Ok(Refusal::NoKey { type_name, index })
}

// The refusal of the first two records of a type that have one key, if there are such.
fn key_twice(alloc: Global, model: &Model, found: &[KeyAt]) -> Result<Option<Refusal>, AllocError>
    requires { All (λ one. one.type_index < length model.now) found.now }
    ensures { IfOk result (TellsTwice model.now found.now) }
{
    match first_again(alloc, found)? {
        Some((first, second)) => {
            let one = &found[second as usize];
            let type_name = model.schema(one.type_index).name.copy(alloc)?;
            Ok(Some(Refusal::KeyTwice(EqualKeys {
                type_name,
                first: found[first as usize].place,
                second: one.place,
            })))
        }
        None => Ok(None),
    }
}

// The first key that stands there before it too, behind the place where it does. Each key is looked up by its hash among those before it.
fn first_again(alloc: Global, found: &[KeyAt]) -> Result<Option<(u32, u32)>, AllocError>
    ensures { IfOk result (TellsAgain found.now) }
{
    let mut chains = room_for(alloc, found.len())?;
    for place in 0..found.len() as u32 {
        let one = &found[place as usize];
        let hash = values_hash(one.key.as_slice());
        if let Some(first) = find(&found[..place as usize], &chains, hash, one) {
            return Ok(Some((first, place)));
        }
        chains.link(place, hash);
    }
    Ok(None)
}

// Chains for so many keys, of which none is linked.
fn room_for(alloc: Global, count: usize) -> Result<Chains, AllocError>
    ensures room { IfOk result (λ chains. (count ≤ chains.slots) × (0 < length chains.chains)) }
    ensures none { IfOk result (λ chains. (place : ℕ) → hash_of chains place ≡ None) }
    ensures few { OnOk result (count ≤ 2 ^ 31) }
{
    if count > MOST {
        return Err(AllocError);
    }
    let mut chains = Chains::new(alloc);
    chains.reserve(count as u32, (count as u32).next_power_of_two())?;
    Ok(chains)
}

// A place with the key of a record of the same type, if there is one.
fn find(found: &[KeyAt], chains: &Chains, hash: u32, one: &KeyAt) -> Option<u32>
    requires linked { AreHashed found.now chains.now }
    requires hashed { hash ≡ hash_of_values one.now.key }
    ensures { FindsKey found.now one.now result }
{
    let mut at = chains.first(hash);
    while let Some(place) = at {
        if stands_at(found, chains, place, hash, one) {
            return Some(place);
        }
        at = chains.following(place);
    }
    None
}

// Whether a key with this hash stands at a place. Keys of other hashes are not looked at.
fn stands_at(found: &[KeyAt], chains: &Chains, place: u32, hash: u32, one: &KeyAt) -> bool
    requires linked { AreHashed found.now chains.now }
    requires hashed { hash ≡ hash_of_values one.now.key }
    ensures { IsTrue result ↔ HasKeyOf found.now one.now place }
{
    chains.hash(place) == Some(hash) && is_key_at(found, place, one)
}

// Whether the key at a place is that of a record of the same type.
fn is_key_at(found: &[KeyAt], place: u32, one: &KeyAt) -> bool
    ensures { IsTrue result ↔ HasKeyOf found.now one.now place }
{
    match found.get(place as usize) {
        Some(other) => {
            other.type_index == one.type_index
                && same_values(other.key.as_slice(), one.key.as_slice())
        }
        None => false,
    }
}
