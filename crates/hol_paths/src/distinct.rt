//! Values, each kept once.
ghost use Rattle.std.specs.Prelude.{◌≡◌, ◌≢◌, ◌≤◌, ◌↔◌, [], AllPairs, IfOk, IsTrue, MatchOption, OnOk, OnErr, Some, slice_get};
ghost use Rattle.std.specs.Int.{IsPowerOfTwo};
ghost use Rattle.linked_slots.specs.Chained.{IsBuckets};
ghost use Rattle.hol_paths.specs.Distinct.{AreHashed, Finds, IsAdded, StandsOnlyAt, Stay, hash_of_value};

use linked_slots::Chains;
use row_hash::{same_values, values_hash};
use row_model::{Value, Values};
use std::alloc::{AllocError, Global};
use std::marker::Model;
use std::slice;

// No more values than these, and no more buckets: 2^31.
const MOST: u32 = 0x8000_0000;

/// Values of which none stands twice, found by their hashes. Contracts see the list of them.
#[derive(Drop)]
pub(crate) struct Distinct {
    values: Values,
    /// The places of the values, by the values' hashes.
    chains: Chains,
    /// How many buckets the chains have.
    buckets: u32,
}

impl Model for Distinct {
    ghost use Rattle.std.specs.Prelude.{List};
    ghost use Rattle.row_model.specs.declared.row.Value.{Value as ValueOf};
    ghost use Rattle.hol_paths.specs.Distinct.{AreDistinct};

    ghost Value = { List ValueOf };

    ghost view = { λ a. a.values };

    ghost invariant = { λ a. AreDistinct a.values a.chains a.buckets };
}

impl Distinct {
    /// No values. It takes no memory.
    pub(crate) fn new(alloc: Global) -> Distinct
        ensures { result ≡ [] }
    {
        Distinct {
            values: Values::new(alloc),
            chains: Chains::new(alloc),
            buckets: 0,
        }
    }

    /// Keeps a value, unless it is kept already, and answers its place. Where memory is refused the values stay as they were.
    pub(crate) fn add(&mut self, value: Value) -> Result<u32, AllocError>
        ensures added { OnOk result (IsAdded self.old value self.new) }
        ensures placed { IfOk result (λ place. slice_get self.new place ≡ Some value) }
        ensures stays { Stay self.old self.new }
        ensures kept { OnErr result (self.new ≡ self.old) }
    {
        let hash = values_hash(slice::from_ref(&value));
        if let Some(place) = find(self.values.as_slice(), &self.chains, hash, &value) {
            return Ok(place);
        }
        if self.values.len() >= MOST as usize {
            return Err(AllocError);
        }
        let place = self.values.len() as u32;
        let buckets = buckets_for(place + 1, self.buckets);
        self.chains.reserve(place + 1, buckets)?;
        self.buckets = buckets;
        self.values.push(value)?;
        self.chains.link(place, hash);
        Ok(place)
    }

    /// Keeps a value, if there is one and it is not kept already.
    pub(crate) fn add_some(&mut self, value: Option<Value>) -> Result<(), AllocError>
        ensures { OnOk result (MatchOption value (self.new ≡ self.old) (λ one. IsAdded self.old one self.new)) }
    {
        if let Some(one) = value {
            self.add(one)?;
        }
        Ok(())
    }

    /// The place of a value, if it is kept.
    pub(crate) fn place_of(&self, value: &Value) -> Option<u32>
        ensures { StandsOnlyAt self.now value.now result }
    {
        let hash = values_hash(slice::from_ref(value));
        find(self.values.as_slice(), &self.chains, hash, value)
    }

    /// The values, each once. It takes no memory.
    pub(crate) fn into_values(self) -> Values
        ensures values { result ≡ self }
        ensures apart { AllPairs (λ earlier later. earlier ≢ later) result }
    {
        self.values
    }
}

/// The number of buckets for so many values; it is not below the one before.
pub(crate) fn buckets_for(count: u32, before: u32) -> u32
    requires { IsBuckets before }
    ensures power { IsPowerOfTwo result }
    ensures more { before ≤ result }
{
    count.min(MOST).next_power_of_two().max(before)
}

/// The place at which a value stands, if it stands there.
fn find(values: &[Value], chains: &Chains, hash: u32, value: &Value) -> Option<u32>
    requires linked { AreHashed values.now chains.now }
    requires hashed { hash ≡ hash_of_value value.now }
    ensures { Finds values.now value.now result }
{
    let mut at = chains.first(hash);
    while let Some(place) = at {
        if stands_at(values, chains, place, hash, value) {
            return Some(place);
        }
        at = chains.following(place);
    }
    None
}

// Whether a value with this hash stands at a place. Values of other hashes are not looked at.
fn stands_at(values: &[Value], chains: &Chains, place: u32, hash: u32, value: &Value) -> bool
    requires linked { AreHashed values.now chains.now }
    requires hashed { hash ≡ hash_of_value value.now }
    ensures { IsTrue result ↔ (slice_get values.now place ≡ Some value.now) }
{
    chains.hash(place) == Some(hash) && is_value_at(values, place, value)
}

// Whether the value at a place is this one.
fn is_value_at(values: &[Value], place: u32, value: &Value) -> bool
    ensures { IsTrue result ↔ (slice_get values.now place ≡ Some value.now) }
{
    match values.get(place as usize) {
        Some(other) => same_values(slice::from_ref(other), slice::from_ref(value)),
        None => false,
    }
}
