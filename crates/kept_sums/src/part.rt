//! What is kept of one part of the rows of a type.
ghost use Rattle.std.specs.Prelude.{◌≡◌, ◌+◌, ◌-◌, ◌<◌, ◌≤◌, ◌⊎◌, ℕ, ◌^◌, IfOk, OnOk, get_or, length, replicate};
ghost use Rattle.kept_sums.specs.Sums.{one_if};

use hol_varint::Duplicate;
use std::alloc::{AllocError, Global};
use std::marker::Model;

/// A number takes so many bits at most.
const BITS: usize = 64;

/// How many rows take 0 to 64 bits in a part, and its variable bytes.
#[derive(Drop)]
pub(crate) struct Part {
    counts: Vec<u32>,
    bytes: u128,
}

impl Model for Part {
    ghost use Rattle.std.specs.Prelude.{◌≡◌, length};
    ghost use Rattle.kept_sums.specs.Sums.{PartSums, part_code};

    ghost Value = { PartSums };

    ghost coded = { part_code };

    ghost view = { λ p. record { counts = p.counts.items; bytes = p.bytes } };

    ghost invariant = { λ p. length p.counts.items ≡ 65 };
}

impl Part {
    /// That of no rows.
    pub(crate) fn new(alloc: Global) -> Result<Part, AllocError>
        ensures { IfOk result (λ part. part ≡ record { counts = replicate 65 0; bytes = 0 }) }
    {
        Ok(Part {
            counts: vec![in alloc; 0; BITS + 1]?,
            bytes: 0,
        })
    }

    /// A row more takes so many bits, and has so many bytes. Sums that no memory can hold are refused as memory is.
    #[tactic(auto, using(crate::proofs::Summing::counted_more))]
    pub(crate) fn add(&mut self, bits: u32, bytes: u64) -> Result<(), AllocError>
        requires { bits ≤ 64 }
        ensures counts { OnOk result ((place : ℕ) → get_or self.new.counts place 0 ≡ get_or self.old.counts place 0 + one_if bits place) }
        ensures bytes { OnOk result (self.new.bytes ≡ self.old.bytes + bytes) }
    {
        let place = bits as usize;
        let count = self.counts[place].checked_add(1).ok_or(AllocError)?;
        let sum = self.bytes.checked_add(u128::from(bytes)).ok_or(AllocError)?;
        self.counts[place] = count;
        self.bytes = sum;
        Ok(())
    }

    /// A row less takes so many bits, and has so many bytes: one of those that are added up.
    #[tactic(auto, using(crate::proofs::Summing::counted_less))]
    pub(crate) fn take(&mut self, bits: u32, bytes: u64)
        requires { bits ≤ 64 }
        ensures counts { (place : ℕ) → get_or self.new.counts place 0 ≡ get_or self.old.counts place 0 - one_if bits place }
        ensures bytes { self.new.bytes ≡ self.old.bytes - bytes }
    {
        let place = bits as usize;
        self.counts[place] = self.counts[place].saturating_sub(1);
        self.bytes = self.bytes.saturating_sub(u128::from(bytes));
    }

    /// The most bits that a row takes, 0 where there is none.
    pub(crate) fn most(&self) -> u32
        ensures few { result ≤ 64 }
        ensures none { (bits : ℕ) → result < bits → get_or self.now.counts bits 0 ≡ 0 }
        ensures some { (result ≡ 0) ⊎ (0 < get_or self.now.counts result 0) }
    {
        most_of(self.counts.as_slice())
    }

    /// The variable bytes, 2^62 where they are more.
    pub(crate) fn bytes(&self) -> u64
        ensures few { result ≤ 2 ^ 62 }
        ensures is { self.now.bytes < 2 ^ 62 → result ≡ self.now.bytes }
    {
        self.bytes.min(1 << 62) as u64
    }
}

// The last place of a number that is not 0, 0 where there is none.
#[tactic(auto, using(crate::proofs::RowParts::last_start, crate::proofs::RowParts::last_lower))]
fn most_of(counts: &[u32]) -> u32
    requires { length counts.now ≡ 65 }
    ensures few { result ≤ 64 }
    ensures none { (place : ℕ) → result < place → get_or counts.now place 0 ≡ 0 }
    ensures some { (result ≡ 0) ⊎ (0 < get_or counts.now result 0) }
{
    let mut bits: u32 = 64;
    while bits > 0 {
        if counts[bits as usize] != 0 {
            return bits;
        }
        bits -= 1;
    }
    0
}

impl Duplicate for Part {
    fn copy(&self, alloc: Global) -> Result<Part, AllocError> {
        Ok(Part {
            counts: Vec::from_slice(alloc, self.counts.as_slice())?,
            bytes: self.bytes,
        })
    }
}
