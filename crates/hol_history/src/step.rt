//! A step: the version that it led from, and what it changed.
ghost use Rattle.std.specs.Prelude.{◌≡◌, ◌<◌, ◌≤◌, ◌-◌, ◌^◌, ℕ, true, false, length, min, slice_get, Some, IfOk, IsSomeAnd, OnErr, OnOk};
ghost use Rattle.std.specs.Option.{option_copied};
ghost use Rattle.hol_history.specs.History.{rows_left_in};
ghost use Rattle.hol_history.specs.Spots.{KeepsOthers, Sets};
ghost use Rattle.hol_history.specs.Steps.{IsPart, step_names};

use crate::part::Part;
use crate::spots::Spots;
use hol_varint::List;
use row_model::LeftRows;
use std::alloc::{AllocError, Global};
use std::marker::Model;

/// A step: the version that it led from, and what it changed of each type.
#[derive(Drop)]
pub(crate) struct Step {
    version: u64,
    /// In model order.
    parts: List<Part>,
}

impl Model for Step {
    ghost use Rattle.std.specs.Prelude.{◌<◌, ◌^◌, length};
    ghost use Rattle.hol_history.specs.History.{PastStep, step_code};

    ghost Value = { PastStep };

    ghost coded = { step_code };

    ghost view = { λ s. record { from = s.version; past = s.parts } };

    ghost invariant = { λ s. length s.parts < 2 ^ 32 };
}

impl Step {
    /// A copy of what a step from a version changed of so many types.
    pub(crate) fn of<L: LeftRows>(
        alloc: Global,
        before: &L,
        types: u32,
        version: u64,
    ) -> Result<Step, AllocError>
        requires types { length (L.past before.now) ≡ types }
        requires parts { (type_index : ℕ) → type_index < types → IsSomeAnd (slice_get (L.past before.now) type_index) IsPart }
        ensures { IfOk result (λ step. step ≡ record { from = version; past = L.past before.now }) }
    {
        let mut parts = List::with_capacity(alloc, types as usize)?;
        for type_index in 0..types {
            parts.push(Part::of(alloc, before, type_index)?)?;
        }
        Ok(Step { version, parts })
    }

    /// The version that the step led from.
    pub(crate) fn version(&self) -> u64
        ensures { result ≡ self.now.from }
    {
        self.version
    }

    /// What the step changed of a type.
    pub(crate) fn part(&self, type_index: u32) -> &Part
        requires { type_index < length self.now.past }
        ensures { slice_get self.now.past type_index ≡ Some result.now }
    {
        self.parts.get(type_index as usize)
    }

    /// What the step changed of a type; none where there is no such type.
    pub(crate) fn part_of(&self, type_index: u32) -> Option<&Part>
        ensures { option_copied result ≡ slice_get self.now.past type_index }
    {
        self.parts.as_slice().get(type_index as usize)
    }

    /// Puts in what the step touched, under its number. Where memory is refused some of it may be in.
    pub(crate) fn put_into(&self, spots: &mut Spots, number: u64) -> Result<(), AllocError>
        ensures ok { OnOk result (Sets true (step_names self.now.past number) spots.old spots.new) }
        ensures err { OnErr result (KeepsOthers (step_names self.now.past number) spots.old spots.new) }
    {
        for type_index in 0..self.parts.len() as u32 {
            self.part(type_index).put_into(spots, type_index, number)?;
        }
        Ok(())
    }

    /// Takes out what the step touched, under its number.
    pub(crate) fn take_from(&self, spots: &mut Spots, number: u64)
        ensures { Sets false (step_names self.now.past number) spots.old spots.new }
    {
        for type_index in 0..self.parts.len() as u32 {
            self.part(type_index).take_from(spots, type_index, number);
        }
    }

    /// How many rows left in the step, at most 2^64 - 1.
    pub(crate) fn rows_left(&self) -> u64
        ensures { result ≡ min (rows_left_in self.now) (2 ^ 64 - 1) }
    {
        let mut rows = 0u64;
        for part in self.parts.as_slice() {
            rows = rows.saturating_add(part.rows_left() as u64);
        }
        rows
    }
}
