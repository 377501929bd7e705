//! How often rows are named.
ghost use Rattle.std.specs.Prelude.{◌≡◌, ◌+◌, ◌<◌, ◌^◌, ℕ, IfOk, OnOk, get_or, if◌then◌else◌, length, map, nat_eq};
ghost use Rattle.hol_incremental.specs.Counts.{one_for};
ghost use Rattle.hol_incremental.specs.EditKeys.{count_at, no_counts};

use std::alloc::{AllocError, Global};
use std::marker::Model;

/// How many places in rows name each row, by type and ordinal: 0 past those that are kept.
#[derive(Drop)]
pub(crate) struct Counts {
    counts: Vec<Vec<u64>>,
}

impl Model for Counts {
    ghost use Rattle.std.specs.Prelude.{List, ℕ, map};

    ghost Value = { List (List ℕ) };

    ghost view = { λ c. map (λ counts. counts.items) c.counts.items };
}

impl Counts {
    /// No row is named, of so many types.
    pub(crate) fn new(alloc: Global, types: u32) -> Result<Counts, AllocError>
        ensures { IfOk result (λ counts. counts ≡ no_counts types) }
    {
        let mut counts = Vec::new(alloc);
        for _type in 0..types {
            counts.push(Vec::new(alloc))?;
        }
        Ok(Counts { counts })
    }

    /// A copy of the counts.
    pub(crate) fn copy(&self, alloc: Global) -> Result<Counts, AllocError>
        ensures { IfOk result (λ copy. copy ≡ self.now) }
    {
        Ok(Counts {
            counts: copy_lists(alloc, self.counts.as_slice())?,
        })
    }

    /// How many places name a row.
    pub(crate) fn at(&self, row: (u32, u32)) -> u64
        ensures { result ≡ count_at self.now row.0 row.1 }
    {
        match self.counts.get(row.0 as usize) {
            Some(counts) => counts.get(row.1 as usize).copied().unwrap_or(0),
            None => 0,
        }
    }

    /// One place more names a row. A count that would pass 64 bits is refused as memory is.
    pub(crate) fn raise(&mut self, row: (u32, u32)) -> Result<(), AllocError>
        requires { row.0 < length self.old }
        ensures types { OnOk result (length self.new ≡ length self.old) }
        ensures raised { OnOk result ((type_index ordinal : ℕ) → count_at self.new type_index ordinal ≡ count_at self.old type_index ordinal + one_for type_index ordinal row) }
    {
        raise_at(&mut self.counts[row.0 as usize], row.1 as usize)
    }

    /// One place less names a row.
    pub(crate) fn lower(&mut self, row: (u32, u32))
        requires { 0 < count_at self.old row.0 row.1 }
        ensures types { length self.new ≡ length self.old }
        ensures lowered { (type_index ordinal : ℕ) → count_at self.new type_index ordinal + one_for type_index ordinal row ≡ count_at self.old type_index ordinal }
    {
        self.counts[row.0 as usize][row.1 as usize] -= 1;
    }
}

// A copy of the lists.
fn copy_lists(alloc: Global, lists: &[Vec<u64>]) -> Result<Vec<Vec<u64>>, AllocError>
    ensures { IfOk result (λ copies. map (λ list. list.items) copies.items ≡ map (λ list. list.items) lists.now) }
{
    let mut copies = Vec::with_capacity(alloc, lists.len())?;
    for list in lists {
        copies.push(Vec::from_slice(alloc, list.as_slice())?)?;
    }
    Ok(copies)
}

// One more at a place, behind zeros where there are fewer.
fn raise_at(counts: &mut Vec<u64>, place: usize) -> Result<(), AllocError>
    requires { place < 2 ^ 32 }
    ensures { OnOk result ((other : ℕ) → get_or counts.new.items other 0 ≡ get_or counts.old.items other 0 + (if nat_eq place other then 1 else 0)) }
{
    if counts.len() <= place {
        counts.resize(place + 1, 0)?;
    }
    match counts[place].checked_add(1) {
        Some(more) => {
            counts[place] = more;
            Ok(())
        }
        None => Err(AllocError),
    }
}
