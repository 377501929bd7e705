//! Sets of rows.
ghost use Rattle.std.specs.Prelude.{◌≡◌, ◌<◌, ◌-◌, ◌^◌, ◌↔◌, ◌++◌, ◌∷◌, ◌⊎◌, [], ℕ, Contains, IsTrue, OnErr, OnOk, get_or, length};

use ordinal_set::OrdinalSet;
use std::alloc::{AllocError, Global};
use std::marker::Model;

/// Rows, each by its type and ordinal, in the order in which they were put in, and a bit for each.
#[derive(Drop)]
pub(crate) struct RowSet {
    alloc: Global,
    rows: Vec<(u32, u32)>,
    sets: Vec<OrdinalSet>,
}

impl Model for RowSet {
    ghost use Rattle.std.specs.Prelude.{List, ℕ};
    ghost use Rattle.hol_incremental.specs.RowSets.{IsSetOf};

    ghost Value = { List (ℕ × ℕ) };

    ghost view = { λ s. s.rows.items };

    ghost invariant = { λ s. IsSetOf s.rows.items s.sets.items };
}

impl RowSet {
    /// The set without rows. It takes no memory.
    pub(crate) fn new(alloc: Global) -> RowSet
        ensures { result ≡ [] }
    {
        RowSet {
            alloc,
            rows: Vec::new(alloc),
            sets: Vec::new(alloc),
        }
    }

    /// Puts a row in, behind the others.
    pub(crate) fn insert(&mut self, row: (u32, u32)) -> Result<(), AllocError>
        requires { row.1 < 2 ^ 32 - 1 }
        ensures { OnOk result (self.new ≡ self.old ++ row ∷ []) }
    {
        self.rows.reserve(1)?;
        put_bit(self.alloc, &mut self.sets, row)?;
        self.rows.push(row).unwrap();
        Ok(())
    }

    /// Whether it has a row.
    pub(crate) fn contains(&self, row: (u32, u32)) -> bool
        ensures { IsTrue result ↔ Contains self.now row }
    {
        match self.sets.get(row.0 as usize) {
            Some(set) => set.contains(row.1),
            None => false,
        }
    }

    /// The rows, in the order in which they were put in.
    pub(crate) fn as_slice(&self) -> &[(u32, u32)]
        ensures { result.now ≡ self.now }
    {
        self.rows.as_slice()
    }
}

// Sets the bit of a row.
fn put_bit(alloc: Global, sets: &mut Vec<OrdinalSet>, row: (u32, u32)) -> Result<(), AllocError>
    requires { row.1 < 2 ^ 32 - 1 }
    ensures put { OnOk result ((type_index ordinal : ℕ) → Contains (get_or sets.new.items type_index []) ordinal ↔ (Contains (get_or sets.old.items type_index []) ordinal ⊎ ((type_index, ordinal) ≡ row))) }
    ensures refused { OnErr result ((type_index ordinal : ℕ) → Contains (get_or sets.new.items type_index []) ordinal ↔ Contains (get_or sets.old.items type_index []) ordinal) }
{
    widen(alloc, sets, row.0 as usize)?;
    sets[row.0 as usize].insert(row.1)
}

// Puts empty sets behind the others until there is one at a place.
fn widen(alloc: Global, sets: &mut Vec<OrdinalSet>, place: usize) -> Result<(), AllocError>
    ensures same { (type_index : ℕ) → get_or sets.new.items type_index [] ≡ get_or sets.old.items type_index [] }
    ensures there { OnOk result (place < length sets.new.items) }
{
    while sets.len() <= place {
        sets.push(OrdinalSet::new(alloc))?;
    }
    Ok(())
}
