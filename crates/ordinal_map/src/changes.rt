//! A row comes to stand under an ordinal, and rows leave, with their hashes.
ghost use Rattle.std.specs.Prelude.{ℕ, ◌≡◌, ◌+◌, ◌<◌, ◌≤◌, ◌^◌, Contains, IsSome, None, OnErr, OnOk, max, length};
ghost use Rattle.linked_slots.specs.Chained.{hash_of};
ghost use Rattle.ordinal_set.specs.Ordinals.{lacking, with_ordinal};
ghost use Rattle.ordinal_map.specs.KeptRows.{AreAlike, AreFreed, IsPlaced, IsRoomy};

use crate::kept_rows::make_room;
use crate::row_chains::make_links;
use linked_slots::Chains;
use ordinal_set::OrdinalSet;
use row_model::Row;
use std::alloc::AllocError;

/// Puts a row and its hash under an ordinal that is free, and the ordinal into a set. Where memory is refused all reads as before.
pub(crate) fn place_row(
    rows: &mut Vec<Option<Row>>,
    chains: &mut Chains,
    set: &mut OrdinalSet,
    ordinal: u32,
    hash: u32,
    row: Row,
) -> Result<(), AllocError>
    requires low { ordinal < 2 ^ 22 }
    requires roomy { IsRoomy chains.old }
    requires free { hash_of chains.old ordinal ≡ None }
    ensures placed { OnOk result (IsPlaced rows.old.items chains.old ordinal hash row rows.new.items chains.new) }
    ensures put { OnOk result (set.new ≡ with_ordinal ordinal set.old) }
    ensures alike { OnErr result (AreAlike rows.old.items chains.old rows.new.items chains.new) }
    ensures unput { OnErr result (set.new ≡ set.old) }
    ensures few { length rows.new.items ≤ max (length rows.old.items) (ordinal + 1) }
    ensures roomy { IsRoomy chains.new }
{
    make_room(rows, ordinal)?;
    make_links(chains, ordinal)?;
    set.insert(ordinal)?;
    chains.link(ordinal, hash);
    rows[ordinal as usize] = Some(row);
    Ok(())
}

/// Takes the row and its hash from under an ordinal. It takes no memory.
pub(crate) fn free_row(rows: &mut Vec<Option<Row>>, chains: &mut Chains, ordinal: u32)
    requires within { ordinal < length rows.old.items }
    requires linked { IsSome (hash_of chains.old ordinal) }
    requires roomy { IsRoomy chains.old }
    ensures freed { AreFreed (λ other. other ≡ ordinal) rows.old.items chains.old rows.new.items chains.new }
    ensures few { length rows.new.items ≡ length rows.old.items }
    ensures roomy { IsRoomy chains.new }
{
    rows[ordinal as usize] = None;
    chains.unlink(ordinal);
}

/// Takes the rows and their hashes from under the ordinals of one set that the other one lacks. It takes no memory.
pub(crate) fn free_beside(
    rows: &mut Vec<Option<Row>>,
    chains: &mut Chains,
    leaving: &OrdinalSet,
    staying: &OrdinalSet,
)
    requires within { (ordinal : ℕ) → Contains leaving.now ordinal → ordinal < length rows.old.items }
    requires linked { (ordinal : ℕ) → Contains leaving.now ordinal → IsSome (hash_of chains.old ordinal) }
    requires roomy { IsRoomy chains.old }
    ensures freed { AreFreed (Contains (lacking leaving.now staying.now)) rows.old.items chains.old rows.new.items chains.new }
    ensures few { length rows.new.items ≡ length rows.old.items }
    ensures roomy { IsRoomy chains.new }
{
    let mut from = 0;
    while let Some(ordinal) = leaving.first_beside(staying, from) {
        free_row(rows, chains, ordinal);
        from = ordinal + 1;
    }
}
