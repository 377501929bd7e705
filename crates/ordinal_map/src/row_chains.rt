//! Where a row stands, found along the chains of the rows' hashes.
ghost use Rattle.std.specs.Prelude.{ℕ, ◌≡◌, ◌<◌, ◌^◌, ◌↔◌, Some, IfSome, IsTrue, OnOk, OnErr};
ghost use Rattle.linked_slots.specs.Chained.{hash_of};
ghost use Rattle.row_hash.specs.Hash.{row_hash as hash_of_row};
ghost use Rattle.ordinal_map.specs.KeptRows.{AreHashed, Finds, IsRoomy, row_under};

use crate::kept_rows::row_at;
use linked_slots::Chains;
use row_hash::same_row;
use row_model::Row;
use std::alloc::AllocError;

/// No place: no row stands there.
pub(crate) const NOWHERE: u32 = u32::MAX;

/// The one of two places at which a row stands, if it does. They are where it is looked for first.
#[inline(always)]
pub(crate) fn find_expected(
    rows: &[Option<Row>],
    expected: u32,
    beside: u32,
    row: &Row,
) -> Option<u32>
    ensures { IfSome result (λ ordinal. row_under rows.now ordinal ≡ Some row.now) }
{
    if is_row_at(rows, expected, row) {
        return Some(expected);
    }
    if is_row_at(rows, beside, row) {
        return Some(beside);
    }
    None
}

/// Where the next row is looked for beside the expected place, once one was found under an ordinal: behind it, if that was not where it was expected.
pub(crate) fn next_beside(expected: u32, beside: u32, ordinal: u32) -> u32 {
    if ordinal == expected {
        return beside;
    }
    ordinal.saturating_add(1)
}

/// The ordinal under which a row with this hash stands, if it does: it is looked for along its chain.
pub(crate) fn find(rows: &[Option<Row>], chains: &Chains, hash: u32, row: &Row) -> Option<u32>
    requires linked { AreHashed rows.now chains.now }
    requires hashed { hash ≡ hash_of_row row.now }
    ensures { Finds rows.now row.now result }
{
    let mut at = chains.first(hash);
    while let Some(ordinal) = at {
        if stands_at(rows, chains, ordinal, hash, row) {
            return Some(ordinal);
        }
        at = chains.following(ordinal);
    }
    None
}

// Whether a row with this hash stands under an ordinal. Rows of other hashes are not looked at.
fn stands_at(rows: &[Option<Row>], chains: &Chains, ordinal: u32, hash: u32, row: &Row) -> bool
    requires linked { AreHashed rows.now chains.now }
    requires hashed { hash ≡ hash_of_row row.now }
    ensures { IsTrue result ↔ (row_under rows.now ordinal ≡ Some row.now) }
{
    chains.hash(ordinal) == Some(hash) && is_row_at(rows, ordinal, row)
}

// Whether the row under an ordinal is this one.
fn is_row_at(rows: &[Option<Row>], ordinal: u32, row: &Row) -> bool
    ensures { IsTrue result ↔ (row_under rows.now ordinal ≡ Some row.now) }
{
    match row_at(rows, ordinal) {
        Some(other) => same_row(other, row),
        None => false,
    }
}

/// Reserves slots and buckets up to an ordinal: where it has no slot, at least twice as many as there are.
pub(crate) fn make_links(chains: &mut Chains, ordinal: u32) -> Result<(), AllocError>
    requires low { ordinal < 2 ^ 22 }
    requires roomy { IsRoomy chains.old }
    ensures room { OnOk result (ordinal < chains.new.slots) }
    ensures hashes { (other : ℕ) → hash_of chains.new other ≡ hash_of chains.old other }
    ensures roomy { IsRoomy chains.new }
    ensures err { OnErr result (chains.new ≡ chains.old) }
{
    if ordinal < chains.slots() {
        return Ok(());
    }
    let buckets = (2 * ordinal + 2).next_power_of_two();
    chains.reserve(buckets / 2, buckets)
}
