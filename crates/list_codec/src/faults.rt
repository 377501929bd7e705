//! Lists of one type, tested one after the other without going over an element many times.
ghost use Rattle.std.specs.Prelude.{ℕ, List, [], ◌≡◌, ◌+◌, ◌-◌, ◌*◌, ◌<◌, ◌≤◌, length, slice_index, IfOk, IsTrue, MatchBool, MatchOption, OnErr};
ghost use Rattle.list_codec.specs.ListRows.{HoldsAt, SpellsAt, FailsAt};
ghost use Rattle.list_codec.specs.Elements.{AreOrdinals, AreOrdinalReaches, HasPastOrdinals};

use crate::list_rows::ListRows;
use bit_array::element_at;
use schema_model::Reason;
use std::alloc::{AllocError, Global};

/// One reach is kept for so many elements.
const STEP: u64 = 64;

/// The lists of a type, tested one after the other where they stand.
///
/// Elements of 32 bits at most are ordinals all, and not walked. Wider ones are walked where they stand, as long as no list begins before the
/// end of one before it. Where one does, all elements are walked, once, for how far they are ordinals; then each list takes a limited number of
/// steps, but for one that is bad.
#[derive(Drop)]
pub struct Lists<'a> {
    /// The lists that are tested.
    pub rows: ListRows<'a>,
    /// The width of an element, in bits.
    width: u32,
    /// How far the elements were walked.
    far: u64,
    /// How far elements are ordinals, for the indexes in steps of 64; nothing as long as no list begins before `far`.
    reaches: Vec<u64>,
    ghost narrow: { width ≤ 64 },
    ghost of: { width ≡ slice_index rows.widths.now 1 },
    ghost told: { AreOrdinalReaches rows.second.now width reaches.items },
}

impl<'a> Lists<'a> {
    /// The lists of a type, none of them tested yet.
    pub fn new(alloc: Global, rows: ListRows<'a>) -> Self
        requires long { 2 ≤ length rows.widths.now }
        requires narrow { slice_index rows.widths.now 1 ≤ 64 }
        ensures { result.rows ≡ rows.entry }
    {
        Lists {
            rows,
            width: rows.widths[1],
            far: 0,
            reaches: Vec::new(alloc),
        }
    }

    /// Why the parts of a LIST type spell no list at a place; none where they spell one.
    ///
    /// `BadPointers` where the pointers bound no elements that there are, else `BadValue` where one is no ordinal.
    pub fn fault(&mut self, alloc: Global, place: u64) -> Result<Option<Reason>, AllocError>
        requires { HoldsAt self.old.rows place }
        ensures tells { IfOk result (λ found. MatchOption found ((ordinals : List ℕ) × SpellsAt self.old.rows place ordinals) (FailsAt self.old.rows place)) }
        ensures rows { self.new.rows ≡ self.old.rows }
        ensures memory { OnErr result (32 < slice_index self.old.rows.widths.now 1) }
    {
        let Some((start, end)) = self.rows.bounds(place) else {
            return Ok(Some(Reason::BadPointers));
        };
        if self.are_ordinals(alloc, start, end)? {
            return Ok(None);
        }
        Ok(Some(Reason::BadValue))
    }

    /// Whether the elements from one index up to another are ordinals.
    fn are_ordinals(&mut self, alloc: Global, start: u64, end: u64) -> Result<bool, AllocError>
        requires { end * self.old.width ≤ 64 * length self.old.rows.second.now }
        ensures tells { IfOk result (λ are. MatchBool are (AreOrdinals self.old.rows.second.now self.old.width start end) (HasPastOrdinals self.old.rows.second.now self.old.width start end)) }
        ensures rows { self.new.rows ≡ self.old.rows }
        ensures memory { OnErr result (32 < self.old.width) }
    {
        if self.width <= 32 {
            return Ok(true);
        }
        self.reach(alloc, start)?;
        self.far = self.far.max(end);
        Ok(are_ordinals_by(
            self.rows.second,
            self.width,
            self.reaches.as_slice(),
            start,
            end,
        ))
    }

    /// Walks all elements for how far they are ordinals, where a list begins before `far` and that was not done yet.
    fn reach(&mut self, alloc: Global, start: u64) -> Result<(), AllocError>
        requires { 0 < self.old.width }
        ensures rows { self.new.rows ≡ self.old.rows }
        ensures width { self.new.width ≡ self.old.width }
    {
        if start >= self.far || !self.reaches.is_empty() {
            return Ok(());
        }
        self.reaches = ordinal_reaches(alloc, self.rows.second, self.width)?;
        Ok(())
    }
}

/// How many elements of a width words hold.
fn held(words: &[u64], width: u32) -> u64
    requires { 0 < width }
    ensures { result * width ≤ 64 * length words.now }
{
    let count = 64 * words.len() as u128 / u128::from(width);
    if count > u128::from(u64::MAX) {
        return 0;
    }
    count as u64
}

/// How far elements are ordinals, for the indexes in steps of 64.
fn ordinal_reaches(alloc: Global, words: &[u64], width: u32) -> Result<Vec<u64>, AllocError>
    requires wide { 0 < width }
    requires narrow { width ≤ 64 }
    ensures { IfOk result (λ reaches. AreOrdinalReaches words.now width reaches.items) }
{
    let count = held(words, width);
    let mut reaches = Vec::new(alloc);
    for index in 0..count {
        if element_at(words, index, width) <= u64::from(u32::MAX) {
            continue;
        }
        reaches.resize((index / STEP) as usize + 1, index)?;
    }
    reaches.resize((count / STEP) as usize + 1, count)?;
    Ok(reaches)
}

/// Whether the elements from one index up to another are ordinals, by the reaches, which there may be none of.
fn are_ordinals_by(words: &[u64], width: u32, reaches: &[u64], start: u64, end: u64) -> bool
    requires narrow { width ≤ 64 }
    requires held { end * width ≤ 64 * length words.now }
    requires reaches { AreOrdinalReaches words.now width reaches.now }
    ensures { MatchBool result (AreOrdinals words.now width start end) (HasPastOrdinals words.now width start end) }
{
    for index in start..end {
        if reaches_to(reaches, (index / STEP) as usize, end) {
            return true;
        }
        if element_at(words, index, width) > u64::from(u32::MAX) {
            return false;
        }
    }
    true
}

/// Whether a step's reach is at or behind an end.
#[inline(always)]
fn reaches_to(reaches: &[u64], step: usize, end: u64) -> bool
    ensures { IsTrue result → (step < length reaches.now) × (end ≤ slice_index reaches.now step) }
{
    step < reaches.len() && reaches[step] >= end
}
