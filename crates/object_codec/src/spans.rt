//! Whether spans of the same bytes are STRINGs, told without going over a byte many times.
ghost use Rattle.std.specs.Prelude.{ℕ, List, [], ◌≡◌, ◌+◌, ◌-◌, ◌<◌, ◌≤◌, length, take, drop, slice_index, IfOk, IsTrue, OnOk};
ghost use Rattle.hol_varint.specs.TextUnits.{AreUnitsIn};
ghost use Rattle.object_codec.specs.Texts.{AreReaches, IsBorder, TellsAreUnits};

use crate::text::{are_units, behind_unit};
use std::alloc::{AllocError, Global};

/// One reach is kept for so many bytes.
const STEP: usize = 64;

/// What is known of the spans of some bytes that are tested one after the other.
///
/// A span that begins where those before it ended, or behind that, is gone over itself. Only where one begins before that are all bytes gone
/// over, once, for how far units stand; then each span takes a limited number of steps, but for one that is bad.
#[derive(Drop)]
pub(crate) struct Spans {
    /// How far the bytes were gone over.
    far: usize,
    /// How far units stand, for the places in steps of 64; nothing as long as no span begins before `far`.
    reaches: Vec<usize>,
}

impl Spans {
    /// No span was tested yet.
    pub(crate) fn new(alloc: Global) -> Self
        ensures { result.reaches.items ≡ [] }
    {
        Spans {
            far: 0,
            reaches: Vec::new(alloc),
        }
    }

    /// Whether the bytes from one place up to another are those of a STRING.
    pub(crate) fn are_units(
        &mut self,
        alloc: Global,
        bytes: &[u8],
        start: usize,
        end: usize,
    ) -> Result<bool, AllocError>
        requires rises { start ≤ end }
        requires inside { end ≤ length bytes.now }
        requires reaches { AreReaches bytes.now self.old.reaches.items }
        ensures tells { IfOk result (TellsAreUnits (take (end - start) (drop start bytes.now))) }
        ensures reaches { OnOk result (AreReaches bytes.now self.new.reaches.items) }
    {
        if start >= self.far {
            self.far = end;
            return Ok(are_units(&bytes[start..end]));
        }
        self.reach(alloc, bytes)?;
        Ok(are_units_between(bytes, self.reaches.as_slice(), start, end))
    }

    /// Goes over the bytes for how far units stand, where that was not done yet.
    fn reach(&mut self, alloc: Global, bytes: &[u8]) -> Result<(), AllocError>
        requires { AreReaches bytes.now self.old.reaches.items }
        ensures { OnOk result (AreReaches bytes.now self.new.reaches.items) }
    {
        if !self.reaches.is_empty() {
            return Ok(());
        }
        self.reaches = unit_reaches(alloc, bytes)?;
        Ok(())
    }
}

/// How far units stand, for the places in steps of 64: from the place up to the reach a unit stands from each border on.
fn unit_reaches(alloc: Global, bytes: &[u8]) -> Result<Vec<usize>, AllocError>
    ensures { IfOk result (λ reaches. AreReaches bytes.now reaches.items) }
{
    let mut reaches = Vec::new(alloc);
    let mut place = 0;
    while place < bytes.len() {
        match behind_unit(bytes, place) {
            Some(next) => place = next,
            None => {
                reaches.resize(place / STEP + 1, place)?;
                place = behind_end(bytes, place);
            }
        }
    }
    reaches.resize(bytes.len() / STEP + 1, bytes.len())?;
    Ok(reaches)
}

/// The place behind the first byte below 128 from a place on; the end where there is none.
fn behind_end(bytes: &[u8], place: usize) -> usize
    requires { place < length bytes.now }
    ensures further { place < result }
    ensures inside { result ≤ length bytes.now }
    ensures on { (index : ℕ) → place ≤ index → index + 1 < result → 128 ≤ slice_index bytes.now index }
{
    for at in place..bytes.len() {
        if bytes[at] < 0x80 {
            return at + 1;
        }
    }
    bytes.len()
}

/// Whether the bytes from one place up to another are those of a STRING, by the reaches, which there may be none of.
fn are_units_between(bytes: &[u8], reaches: &[usize], start: usize, end: usize) -> bool
    requires rises { start ≤ end }
    requires inside { end ≤ length bytes.now }
    requires reaches { AreReaches bytes.now reaches.now }
    ensures { TellsAreUnits (take (end - start) (drop start bytes.now)) result }
{
    let span = &bytes[start..end];
    let mut place = 0;
    while place < span.len() {
        let Some(next) = behind_unit(span, place) else {
            return false;
        };
        place = next;
        if stand_up_to(bytes, reaches, start + place, end) {
            return true;
        }
    }
    true
}

/// Whether the reaches tell that units stand from a border up to a place. Where they do not, it is not known.
fn stand_up_to(bytes: &[u8], reaches: &[usize], place: usize, end: usize) -> bool
    requires rises { place ≤ end }
    requires some { 0 < place }
    requires inside { end ≤ length bytes.now }
    requires border { IsBorder bytes.now place }
    requires reaches { AreReaches bytes.now reaches.now }
    ensures { IsTrue result → (units : List ℕ) × AreUnitsIn (take (end - place) (drop place bytes.now)) units }
{
    let step = place / STEP;
    if step >= reaches.len() {
        return false;
    }
    if reaches[step] < end {
        return false;
    }
    bytes[end - 1] < 0x80
}
