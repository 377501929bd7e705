//! The indexes that a consumer keeps over the rows of its state.
ghost use Rattle.std.specs.Prelude.{◌≡◌, ◌<◌, ◌^◌, ◌↔◌, All, Contains, Err, IfOk, IsSome, IsSomeAnd, IsTrue, MatchOption, OnErr, OnOk, None, Some, length, map, slice_get};
ghost use Rattle.row_model.specs.Key.{AreMatches, IsResolved};
ghost use Rattle.key_index.specs.Indexed.{CountsLive};
ghost use Rattle.read_engine.specs.Indexes.{AddsIndex, CountsAdded, CountsKeyed, HasNoRoom, index_by};
ghost use Rattle.read_engine.specs.Kept.{IsKept, index_kept};
ghost use Rattle.read_engine.specs.Position.{rows_now};

use crate::{Consumer, IndexFault};
use hol_io::Steps;
use hol_varint::{List, Ordinals};
use key_index::KeyIndex;
use row_model::Values;
use schema_model::{MAX_INDEXES, Path, Paths};
use std::alloc::{AllocError, Global};
use std::sync::ledger::Ledger;

/// The indexes that are kept, by their numbers.
pub(crate) type KeyIndexes = List<KeyIndex>;

impl Consumer {
    /// Keeps an index of the rows of a type by the values at the ends of paths, and answers its number: its place among the indexes. One that
    /// is kept already is left as it is.
    ///
    /// `TooMany` comes where it is not kept and there are 16 others. After a fault everything is as before. A step is counted for each live row
    /// of the type where the index is made.
    pub fn add_index<L: Ledger>(
        &mut self,
        type_index: u32,
        paths: Paths,
        steps: &mut Steps<L>,
    ) -> Result<u32, IndexFault>
        requires type_there { IsSomeAnd self.old (λ position. type_index < length position.schemas) }
        requires resolved { IsSomeAnd self.old (λ position. All (IsResolved position.schemas type_index) paths) }
        ensures added { IfOk result (λ number. IsSomeAnd self.old (λ from. IsSomeAnd self.new (λ to. AddsIndex (index_by type_index paths) from to number))) }
        ensures counted { OnOk result (IsSomeAnd self.old (λ from. CountsAdded from (index_by type_index paths) steps.old steps.new)) }
        ensures many { (result ≡ Err IndexFault.TooMany) ↔ IsSomeAnd self.old (λ from. HasNoRoom from (index_by type_index paths)) }
        ensures refused { OnErr result (self.new ≡ self.old) }
    {
        if let Some(number) = self.index_of(type_index, &paths) {
            return Ok(number);
        }
        let number = self.indexes.len() as u32;
        if u64::from(number) >= MAX_INDEXES {
            return Err(IndexFault::TooMany);
        }
        let index = self.build_index(type_index, paths, steps)?;
        self.indexes.push(index)?;
        Ok(number)
    }

    /// The number of the index of a type by these paths, if it is kept. It takes no memory.
    pub fn index_of(&self, type_index: u32, paths: &Paths) -> Option<u32>
        requires { IsSome self.now }
        ensures { IsSomeAnd self.now (λ position. MatchOption result (¬ Contains position.indexes (index_by type_index paths.now))
            (λ number. slice_get position.indexes number ≡ Some (index_by type_index paths.now))) }
    {
        place_of(self.indexes.as_slice(), type_index, paths)
    }

    /// The type and the paths of an index, or none where none is kept under the number.
    pub fn index_at(&self, index: u32) -> Option<(u32, &Paths)>
        requires { IsSome self.now }
        ensures { IsSomeAnd self.now (λ position. MatchOption result (slice_get position.indexes index ≡ None)
            (λ found. slice_get position.indexes index ≡ Some (index_by found.0 found.1.now))) }
    {
        let kept = self.indexes.as_slice().get(index as usize)?;
        Some((kept.type_index(), kept.paths()))
    }

    /// How many rows have a key of an index: no null stands on one of its paths.
    pub fn keyed(&self, index: u32) -> u64
        requires { IsSomeAnd self.now (λ position. index < length position.indexes) }
        ensures { IsSomeAnd self.now (λ position. IsSomeAnd (slice_get position.indexes index) (λ kept. CountsKeyed position kept result)) }
    {
        self.indexes.get(index as usize).keyed()
    }

    /// The ordinals of the rows that have a key of an index, rising. It costs its answer, and no walk over the rows.
    pub fn find(&self, index: u32, key: &Values) -> Result<Ordinals, AllocError>
        requires { IsSomeAnd self.now (λ position. index < length position.indexes) }
        ensures { IfOk result (λ ordinals. IsSomeAnd self.now (λ position. IsSomeAnd (slice_get position.indexes index)
            (λ kept. AreMatches position.schemas (rows_now position) kept.type_index kept.paths key.now ordinals))) }
    {
        self.indexes.get(index as usize).matches(self.alloc, key)
    }

    // An index of the rows of a type by some paths.
    fn build_index<L: Ledger>(
        &self,
        type_index: u32,
        paths: Paths,
        steps: &mut Steps<L>,
    ) -> Result<KeyIndex, AllocError>
        requires type_there { IsSomeAnd self.now (λ position. type_index < length position.schemas) }
        requires resolved { IsSomeAnd self.now (λ position. All (IsResolved position.schemas type_index) paths) }
        ensures kept { IfOk result (λ index. IsSomeAnd self.now (λ position. IsKept position.schemas (rows_now position) index × (index_kept index ≡ index_by type_index paths))) }
        ensures counted { OnOk result (IsSomeAnd self.now (λ position. CountsLive (rows_now position) type_index steps.old steps.new)) }
    {
        KeyIndex::build(self.alloc, &self.now(), type_index, paths, steps)
    }
}

// The place of the index of a type by some paths.
fn place_of(indexes: &[KeyIndex], type_index: u32, paths: &Paths) -> Option<u32>
    requires { length indexes.now < 2 ^ 32 }
    ensures { MatchOption result (¬ Contains (map index_kept indexes.now) (index_by type_index paths.now))
        (λ number. slice_get (map index_kept indexes.now) number ≡ Some (index_by type_index paths.now)) }
{
    for place in 0..indexes.len() {
        if is_index_by(&indexes[place], type_index, paths) {
            return Some(place as u32);
        }
    }
    None
}

// Whether it is the index of a type by some paths.
fn is_index_by(index: &KeyIndex, type_index: u32, paths: &Paths) -> bool
    ensures { IsTrue result ↔ (index_kept index.now ≡ index_by type_index paths.now) }
{
    index.type_index() == type_index && are_same(index.paths().as_slice(), paths.as_slice())
}

// Whether these are the same paths.
fn are_same(paths: &[Path], others: &[Path]) -> bool
    ensures { IsTrue result ↔ (paths.now ≡ others.now) }
{
    if paths.len() != others.len() {
        return false;
    }
    for place in 0..paths.len() {
        if !is_same(&paths[place], &others[place]) {
            return false;
        }
    }
    true
}

// Whether these are the same path.
fn is_same(path: &Path, other: &Path) -> bool
    ensures { IsTrue result ↔ (path.now ≡ other.now) }
{
    path.type_index == other.type_index && path.fields.as_slice() == other.fields.as_slice()
}
