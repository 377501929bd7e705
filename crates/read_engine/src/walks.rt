//! The walk indexes that a consumer keeps over the rows of its state.
ghost use Rattle.std.specs.Prelude.{◌≡◌, ◌<◌, ◌^◌, ◌↔◌, Contains, Err, IfOk, IsSome, IsSomeAnd, IsTrue, MatchOption, None, OnErr, OnOk, Some, length, map, slice_get};
ghost use Rattle.hol_varint.specs.Yields.{Yields};
ghost use Rattle.row_model.specs.Reach.{AreWalkMatches};
ghost use Rattle.key_index.specs.Indexed.{CountsLive};
ghost use Rattle.hol_paths.specs.Walked.{HasManyEntries, IsFree};
ghost use Rattle.hol_paths.specs.declared.fault.WalkFault.{WalkFault as Fault};
ghost use Rattle.read_engine.specs.Kept.{IsWalkKept, paths_of};
ghost use Rattle.read_engine.specs.Position.{IsWalkOf, rows_now};
ghost use Rattle.read_engine.specs.Walks.{AddsWalk, CountsWalkAdded, CountsWalked, HasNoWalkRoom, IsFreeWalk, PassesEntries};

use crate::{Consumer, WalkIndexFault};
use hol_io::Steps;
use hol_paths::{WalkFault, WalkIndex};
use hol_varint::{List, Ordinals};
use row_model::Value;
use schema_model::{MAX_WALKS, WalkPath};
use std::alloc::AllocError;
use std::sync::ledger::Ledger;

/// The walk indexes that are kept, by their numbers.
pub(crate) type WalkIndexes = List<WalkIndex>;

impl Consumer {
    /// Keeps an index of the rows of a path's type by the values that they reach along it, and answers its number: its place among the walk indexes. One
    /// that is kept already is left as it is.
    ///
    /// `TooMany` comes where it is not kept and there are 16 others, and `Entries` where it is not kept, there is room for it, and it would have more than 2^22
    /// entries, pairs of a row and a value that it reaches. After a fault everything is as before. A step is counted for each live row of the type where the
    /// index is made.
    pub fn add_walk<L: Ledger>(
        &mut self,
        path: WalkPath,
        steps: &mut Steps<L>,
    ) -> Result<u32, WalkIndexFault>
        requires { IsSomeAnd self.old (λ position. IsWalkOf position.schemas path) }
        ensures added { IfOk result (λ number. IsSomeAnd self.old (λ from. IsSomeAnd self.new (λ to. AddsWalk path from to number))) }
        ensures counted { OnOk result (IsSomeAnd self.old (λ from. CountsWalkAdded from path steps.old steps.new)) }
        ensures many { (result ≡ Err WalkIndexFault.TooMany) ↔ IsSomeAnd self.old (λ from. HasNoWalkRoom from path) }
        ensures entries { Yields IsFreeWalk result (Err WalkIndexFault.Entries) (IsSomeAnd self.old (λ from. PassesEntries from path)) }
        ensures refused { OnErr result (self.new ≡ self.old) }
    {
        if let Some(number) = self.walk_of(&path) {
            return Ok(number);
        }
        let number = self.walks.len() as u32;
        if u64::from(number) >= MAX_WALKS {
            return Err(WalkIndexFault::TooMany);
        }
        let index = self.build_walk(path, steps)?;
        self.walks.push(index)?;
        Ok(number)
    }

    /// The number of the walk index of a path, if it is kept. It takes no memory.
    pub fn walk_of(&self, path: &WalkPath) -> Option<u32>
        requires { IsSome self.now }
        ensures { IsSomeAnd self.now (λ position. MatchOption result (¬ Contains position.walks path.now) (λ number. slice_get position.walks number ≡ Some path.now)) }
    {
        place_of(self.walks.as_slice(), path)
    }

    /// How many rows reach a value along the path of a walk index.
    pub fn walk_keyed(&self, walk: u32) -> u64
        requires { IsSomeAnd self.now (λ position. walk < length position.walks) }
        ensures { IsSomeAnd self.now (λ position. IsSomeAnd (slice_get position.walks walk) (λ path. CountsWalked position path result)) }
    {
        self.walks.get(walk as usize).keyed()
    }

    /// The ordinals of the rows that reach a value along the path of a walk index, rising. It costs its answer, and no walk over the rows.
    pub fn walk_find(&self, walk: u32, value: &Value) -> Result<Ordinals, AllocError>
        requires { IsSomeAnd self.now (λ position. walk < length position.walks) }
        ensures { IfOk result (λ ordinals. IsSomeAnd self.now (λ position. IsSomeAnd (slice_get position.walks walk)
            (λ path. AreWalkMatches position.schemas (rows_now position) path.type_index path.parts value.now ordinals))) }
    {
        self.walks.get(walk as usize).matches(self.alloc, value)
    }

    // A walk index of the rows along a path.
    fn build_walk<L: Ledger>(
        &self,
        path: WalkPath,
        steps: &mut Steps<L>,
    ) -> Result<WalkIndex, WalkFault>
        requires { IsSomeAnd self.now (λ position. IsWalkOf position.schemas path) }
        ensures kept { IfOk result (λ index. IsSomeAnd self.now (λ position. IsWalkKept position.schemas (rows_now position) index × (index.path ≡ path))) }
        ensures many { Yields IsFree result (Err Fault.Entries) (IsSomeAnd self.now (λ position. HasManyEntries position.schemas (rows_now position) path.type_index path.parts)) }
        ensures counted { OnOk result (IsSomeAnd self.now (λ position. CountsLive (rows_now position) path.type_index steps.old steps.new)) }
    {
        WalkIndex::build(self.alloc, &self.now(), path, steps)
    }
}

// The place of the walk index of a path.
fn place_of(walks: &[WalkIndex], path: &WalkPath) -> Option<u32>
    requires { length walks.now < 2 ^ 32 }
    ensures { MatchOption result (¬ Contains (paths_of walks.now) path.now) (λ number. slice_get (paths_of walks.now) number ≡ Some path.now) }
{
    for place in 0..walks.len() {
        if is_same(walks[place].path(), path) {
            return Some(place as u32);
        }
    }
    None
}

// Whether this is the same walk path.
fn is_same(path: &WalkPath, other: &WalkPath) -> bool
    ensures { IsTrue result ↔ (path.now ≡ other.now) }
{
    path.type_index == other.type_index && path.parts.as_slice() == other.parts.as_slice()
}
