//! The check of a chain.
ghost use Rattle.std.specs.Prelude.{◌≡◌, ◌≢◌, ◌≤◌, ◌<◌, ℕ, None, Some, Ok, Err, Option, IfErr, IfOk, IfSome, OnOk, length, slice_index, take};
ghost use Rattle.std.specs.List.{last_or};
ghost use Rattle.hol_io.specs.Causes.{Rose};
ghost use Rattle.hol_io.specs.Name.{step_name};
ghost use Rattle.hol_varint.specs.Yields.{Yields};
ghost use Rattle.schema_model.specs.declared.schema.name.Name.{Name};
ghost use Rattle.chain_check.specs.Walk.{Both, Differs, IsFree, IsStoreOr, NeighboursDiffer, Passes, TellsCheck, TellsFresh, TellsVersion, calls_by, compared_in};

use crate::{Place, Walk, compare};
use hol_io::{BlobName, BlobStore, StoreFailed};
use schema_model::Name;
use std::alloc::{AllocError, Global};

/// Why a check of a chain ends before its last version.
#[derive(Debug, Drop)]
pub enum CheckFault<F> {
    /// A load or a step was refused: the blob that it asked for, and why.
    Walk(BlobName, F),
    /// At this version the walked state is not that of the snapshot: the type where they differ, and the ordinal of the row. There is no ordinal
    /// where the types differ, and no type either where the tags do.
    Mismatch(u64, Option<Name>, Option<u32>),
    /// The store failed where it was asked for the snapshot of a version.
    Store,
    /// Memory was refused.
    Memory,
}

/// Walks over versions, and compares what the walk led to with what the snapshot holds, at each of them whose snapshot the store has. The walker loads the
/// first version and is led from each to the next one; the fresh one loads the snapshots.
///
/// The answer is at how many versions they were compared, where they are the same at each of these. `Mismatch` names the first version where they are not,
/// and the place that `compare` gives there. `Walk` is the first refusal of a call, with the name of the blob that this call asked for. `Store` comes only
/// where the store's count of faults rose.
pub fn check<W: Walk, S: BlobStore>(
    alloc: Global,
    walker: &mut W,
    fresh: &mut W,
    store: &mut S,
    versions: &[u64],
) -> Result<u64, CheckFault<W::Fault>>
    requires some { 0 < length versions.now }
    requires apart { NeighboursDiffer versions.now }
    ensures tells { TellsCheck (calls_by W.loads W.steps W.tag W.schemas W.table) (S.seen store.old).held versions.now
        (record { walker = walker.old; fresh = fresh.old }) (record { walker = walker.new; fresh = fresh.new }) result }
    ensures passes { IfSome (S.seen store.old).held (λ held. Yields IsFree result (Ok (compared_in held versions.now))
        ((now : Both W) × Passes (calls_by W.loads W.steps W.tag W.schemas W.table) (Some held) None versions.now (record { walker = walker.old; fresh = fresh.old }) now)) }
    ensures differs { (version : ℕ) (type_name : Option Name) (ordinal : Option ℕ) → IfSome (S.seen store.old).held (λ held. Yields IsFree result (Err (CheckFault.Mismatch version type_name ordinal))
        ((now : Both W) × Differs (calls_by W.loads W.steps W.tag W.schemas W.table) (Some held) versions.now (record { walker = walker.old; fresh = fresh.old }) version type_name ordinal now)) }
    ensures cause { IfErr result (λ fault. IsStoreOr W.is_failure fault → Rose (S.seen store.old).faults (S.seen store.new).faults) }
    ensures kept { (S.seen store.new).held ≡ (S.seen store.old).held }
    ensures later { (S.seen store.old).faults ≤ (S.seen store.new).faults }
    ensures unput { (S.seen store.new).puts ≡ (S.seen store.old).puts }
{
    check_each(alloc, walker, fresh, store, versions)
}

// Leads the walker over versions, and compares it with the fresh one at each of them whose snapshot the store has: gives at how many, or the fault that `check`
// tells of.
fn check_each<W: Walk, S: BlobStore>(
    alloc: Global,
    walker: &mut W,
    fresh: &mut W,
    store: &mut S,
    versions: &[u64],
) -> Result<u64, CheckFault<W::Fault>>
    requires { NeighboursDiffer versions.now }
    ensures tells { TellsCheck (calls_by W.loads W.steps W.tag W.schemas W.table) (S.seen store.old).held versions.now
        (record { walker = walker.old; fresh = fresh.old }) (record { walker = walker.new; fresh = fresh.new }) result }
    ensures counted { IfOk result (λ compared. IfSome (S.seen store.old).held (λ held. compared ≡ compared_in held versions.now)) }
    ensures cause { IfErr result (λ fault. IsStoreOr W.is_failure fault → Rose (S.seen store.old).faults (S.seen store.new).faults) }
    ensures kept { (S.seen store.new).held ≡ (S.seen store.old).held }
    ensures later { (S.seen store.old).faults ≤ (S.seen store.new).faults }
    ensures unput { (S.seen store.new).puts ≡ (S.seen store.old).puts }
{
    let mut compared = 0;
    for place in 0..versions.len() {
        if visit(alloc, walker, fresh, store, versions, place)? {
            compared += 1;
        }
    }
    Ok(compared)
}

// The call that leads the walk to the version at a place, and the comparison there.
fn visit<W: Walk, S: BlobStore>(
    alloc: Global,
    walker: &mut W,
    fresh: &mut W,
    store: &mut S,
    versions: &[u64],
    place: usize,
) -> Result<bool, CheckFault<W::Fault>>
    requires apart { NeighboursDiffer versions.now }
    requires inside { place < length versions.now }
    requires loaded { 0 < place → W.is_loaded walker.old }
    ensures tells { TellsVersion (calls_by W.loads W.steps W.tag W.schemas W.table) (S.seen store.old).held (last_or None (take place versions.now)) (slice_index versions.now place)
        (record { walker = walker.old; fresh = fresh.old }) (record { walker = walker.new; fresh = fresh.new }) result }
    ensures loaded { OnOk result (W.is_loaded walker.new) }
    ensures cause { IfErr result (λ fault. IsStoreOr W.is_failure fault → Rose (S.seen store.old).faults (S.seen store.new).faults) }
    ensures kept { (S.seen store.new).held ≡ (S.seen store.old).held }
    ensures later { (S.seen store.old).faults ≤ (S.seen store.new).faults }
    ensures unput { (S.seen store.new).puts ≡ (S.seen store.old).puts }
{
    if place == 0 {
        begin(alloc, walker, fresh, store, versions[0])
    } else {
        go_on(
            alloc,
            walker,
            fresh,
            store,
            versions[place - 1],
            versions[place],
        )
    }
}

// The walk's load of the first version, and the comparison there.
fn begin<W: Walk, S: BlobStore>(
    alloc: Global,
    walker: &mut W,
    fresh: &mut W,
    store: &mut S,
    version: u64,
) -> Result<bool, CheckFault<W::Fault>>
    ensures tells { TellsVersion (calls_by W.loads W.steps W.tag W.schemas W.table) (S.seen store.old).held None version
        (record { walker = walker.old; fresh = fresh.old }) (record { walker = walker.new; fresh = fresh.new }) result }
    ensures loaded { OnOk result (W.is_loaded walker.new) }
    ensures cause { IfErr result (λ fault. IsStoreOr W.is_failure fault → Rose (S.seen store.old).faults (S.seen store.new).faults) }
    ensures kept { (S.seen store.new).held ≡ (S.seen store.old).held }
    ensures later { (S.seen store.old).faults ≤ (S.seen store.new).faults }
    ensures unput { (S.seen store.new).puts ≡ (S.seen store.old).puts }
{
    match walker.walk_load(store, version) {
        Err(fault) => Err(CheckFault::Walk(BlobName::Snapshot(version), fault)),
        Ok(()) => compare_afresh(alloc, walker, fresh, store, version),
    }
}

// The walk's step to the next version, and the comparison there.
fn go_on<W: Walk, S: BlobStore>(
    alloc: Global,
    walker: &mut W,
    fresh: &mut W,
    store: &mut S,
    from: u64,
    to: u64,
) -> Result<bool, CheckFault<W::Fault>>
    requires loaded { W.is_loaded walker.old }
    requires apart { from ≢ to }
    ensures tells { TellsVersion (calls_by W.loads W.steps W.tag W.schemas W.table) (S.seen store.old).held (Some from) to
        (record { walker = walker.old; fresh = fresh.old }) (record { walker = walker.new; fresh = fresh.new }) result }
    ensures loaded { W.is_loaded walker.new }
    ensures cause { IfErr result (λ fault. IsStoreOr W.is_failure fault → Rose (S.seen store.old).faults (S.seen store.new).faults) }
    ensures kept { (S.seen store.new).held ≡ (S.seen store.old).held }
    ensures later { (S.seen store.old).faults ≤ (S.seen store.new).faults }
    ensures unput { (S.seen store.new).puts ≡ (S.seen store.old).puts }
{
    match walker.walk_step(store, from, to) {
        Err(fault) => Err(CheckFault::Walk(BlobName::between(from, to), fault)),
        Ok(()) => compare_afresh(alloc, walker, fresh, store, to),
    }
}

// The fresh one's load of a version, and the comparison there, if the store has its snapshot. The answer is whether it has.
fn compare_afresh<W: Walk, S: BlobStore>(
    alloc: Global,
    walker: &W,
    fresh: &mut W,
    store: &mut S,
    version: u64,
) -> Result<bool, CheckFault<W::Fault>>
    ensures tells { TellsFresh (calls_by W.loads W.steps W.tag W.schemas W.table) (S.seen store.old).held version walker.now fresh.old fresh.new result }
    ensures cause { IfErr result (λ fault. IsStoreOr W.is_failure fault → Rose (S.seen store.old).faults (S.seen store.new).faults) }
    ensures kept { (S.seen store.new).held ≡ (S.seen store.old).held }
    ensures later { (S.seen store.old).faults ≤ (S.seen store.new).faults }
    ensures unput { (S.seen store.new).puts ≡ (S.seen store.old).puts }
{
    match store.size(&BlobName::Snapshot(version)) {
        Err(StoreFailed) => return Err(CheckFault::Store),
        Ok(None) => return Ok(false),
        Ok(Some(_)) => {}
    }
    if let Err(fault) = fresh.walk_load(store, version) {
        return Err(CheckFault::Walk(BlobName::Snapshot(version), fault));
    }
    match compare(alloc, walker, fresh) {
        Err(_) => Err(CheckFault::Memory),
        Ok(None) => Ok(true),
        Ok(Some(Place { type_name, ordinal })) => {
            Err(CheckFault::Mismatch(version, type_name, ordinal))
        }
    }
}
