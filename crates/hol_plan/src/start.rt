//! From where a plan's deltas lead on, and the names along shortest ways.
ghost use Rattle.std.specs.Prelude.{◌≡◌, ℕ, List, ◌++◌, IfOk, OnOk, IsSome};
ghost use Rattle.std.specs.List.Sorted.{IsStrictlyIncreasing};
ghost use Rattle.hol_io.specs.declared.name.BlobName.{BlobName};
ghost use Rattle.hol_plan.specs.Start.{Begins, Descend, IsNearer, IsNearest, IsPath, IsWalkOf, TellsOwn, TellsSnapshot, TellsStart, first_of, start_of};
ghost use Rattle.hol_plan.specs.Ways.{way_at};

use crate::steps::{Step, place};
use crate::ways::{Way, found};
use hol_io::BlobName;
use hol_varint::List;
use std::alloc::{AllocError, Global};

/// A version from which deltas lead to the end.
#[derive(Clone, Copy)]
pub(crate) struct Start {
    pub(crate) version: u64,
    pub(crate) place: usize,
    /// How many deltas lead on.
    pub(crate) distance: usize,
}

/// How a walk begins.
#[derive(Clone, Copy)]
pub(crate) enum Begin {
    /// At the version that it leads from.
    Own(Start),
    /// By the snapshot of a version.
    Behind(Start),
}

// The start at a version; none where it is not among the versions, or no deltas lead on from it to the end.
fn start_at(versions: &[u64], ways: &[Option<Way>], version: u64) -> Option<Start>
    requires { IsStrictlyIncreasing versions.now }
    ensures { TellsStart versions.now (way_at ways.now) version result }
{
    let place = place(versions, version)?;
    let way = found(ways, place)?;
    Some(Start {
        version,
        place,
        distance: way.distance,
    })
}

/// The start at the version that a walk is to lead from.
pub(crate) fn own_start(versions: &[u64], ways: &[Option<Way>], from: Option<u64>) -> Option<Start>
    requires { IsStrictlyIncreasing versions.now }
    ensures { TellsOwn versions.now (way_at ways.now) from result }
{
    start_at(versions, ways, from?)
}

// The start behind a name, where it is of a snapshot.
#[tactic(auto, using(crate::proofs::Nearest::snapshot_tells))]
fn snapshot_start(versions: &[u64], ways: &[Option<Way>], name: &BlobName) -> Option<Start>
    requires { IsStrictlyIncreasing versions.now }
    ensures { TellsSnapshot versions.now (way_at ways.now) name.now result }
{
    match *name {
        BlobName::Snapshot(version) => start_at(versions, ways, version),
        _ => None,
    }
}

// The start with fewer deltas, of two with as many that of the lower version.
fn nearer(nearest: Option<Start>, start: Start) -> Start
    ensures { IsNearer nearest start result }
{
    match nearest {
        Some(nearest)
            if nearest.distance < start.distance
                || nearest.distance == start.distance && nearest.version <= start.version => {
            nearest
        }
        _ => start,
    }
}

/// The start behind a listed snapshot from which the fewest deltas lead on.
pub(crate) fn nearest_snapshot(
    blobs: &[BlobName],
    versions: &[u64],
    ways: &[Option<Way>],
) -> Option<Start>
    requires { IsStrictlyIncreasing versions.now }
    ensures { IsNearest blobs.now versions.now (way_at ways.now) result }
{
    let mut nearest = None;
    for name in blobs {
        if let Some(start) = snapshot_start(versions, ways, name) {
            nearest = Some(nearer(nearest, start));
        }
    }
    nearest
}

/// Whether to begin at the version itself or by a snapshot: what takes fewer names.
pub(crate) fn choose(own: Option<Start>, nearest: Option<Start>) -> Option<Begin>
    ensures { Begins own nearest result }
{
    match (own, nearest) {
        (Some(own), Some(nearest)) if nearest.distance < own.distance => {
            Some(Begin::Behind(nearest))
        }
        (Some(own), _) => Some(Begin::Own(own)),
        (None, Some(nearest)) => Some(Begin::Behind(nearest)),
        (None, None) => None,
    }
}

// The first step of the way from a place.
fn first_step(ways: &[Option<Way>], place: usize) -> Option<Step>
    ensures { result ≡ first_of (way_at ways.now place) }
{
    found(ways, place)?.first
}

// Adds the names along the ways from a place.
fn follow(ways: &[Option<Way>], start: usize, names: &mut List<BlobName>) -> Result<(), AllocError>
    requires descend { Descend (way_at ways.now) }
    requires found { IsSome (way_at ways.now start) }
    ensures { OnOk result ((rest : List BlobName) × ((names.new ≡ names.old ++ rest) × IsPath (way_at ways.now) start rest)) }
{
    let mut place = start;
    while let Some(step) = first_step(ways, place) {
        names.push(step.name)?;
        place = step.end;
    }
    Ok(())
}

/// The names of the walk that begins so.
pub(crate) fn walk(
    alloc: Global,
    ways: &[Option<Way>],
    begin: Begin,
) -> Result<List<BlobName>, AllocError>
    requires descend { Descend (way_at ways.now) }
    requires found { IsSome (way_at ways.now (start_of begin).place) }
    ensures { IfOk result (IsWalkOf (way_at ways.now) begin) }
{
    let mut names = List::new(alloc);
    match begin {
        Begin::Own(start) => follow(ways, start.place, &mut names)?,
        Begin::Behind(start) => {
            names.push(BlobName::Snapshot(start.version))?;
            follow(ways, start.place, &mut names)?;
        }
    }
    Ok(names)
}
