//! The plan: which blobs lead from one version to another.
ghost use Rattle.std.specs.Prelude.{◌≡◌, ◌↔◌, ℕ, List, All, IfOk, None};
ghost use Rattle.hol_io.specs.declared.name.BlobName.{BlobName};
ghost use Rattle.hol_plan.specs.Start.{AreWaysOver};
ghost use Rattle.hol_plan.specs.Steps.{HasVersions};
ghost use Rattle.hol_plan.specs.Walk.{IsWalk, TellsPlan};
ghost use Rattle.hol_plan.specs.Ways.{way_at};

use crate::start::{choose, nearest_snapshot, own_start, walk};
use crate::steps::{place, steps_of, versions_of};
use crate::ways::{Way, ways_to};
use hol_io::BlobName;
use hol_varint::List;
use std::alloc::{AllocError, Global};

/// Names of blobs: those that a store lists, or those by which a version is reached, in the order in which they are taken.
pub type BlobNames = List<BlobName>;

// Shortest ways to a version over the listed deltas.
fn ways_over(
    alloc: Global,
    blobs: &[BlobName],
    versions: &[u64],
    to: u64,
) -> Result<Vec<Option<Way>>, AllocError>
    requires { HasVersions blobs.now to versions.now }
    ensures { IfOk result (λ ways. AreWaysOver blobs.now to versions.now (way_at ways.items)) }
{
    let steps = steps_of(alloc, blobs, versions)?;
    let end = place(versions, to).unwrap();
    ways_to(alloc, &steps, versions.len(), end)
}

/// The fewest of the blobs that lead from a version, or from none, to another, in the order in which they are applied: a snapshot
/// leads from every version and from none to its own, a delta and a reverse delta from their first version to their second. Of as few,
/// those whose names come first in the order in which a store lists names. `None` comes exactly where none lead there.
pub fn plan(
    alloc: Global,
    blobs: &BlobNames,
    from: Option<u64>,
    to: u64,
) -> Result<Option<BlobNames>, AllocError>
    ensures plan { IfOk result (TellsPlan blobs.now from to) }
    ensures none { IfOk result (λ plan. (plan ≡ None) ↔ ((walk : List BlobName) → ¬ IsWalk blobs.now from to walk)) }
{
    let blobs = blobs.as_slice();
    let versions = versions_of(alloc, blobs, to)?;
    let ways = ways_over(alloc, blobs, &versions, to)?;
    let own = own_start(&versions, &ways, from);
    match choose(own, nearest_snapshot(blobs, &versions, &ways)) {
        Some(begin) => Ok(Some(walk(alloc, &ways, begin)?)),
        None => Ok(None),
    }
}
