//! The versions of deltas, and deltas as steps between the places of their versions.
ghost use Rattle.std.specs.Prelude.{◌≡◌, ℕ, All, Contains, IfOk, MatchOption, Some, None, slice_get};
ghost use Rattle.std.specs.List.Sorted.{IsStrictlyIncreasing};
ghost use Rattle.hol_plan.specs.Steps.{AreSteps, HasEnds, HasVersions, Joins, ends_of};

use hol_io::BlobName;
use std::alloc::{AllocError, Global};

/// A delta or a reverse delta, which leads from the version at one place to that at another.
#[derive(Clone, Copy)]
pub(crate) struct Step {
    pub(crate) begin: usize,
    pub(crate) end: usize,
    pub(crate) name: BlobName,
}

// The versions from and to which a delta or a reverse delta leads.
fn ends(name: &BlobName) -> Option<(u64, u64)>
    ensures { result ≡ ends_of name.now }
{
    match *name {
        BlobName::Delta(begin, end) | BlobName::Reverse(begin, end) => Some((begin, end)),
        BlobName::Snapshot(_) | BlobName::Announced => None,
    }
}

/// The place of a version among versions that rise.
pub(crate) fn place(versions: &[u64], version: u64) -> Option<usize>
    requires { IsStrictlyIncreasing versions.now }
    ensures { MatchOption result (¬ Contains versions.now version) (λ place. slice_get versions.now place ≡ Some version) }
{
    versions.binary_search(&version).ok()
}

/// The versions between which deltas lead, and the one to which all is to lead, rising.
pub(crate) fn versions_of(
    alloc: Global,
    blobs: &[BlobName],
    to: u64,
) -> Result<Vec<u64>, AllocError>
    ensures { IfOk result (λ versions. HasVersions blobs.now to versions.items) }
{
    let mut versions = Vec::new(alloc);
    versions.push(to)?;
    for name in blobs {
        if let Some((begin, end)) = ends(name) {
            versions.push(begin)?;
            versions.push(end)?;
        }
    }
    versions.sort()?;
    versions.dedup();
    Ok(versions)
}

// The step that a delta or a reverse delta is.
fn step_of(versions: &[u64], name: &BlobName) -> Option<Step>
    requires rising { IsStrictlyIncreasing versions.now }
    requires ends { HasEnds versions.now name.now }
    ensures { MatchOption result (ends_of name.now ≡ None) (λ step. (step.name ≡ name.now) × Joins versions.now step) }
{
    let (begin, end) = ends(name)?;
    Some(Step {
        begin: place(versions, begin)?,
        end: place(versions, end)?,
        name: *name,
    })
}

/// All deltas and reverse deltas as steps, in the order of the places to which they lead.
pub(crate) fn steps_of(
    alloc: Global,
    blobs: &[BlobName],
    versions: &[u64],
) -> Result<Vec<Step>, AllocError>
    requires rising { IsStrictlyIncreasing versions.now }
    requires deltas { All (HasEnds versions.now) blobs.now }
    ensures { IfOk result (λ steps. AreSteps blobs.now versions.now steps.items) }
{
    let mut steps = Vec::new(alloc);
    for name in blobs {
        if let Some(step) = step_of(versions, name) {
            steps.push(step)?;
        }
    }
    steps.sort_by_key(|step| step.end)?;
    Ok(steps)
}
