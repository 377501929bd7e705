//! Shortest ways to the end over steps, found level by level from the end.
ghost use Rattle.std.specs.Prelude.{◌≡◌, ℕ, ◌+◌, ◌-◌, ◌<◌, ◌≤◌, List, [], take, drop, All, Contains, IfOk, OnOk, length, IsTrue, ◌↔◌};
ghost use Rattle.std.specs.List.Sorted.{IsNonDecreasingBy};
ghost use Rattle.hol_plan.specs.Ways.{AreWays, IsBefore, IsChosen, IsFront, IsGroup, Reaches, unreached, way_at};

use crate::steps::Step;
use hol_io::BlobName;
use std::alloc::{AllocError, Global};

/// A shortest way over steps from a place to the end.
#[derive(Clone, Copy)]
pub(crate) struct Way {
    /// How many steps it has.
    pub(crate) distance: usize,
    /// The first of them, which has the first name of those that begin such a way. At the end there is none.
    pub(crate) first: Option<Step>,
}

// Whether a name comes before that of a step.
fn is_before(name: &BlobName, step: &Option<Step>) -> bool
    ensures { IsTrue result ↔ IsBefore name.now step.now }
{
    match step {
        Some(step) => *name < step.name,
        None => false,
    }
}

// Which way to keep, where a step begins one of so many steps.
fn chosen(way: Option<Way>, step: &Step, distance: usize) -> Way
    ensures { IsChosen step.now distance way result }
{
    match way {
        Some(way) if way.distance != distance || !is_before(&step.name, &way.first) => way,
        _ => Way {
            distance,
            first: Some(*step),
        },
    }
}

// Between which indexes the steps that lead to a place stand.
fn bounds(steps: &[Step], place: usize) -> (usize, usize)
    requires { IsNonDecreasingBy (λ step. step.end) steps.now }
    ensures order { result.0 ≤ result.1 }
    ensures within { result.1 ≤ length steps.now }
    ensures group { IsGroup steps.now place (take (result.1 - result.0) (drop result.0 steps.now)) }
{
    let first = steps.partition_point(|step| step.end < place);
    let behind = steps.partition_point(|step| step.end <= place);
    (first, behind)
}

// The steps that lead to a place.
fn steps_to(steps: &[Step], place: usize) -> &[Step]
    requires { IsNonDecreasingBy (λ step. step.end) steps.now }
    ensures { IsGroup steps.now place result.now }
{
    let (first, behind) = bounds(steps, place);
    &steps[first..behind]
}

/// The way that was found from a place; none where none was, or where there is no such place.
pub(crate) fn found(ways: &[Option<Way>], place: usize) -> Option<Way>
    ensures { result ≡ way_at ways.now place }
{
    *ways.get(place)?
}

// Finds the ways of so many steps that begin by one of a group. The places that had none are added to `next`.
fn reach(
    group: &[Step],
    distance: usize,
    ways: &mut Vec<Option<Way>>,
    next: &mut Vec<usize>,
) -> Result<(), AllocError>
    requires { All (λ step. step.begin < length ways.old.items) group.now }
    ensures len { length ways.new.items ≡ length ways.old.items }
    ensures count { OnOk result (unreached ways.new.items + length next.new.items ≡ unreached ways.old.items + length next.old.items) }
    ensures front { OnOk result ((steps : List Step) (end : ℕ) (level : List ℕ) → IsFront steps end distance level (way_at ways.old.items) next.old.items
        → All (λ step. Contains steps step × Contains level step.end) group.now
        → Reaches steps end distance level group.now (way_at ways.old.items) (way_at ways.new.items) next.new.items) }
{
    for step in group {
        let way = ways[step.begin];
        if way.is_none() {
            next.push(step.begin)?;
        }
        ways[step.begin] = Some(chosen(way, step, distance));
    }
    Ok(())
}

// The places from which the shortest way has so many steps, where `level` has those of one step less.
fn next_level(
    alloc: Global,
    steps: &[Step],
    level: &[usize],
    distance: usize,
    ways: &mut Vec<Option<Way>>,
) -> Result<Vec<usize>, AllocError>
    requires grouped { IsNonDecreasingBy (λ step. step.end) steps.now }
    requires within { All (λ step. step.begin < length ways.old.items) steps.now }
    ensures len { length ways.new.items ≡ length ways.old.items }
    ensures count { IfOk result (λ next. unreached ways.new.items + length next.items ≡ unreached ways.old.items) }
    ensures front { IfOk result (λ next. (end : ℕ) → IsFront steps.now end distance level.now (way_at ways.old.items) []
        → IsFront steps.now end (distance + 1) next.items (way_at ways.new.items) []) }
{
    let mut next = Vec::new(alloc);
    for place in level {
        reach(steps_to(steps, *place), distance, ways, &mut next)?;
    }
    Ok(next)
}

/// Shortest ways from all places to the end.
pub(crate) fn ways_to(
    alloc: Global,
    steps: &[Step],
    places: usize,
    end: usize,
) -> Result<Vec<Option<Way>>, AllocError>
    requires grouped { IsNonDecreasingBy (λ step. step.end) steps.now }
    requires within { All (λ step. step.begin < places) steps.now }
    requires end { end < places }
    ensures ways { IfOk result (λ ways. AreWays steps.now end (way_at ways.items)) }
    ensures len { IfOk result (λ ways. length ways.items ≡ places) }
{
    let mut ways = Vec::new(alloc);
    ways.resize(places, None)?;
    ways[end] = Some(Way {
        distance: 0,
        first: None,
    });
    let mut level = vec![in alloc; end]?;
    let mut distance = 0;
    'levels: while !level.is_empty() {
        distance += 1;
        level = next_level(alloc, steps, &level, distance, &mut ways)?;
    }
    Ok(ways)
}
