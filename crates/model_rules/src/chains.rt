//! Chains of references from type to type: cycles, and depth.
ghost use Rattle.std.specs.Prelude.{◌≡◌, ◌<◌, ◌≤◌, ◌+◌, ℕ, length, map, IfOk};
ghost use Rattle.std.specs.List.{position};
ghost use Rattle.model_rules.specs.RuleTests.{TellsRule, chained, has_chained};
ghost use Rattle.schema_model.specs.Model.{type_graph};

use hol_varint::Ordinals;
use schema_model::{MAX_DEPTH, ModelFault, Rule, Schemas};
use std::alloc::{AllocError, Global};

/// Whether one of the indexes is marked.
fn has_marked(row: &[u32], marks: &[bool]) -> bool
    ensures { result ≡ has_chained marks.now row.now }
{
    row.iter().any(|type_index| marks.get(*type_index as usize).copied().unwrap_or(false))
}

/// The index of the first marked type; none where no type is marked.
fn first_mark(marks: &[bool]) -> Option<usize>
    ensures { result ≡ position (λ mark. mark) marks.now }
{
    marks.iter().position(|mark| *mark)
}

/// Marks the types that refer to a marked one.
fn next_marks(alloc: Global, graph: &[Ordinals], marks: &[bool]) -> Result<Vec<bool>, AllocError>
    ensures { IfOk result (λ next. next.items ≡ map (has_chained marks.now) graph.now) }
{
    let mut next = Vec::with_capacity(alloc, graph.len())?;
    for row in graph {
        next.push(has_marked(row.as_slice(), marks))?;
    }
    Ok(next)
}

/// Marks the types from which a chain of this many references can be followed.
#[tactic(auto, unfolding(crate::specs::RuleTests::chained))]
fn marks_after(alloc: Global, graph: &[Ordinals], count: u32) -> Result<Vec<bool>, AllocError>
    ensures { IfOk result (λ marks. marks.items ≡ chained graph.now count) }
{
    let mut marks = vec![in alloc; true; graph.len()]?;
    for round in 0..count {
        marks = next_marks(alloc, graph, marks.as_slice())?;
    }
    Ok(marks)
}

/// Marks the types from which chains of every length can be followed.
#[tactic(auto, unfolding(crate::specs::RuleTests::chained))]
fn endless_marks(alloc: Global, graph: &[Ordinals]) -> Result<Vec<bool>, AllocError>
    ensures { IfOk result (λ marks. (rounds : ℕ) × (marks.items ≡ chained graph.now rounds) × (chained graph.now (rounds + 1) ≡ chained graph.now rounds)) }
{
    let mut marks = vec![in alloc; true; graph.len()]?;
    loop {
        let next = next_marks(alloc, graph, marks.as_slice())?;
        if next == marks {
            return Ok(marks);
        }
        marks = next;
    }
}

/// Tries that no type's references lead into a cycle.
pub(crate) fn check_cycles(
    alloc: Global,
    schemas: &Schemas,
    graph: &[Ordinals],
) -> Result<(), ModelFault>
    requires graph { graph.now ≡ type_graph schemas.now }
    requires short { length schemas.now ≤ 512 }
    ensures { TellsRule schemas.now Rule.CyclicModel result }
{
    let marks = endless_marks(alloc, graph)?;
    match first_mark(marks.as_slice()) {
        Some(type_index) => Err(ModelFault::Broken(Rule::CyclicModel, type_index as u32)),
        None => Ok(()),
    }
}

/// Tries that no chain of references goes through too many types.
pub(crate) fn check_depth(
    alloc: Global,
    schemas: &Schemas,
    graph: &[Ordinals],
) -> Result<(), ModelFault>
    requires graph { graph.now ≡ type_graph schemas.now }
    requires short { length schemas.now ≤ 512 }
    ensures { TellsRule schemas.now Rule.TooDeep result }
{
    let marks = marks_after(alloc, graph, MAX_DEPTH)?;
    match first_mark(marks.as_slice()) {
        Some(type_index) => Err(ModelFault::Broken(Rule::TooDeep, type_index as u32)),
        None => Ok(()),
    }
}
