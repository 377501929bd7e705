//! From the types of a snapshot, as they stand in the blob, to their states.
ghost use Rattle.std.specs.Prelude.{◌≡◌, ◌<◌, All, IfErr, IfOk, MatchResult, length};
ghost use Rattle.std.specs.List.{AllZip};
ghost use Rattle.schema_model.specs.Model.{IsFirstBroken, IsModel};
ghost use Rattle.row_model.specs.Table.{IsClosed};
ghost use Rattle.type_state.specs.State.{empty_half};
ghost use Rattle.type_state.specs.Views.{AreNext, next_halves, table_of};
ghost use Rattle.type_rows.specs.WellFormed.{IsReadable, IsWellFormed};
ghost use Rattle.blob_faults.specs.Failing.{IsFirstFailing};
ghost use Rattle.blob_faults.specs.Judge.{Blames, Judge, each_of};
ghost use Rattle.blob_faults.specs.Models.{are_model};
ghost use Rattle.blob_faults.specs.Rows.{closed, counts, loads};
ghost use Rattle.snapshot_blob.specs.Body.{IsWholeBody};
ghost use Rattle.snapshot_blob.specs.Judged.{offsets_of, types_of};
ghost use Rattle.snapshot_blob.specs.Stated.{AreAccepted, CanStand, IsLoadedFrom, IsStateFault, IsWant, KeepsCounts, schemas_of};

use crate::body::Body;
use crate::part::{TypePart, TypeParts};
use blob_faults::{blame_rows, counts_fault};
use blob_frame::BlobFault;
use column_rows::first_dangling;
use hol_varint::{Duplicate, GapList};
use model_rules::{first_too_deep, model_of};
use schema_model::{Model, ModelFault, Reason, Rule, Schemas};
use std::alloc::{AllocError, Global};
use type_rows::Section;
use type_state::{TypeState, TypeStates, next_of};

/// The state of a snapshot's types: their model, which their schemas are, the rows of each in the next half of its
/// state, all within the limits, and each ordinal that a row names live.
///
/// The fault is that of the first trial that fails. `Bad` with `BadSchema` names the first type that fails a test of
/// models, `Large` a limit that is passed, `BadRow` a row that its place does not spell, that the widths cannot hold, or
/// that names an ordinal that is not live.
pub(crate) fn state_of(alloc: Global, parts: TypeParts) -> Result<Body, BlobFault>
    requires { All (λ part. IsWellFormed part.schema.shape part.section) parts }
    ensures accepted { IfOk result (λ found. AreAccepted parts found.model (next_halves found.states)) }
    ensures blamed { CanStand (schemas_of parts) → IfErr result (Blames (types_of parts) IsWant) }
    ensures whole { IfOk result IsWholeBody }
    ensures kind { IfErr result IsStateFault }
{
    let model = model_of_parts(alloc, parts.as_slice())?;
    check_counts(parts.as_slice())?;
    let offsets = schema_offsets(alloc, parts.as_slice())?;
    let states = load_types(alloc, parts)?;
    check_closed(alloc, &model, &states, &offsets)?;
    Ok(Body { model, states })
}

// The model that the schemas of the parts are.
fn model_of_parts(alloc: Global, parts: &[TypePart]) -> Result<Model, BlobFault>
    ensures made { IfOk result (λ model. (model ≡ schemas_of parts.now) × IsModel model) }
    ensures blamed { CanStand (schemas_of parts.now) → IfErr result (Blames (are_model (offsets_of parts.now) (schemas_of parts.now)) IsWant) }
    ensures kind { IfErr result IsStateFault }
{
    match model_of(alloc, copied_schemas(alloc, parts)?) {
        Ok(model) => Ok(model),
        Err(ModelFault::Broken(rule, type_index)) => {
            let first = first_failing(alloc, parts, rule, type_index)?;
            Err(BlobFault::Bad(parts[first as usize].at, Reason::BadSchema))
        }
        Err(ModelFault::Memory) => Err(BlobFault::Memory),
    }
}

// The schemas of the parts.
fn copied_schemas(alloc: Global, parts: &[TypePart]) -> Result<Schemas, AllocError>
    ensures { IfOk result (λ schemas. schemas ≡ schemas_of parts.now) }
{
    let mut schemas = Schemas::new(alloc);
    for part in parts {
        schemas.push(part.schema.copy(alloc)?)?;
    }
    Ok(schemas)
}

// The first type that fails a test of models, where this rule is the first that some type breaks, and this type the
// first that breaks it: a cycle and a chain that is too long are one test.
fn first_failing(
    alloc: Global,
    parts: &[TypePart],
    rule: Rule,
    type_index: u32,
) -> Result<u32, AllocError>
    requires { IsFirstBroken (schemas_of parts.now) rule type_index }
    ensures inside { IfOk result (λ first. first < length parts.now) }
    ensures first { CanStand (schemas_of parts.now) → IfOk result (IsFirstFailing (schemas_of parts.now)) }
{
    match rule {
        Rule::CyclicModel => {
            let schemas = copied_schemas(alloc, parts)?;
            first_too_deep(alloc, &schemas, type_index)
        }
        _ => Ok(type_index),
    }
}

// Tries in each type the limit on ordinals, and then that on elements or buckets.
fn check_counts(parts: &[TypePart]) -> Result<(), BlobFault>
    ensures { MatchResult result (λ done. All KeepsCounts parts.now) (each_of (λ part. counts part.section.max part.section.total) parts.now).Fails }
{
    for part in parts {
        if let Some(fault) = counts_fault(part.section.max, part.section.total) {
            return Err(fault);
        }
    }
    Ok(())
}

// The offset of each schema.
fn schema_offsets(alloc: Global, parts: &[TypePart]) -> Result<GapList, AllocError>
    ensures { IfOk result (λ offsets. offsets ≡ offsets_of parts.now) }
{
    let mut offsets = GapList::with_capacity(alloc, parts.len())?;
    for part in parts {
        offsets.push(part.at)?;
    }
    Ok(offsets)
}

// Loads each type into the next half of a state.
fn load_types(alloc: Global, parts: TypeParts) -> Result<TypeStates, BlobFault>
    requires { All (λ part. IsReadable part.schema.shape part.section) parts }
    ensures { MatchResult result (λ states. AllZip IsLoadedFrom parts states) (Blames (each_of (λ part. loads part.at part.schema part.section) parts) IsWant) }
{
    let mut states = TypeStates::new(alloc);
    for part in parts.into_vec() {
        states.push(load_type(alloc, part)?)?;
    }
    Ok(states)
}

// Loads a type into the next half of a state.
fn load_type(alloc: Global, part: TypePart) -> Result<TypeState, BlobFault>
    requires { IsReadable part.schema.shape part.section }
    ensures { MatchResult result (IsLoadedFrom part) (Blames (loads part.at part.schema part.section) IsWant) }
{
    let TypePart {
        at,
        schema,
        section,
    } = part;
    let mut state = TypeState::new(alloc, schema);
    match load_rows(alloc, &mut state, at, &section) {
        Ok(()) => Ok(state),
        Err(fault) => Err(fault),
    }
}

// Loads a section, whose schema stands at this offset, into the next half of a state.
fn load_rows(
    alloc: Global,
    state: &mut TypeState,
    at: u64,
    section: &Section,
) -> Result<(), BlobFault>
    requires readable { IsReadable state.old.schema.shape section.now }
    requires empty { state.old.current ≡ empty_half }
    ensures { MatchResult result (λ done. IsLoadedFrom (record { at = at; schema = state.old.schema; section = section.now }) state.new) (Blames (loads at state.old.schema section.now) IsWant) }
{
    match state.load_next(section) {
        Ok(()) => Ok(()),
        Err(fault) => Err(blame_rows(alloc, at, &state.schema().name, fault)),
    }
}

// Tries whether each ordinal that a row names is live.
fn check_closed(
    alloc: Global,
    model: &Model,
    states: &TypeStates,
    offsets: &GapList,
) -> Result<(), BlobFault>
    requires next { AreNext model.now states.now }
    requires long { length offsets.now ≡ length model.now }
    ensures { MatchResult result (λ done. IsClosed model.now (table_of (next_halves states.now))) (Blames (closed offsets.now model.now (table_of (next_halves states.now))) IsWant) }
{
    let rows = next_of(model, states);
    match first_dangling(alloc, &rows)? {
        None => Ok(()),
        Some(found) => {
            let at = *offsets.get(found.type_index as usize);
            let name = model.schema(found.type_index).name.copy(alloc)?;
            Err(BlobFault::BadRow(at, Reason::Dangling, name, u64::from(found.ordinal)))
        }
    }
}
