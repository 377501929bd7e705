//! The types of a delta, as they stand in the blob, against a model.
ghost use Rattle.std.specs.Prelude.{◌≡◌, ◌++◌, All, IfErr, IfOk, MatchResult, OnOk};
ghost use Rattle.std.specs.List.{AllZip};
ghost use Rattle.std.specs.Option.{option_to_list};
ghost use Rattle.schema_model.specs.Model.{IsModel};
ghost use Rattle.blob_cursor.specs.Scene.{IsFree};
ghost use Rattle.blob_faults.specs.Judge.{Blames, each_of};
ghost use Rattle.delta_blob.specs.Judged.{of_model, parts_in};
ghost use Rattle.delta_blob.specs.Meant.{IsSeenPart};
ghost use Rattle.delta_blob.specs.OfModel.{AreNamed, AreSpelled, CanBeSeen, IsTypesFault, KeepsNamed, TellsIndex, counts_in, named_at};
ghost use Rattle.delta_blob.specs.Parts.{IsWellFormedPart};
ghost use Rattle.delta_blob.specs.Reads.{AreOfModel, IsWholePart};

use crate::names::check_names;
use crate::part::{DeltaPart, DeltaParts};
use crate::patch::{PatchPart, PatchParts};
use blob_faults::counts_fault;
use blob_frame::BlobFault;
use hol_varint::{Duplicate, List};
use schema_growth::agree_by_place;
use schema_model::{Model, Schema};
use seen_patches::seen_section;
use std::alloc::{AllocError, Global};

/// A type of a delta that a model has.
#[derive(Drop)]
pub(crate) struct NamedPart {
    /// The index of the type in the model.
    pub(crate) type_index: u32,
    /// The type as it stands in the delta.
    pub(crate) part: DeltaPart,
}

/// The types of a delta that a model has, in the order of the blob.
type NamedParts = List<NamedPart>;

/// The types of a delta that a model has, as its schemas see them, within the limits. Those that it has not are passed over.
///
/// `Bad` with `BadSchema` names the first type whose name stands earlier or that has a field twice. Where there is none `OtherModel` names the
/// first type whose schema does not agree with the model's of its name, and else `Large` the first limit that is passed.
pub(crate) fn parts_of(
    alloc: Global,
    parts: DeltaParts,
    model: &Model,
) -> Result<PatchParts, BlobFault>
    requires { All IsWellFormedPart parts }
    ensures found { IfOk result (AreOfModel model.now parts) }
    ensures blames { AreSpelled parts → IfErr result (Blames (parts_in model.now parts) IsFree) }
    ensures kind { IfErr result IsTypesFault }
    ensures model { OnOk result (IsModel model.now) }
    ensures whole { IfOk result (All (IsWholePart model.now)) }
{
    check_names(alloc, parts.as_slice(), model)?;
    let named = named_parts(alloc, parts, model)?;
    check_counts(named.as_slice())?;
    Ok(seen_parts(alloc, named, model)?)
}

// The types that the model has, under their indexes.
fn named_parts(alloc: Global, parts: DeltaParts, model: &Model) -> Result<NamedParts, BlobFault>
    ensures found { IfOk result (AreNamed model.now parts) }
    ensures blames { IfErr result (Blames (each_of (of_model model.now) parts) IsFree) }
    ensures kind { IfErr result IsTypesFault }
    ensures model { OnOk result (IsModel model.now) }
{
    let most = parts.len().min(model.len() as usize);
    let mut named = NamedParts::with_capacity(alloc, most)?;
    for part in parts.into_vec() {
        let index = index_for(alloc, model, &part.schema)?;
        push_named(&mut named, index, part)?;
    }
    Ok(named)
}

// The index of the type of a model that a schema means; none where the model has no type of its name.
fn index_for(alloc: Global, model: &Model, schema: &Schema) -> Result<Option<u32>, BlobFault>
    ensures tells { TellsIndex model.now schema.now result }
    ensures kind { IfErr result IsTypesFault }
{
    let Some(type_index) = model.index_of(schema.name.text()) else {
        return Ok(None);
    };
    if agree_by_place(schema, model.schema(type_index)) {
        return Ok(Some(type_index));
    }
    let name = schema.name.copy(alloc)?;
    Err(BlobFault::OtherModel(name))
}

// Adds a type that the model has at the end. Any other is passed over.
fn push_named(named: &mut NamedParts, index: Option<u32>, part: DeltaPart) -> Result<(), AllocError>
    ensures { OnOk result (named.new ≡ named.old ++ option_to_list (named_at index part)) }
{
    match index {
        Some(type_index) => named.push(NamedPart { type_index, part }),
        None => Ok(()),
    }
}

// Tries in each type the limit on ordinals, and then that on elements or buckets.
fn check_counts(parts: &[NamedPart]) -> Result<(), BlobFault>
    ensures { MatchResult result (λ done. All KeepsNamed parts.now) (counts_in parts.now).Fails }
{
    for named in parts {
        let section = &named.part.section;
        if let Some(fault) = counts_fault(section.max, section.total) {
            return Err(fault);
        }
    }
    Ok(())
}

// The types as the model's schemas see them.
fn seen_parts(alloc: Global, parts: NamedParts, model: &Model) -> Result<PatchParts, AllocError>
    requires { All (CanBeSeen model.now) parts }
    ensures { IfOk result (AllZip (IsSeenPart model.now) parts) }
{
    let mut seen = PatchParts::with_capacity(alloc, parts.len())?;
    for named in parts.into_vec() {
        seen.push(seen_part(alloc, named, model)?)?;
    }
    Ok(seen)
}

// The type as the model's schema sees it.
fn seen_part(alloc: Global, named: NamedPart, model: &Model) -> Result<PatchPart, AllocError>
    requires { CanBeSeen model.now named }
    ensures { IfOk result (IsSeenPart model.now named) }
{
    let NamedPart { type_index, part } = named;
    let DeltaPart {
        at,
        schema,
        section,
    } = part;
    let mine = model.schema(type_index);
    let section = seen_section(alloc, &mine.shape, &schema.shape, section)?;
    Ok(PatchPart {
        type_index,
        at,
        section,
    })
}
