//! Writing a snapshot.
ghost use Rattle.std.specs.Prelude.{◌≡◌, ◌<◌, ◌≤◌, ◌^◌, ◌++◌, All, IfErr, IfOk, IfSome, List, ℕ, OnOk, Err, length, option_copied};
ghost use Rattle.std.specs.List.{range_with_len};
ghost use Rattle.hol_varint.specs.Yields.{Yields};
ghost use Rattle.schema_model.specs.Model.{IsModel};
ghost use Rattle.row_packing.specs.Chosen.{shape_at, IsChosen};
ghost use Rattle.row_packing.specs.States.{AreWritable};
ghost use Rattle.kept_sections.specs.Sections.{AreSectionsFor, IsSection};
ghost use Rattle.blob_writing.specs.Limits.{HasFewPathsAt, HaveFewPaths, IsFreeWrite, IsTooLarge, MeansLarge};
ghost use Rattle.blob_writing.specs.declared.fault.WriteFault.TheVariants.{Large};
ghost use Rattle.blob_writing.specs.Plan.{IsPlanOf};
ghost use Rattle.blob_writing.specs.Snapshot.{AreCarriedOf, IsCarriedOf, IsFrontLong, IsLongSnapshot, IsWrittenSnapshot, TypeRows, body_bytes, type_bytes};

use crate::fault::WriteFault;
use crate::header::{check_length, put_limited_header};
use crate::plan::Plan;
use crate::shared::shared_model;
use crate::types::put_snapshot_type;
use hol_varint::{Ordinals, put_vlong};
use kept_sections::PackedSections;
use row_model::{Packed, Rows};
use row_packing::{Chosen, snapshot_rows};
use schema_model::Model;
use std::alloc::{AllocError, Global};

/// Writes the snapshot of a new state that follows an old one of the same model, from one tag to another: a header with all
/// schemas, and each type's new rows and population, with the widths that are chosen over both states.
///
/// Where sections are lent, the rows are written as they stand packed in them; else they are packed first.
///
/// The states agree, and keep the limits on ordinals, items and bytes, and the plan and the sections are theirs. `Large` comes
/// exactly where the blob has more than 2^28 bytes.
pub fn write_snapshot<A: Rows, B: Rows>(
    alloc: Global,
    old: &A,
    new: &B,
    plan: &Plan,
    sections: Option<&PackedSections>,
    origin: i64,
    destination: i64,
) -> Result<Vec<u8>, WriteFault>
    requires model { A.schemas old.now ≡ B.schemas new.now }
    requires states { AreWritable (B.schemas new.now) (A.table old.now) (B.table new.now) }
    requires plan { IsPlanOf (B.schemas new.now) (A.table old.now) (B.table new.now) plan.now }
    requires sections { IfSome (option_copied sections) (AreSectionsFor (B.schemas new.now) (A.table old.now) (B.table new.now)) }
    ensures written { IfOk result (λ blob. IsWrittenSnapshot (B.schemas new.now) (A.table old.now) (B.table new.now) origin destination blob.items) }
    ensures short { IfOk result (λ blob. length blob.items ≤ 2 ^ 28) }
    ensures front { IfErr result (MeansLarge (IsLongSnapshot (B.schemas new.now) (A.table old.now) (B.table new.now) origin destination)) }
    ensures large { IfErr result (MeansLarge ((blob : List ℕ) → IsWrittenSnapshot (B.schemas new.now) (A.table old.now) (B.table new.now) origin destination blob → 2 ^ 28 < length blob)) }
    ensures exact { Yields IsFreeWrite result (Err Large) (IsTooLarge (IsWrittenSnapshot (B.schemas new.now) (A.table old.now) (B.table new.now) origin destination)) }
{
    row_packing::laws::one_packing_of_places();
    let model = shared_model(old, new);
    limited_snapshot(alloc, old, new, model, plan, sections, origin, destination)
}

// Writes the snapshot of a new state of this model that follows an old one. `Large` means that each such blob has more than 2^28 bytes.
fn limited_snapshot<A: Rows, B: Rows>(
    alloc: Global,
    old: &A,
    new: &B,
    model: &Model,
    plan: &Plan,
    sections: Option<&PackedSections>,
    origin: i64,
    destination: i64,
) -> Result<Vec<u8>, WriteFault>
    requires model { A.schemas old.now ≡ B.schemas new.now }
    requires same { model.now ≡ B.schemas new.now }
    requires sound { IsModel (B.schemas new.now) }
    requires states { AreWritable (B.schemas new.now) (A.table old.now) (B.table new.now) }
    requires plan { IsPlanOf (B.schemas new.now) (A.table old.now) (B.table new.now) plan.now }
    requires sections { IfSome (option_copied sections) (AreSectionsFor (B.schemas new.now) (A.table old.now) (B.table new.now)) }
    ensures written { IfOk result (λ blob. IsWrittenSnapshot (B.schemas new.now) (A.table old.now) (B.table new.now) origin destination blob.items) }
    ensures short { IfOk result (λ blob. length blob.items ≤ 2 ^ 28) }
    ensures front { IfErr result (MeansLarge (IsLongSnapshot (B.schemas new.now) (A.table old.now) (B.table new.now) origin destination)) }
    ensures large { IfErr result (MeansLarge ((blob : List ℕ) → IsWrittenSnapshot (B.schemas new.now) (A.table old.now) (B.table new.now) origin destination blob → 2 ^ 28 < length blob)) }
{
    let types = all_types(alloc, model)?;
    let mut out = Vec::new(alloc);
    put_limited_header(&mut out, origin, destination, model, &types)?;
    put_types(&mut out, old, new, plan, sections, &types)?;
    Ok(out)
}

// The indexes of all types.
fn all_types(alloc: Global, model: &Model) -> Result<Ordinals, AllocError>
    ensures sound { IsModel model.now }
    ensures all { IfOk result (λ types. types ≡ range_with_len 0 (length model.now)) }
{
    let mut types = Ordinals::new(alloc);
    for type_index in 0..model.len() {
        types.push(type_index)?;
    }
    Ok(types)
}

// Writes the number of these types at the end, and each of them, but for those that come when the blob is too long already.
fn put_types<A: Rows, B: Rows>(
    out: &mut Vec<u8>,
    old: &A,
    new: &B,
    plan: &Plan,
    sections: Option<&PackedSections>,
    types: &Ordinals,
) -> Result<(), WriteFault>
    requires model { A.schemas old.now ≡ B.schemas new.now }
    requires sound { IsModel (B.schemas new.now) }
    requires in_model { All (λ type_index. type_index < length (B.schemas new.now)) types.now }
    requires few { HaveFewPaths (B.schemas new.now) types.now }
    requires states { AreWritable (B.schemas new.now) (A.table old.now) (B.table new.now) }
    requires plan { IsPlanOf (B.schemas new.now) (A.table old.now) (B.table new.now) plan.now }
    requires sections { IfSome (option_copied sections) (AreSectionsFor (B.schemas new.now) (A.table old.now) (B.table new.now)) }
    ensures written { OnOk result ((carried : List TypeRows) × AreCarriedOf (B.schemas new.now) (A.table old.now) (B.table new.now) types.now carried × (out.new.items ≡ out.old.items ++ body_bytes carried)) }
    ensures short { OnOk result (length out.new.items ≤ 2 ^ 28) }
    ensures front { IfErr result (MeansLarge (IsFrontLong (B.schemas new.now) (A.table old.now) (B.table new.now) types.now out.old.items)) }
    ensures large { IfErr result (MeansLarge ((carried : List TypeRows) → AreCarriedOf (B.schemas new.now) (A.table old.now) (B.table new.now) types.now carried → 2 ^ 28 < length (out.old.items ++ body_bytes carried))) }
{
    row_packing::laws::one_packing_of_places();
    put_vlong(out, types.len() as u64)?;
    let indexes = types.as_slice();
    for type_index in indexes {
        check_length(out.as_slice())?;
        put_type(out, old, new, plan, sections, *type_index)?;
    }
    check_length(out.as_slice())
}

// Writes a type at the end, from its section where there are some. Where memory is refused nothing is written.
fn put_type<A: Rows, B: Rows>(
    out: &mut Vec<u8>,
    old: &A,
    new: &B,
    plan: &Plan,
    sections: Option<&PackedSections>,
    type_index: u32,
) -> Result<(), AllocError>
    requires model { A.schemas old.now ≡ B.schemas new.now }
    requires known { type_index < length (B.schemas new.now) }
    requires few { HasFewPathsAt (B.schemas new.now) type_index }
    requires states { AreWritable (B.schemas new.now) (A.table old.now) (B.table new.now) }
    requires plan { IsPlanOf (B.schemas new.now) (A.table old.now) (B.table new.now) plan.now }
    requires sections { IfSome (option_copied sections) (AreSectionsFor (B.schemas new.now) (A.table old.now) (B.table new.now)) }
    ensures { OnOk result ((carried : TypeRows) × IsCarriedOf (B.schemas new.now) (A.table old.now) (B.table new.now) type_index carried × (out.new.items ≡ out.old.items ++ type_bytes carried)) }
{
    let place = type_index as usize;
    if let Some(sections) = sections {
        let section = sections.get(place);
        return put_section(
            out,
            old,
            new,
            plan,
            &section.chosen,
            &section.packed,
            type_index,
        );
    }
    let chosen = plan.chosen.get(place);
    let packed = snapshot_rows(*out.allocator(), new, type_index, chosen)?;
    put_section(out, old, new, plan, chosen, &packed, type_index)
}

// Writes a type at the end, of which the rows are packed.
fn put_section<A: Rows, B: Rows>(
    out: &mut Vec<u8>,
    old: &A,
    new: &B,
    plan: &Plan,
    chosen: &Chosen,
    packed: &Packed,
    type_index: u32,
) -> Result<(), AllocError>
    requires model { A.schemas old.now ≡ B.schemas new.now }
    requires known { type_index < length (B.schemas new.now) }
    requires few { HasFewPathsAt (B.schemas new.now) type_index }
    requires plan { IsPlanOf (B.schemas new.now) (A.table old.now) (B.table new.now) plan.now }
    requires chosen { IsChosen (shape_at (B.schemas new.now) type_index) (A.table old.now) (B.table new.now) type_index chosen.now }
    requires packed { IsSection (shape_at (B.schemas new.now) type_index) (B.table new.now) type_index chosen.now packed.now }
    ensures { OnOk result ((carried : TypeRows) × IsCarriedOf (B.schemas new.now) (A.table old.now) (B.table new.now) type_index carried × (out.new.items ≡ out.old.items ++ type_bytes carried)) }
{
    schema_bytes::laws::spellable_model();
    let live = plan.after.ordinals.get(type_index as usize);
    put_snapshot_type(out, new.model().schema(type_index), chosen, packed, live)
}
