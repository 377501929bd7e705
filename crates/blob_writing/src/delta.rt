//! Writing a delta.
ghost use Rattle.std.specs.Prelude.{◌≡◌, ◌<◌, ◌≤◌, ◌^◌, ◌++◌, All, IfErr, IfOk, List, ℕ, OnOk, Err, length};
ghost use Rattle.hol_varint.specs.Yields.{Yields};
ghost use Rattle.schema_model.specs.Model.{IsModel};
ghost use Rattle.row_packing.specs.States.{AreWritable};
ghost use Rattle.blob_writing.specs.Limits.{HasFewPathsAt, HaveFewPaths, IsFreeWrite, IsTooLarge, MeansLarge};
ghost use Rattle.blob_writing.specs.declared.fault.WriteFault.TheVariants.{Large};
ghost use Rattle.blob_writing.specs.Changes.{AreChangesOf, IsChangeOf, IsDeltaBetween, IsFrontLong, IsLongDelta};
ghost use Rattle.blob_writing.specs.Delta.{TypeChange, body_bytes, change_bytes};
ghost use Rattle.blob_writing.specs.Plan.{IsPlanOf};

use crate::fault::WriteFault;
use crate::header::{check_length, put_limited_header};
use crate::plan::Plan;
use crate::shared::shared_model;
use crate::types::put_delta_type;
use hol_varint::put_vlong;
use row_model::Rows;
use row_packing::delta_rows;
use schema_model::Model;
use std::alloc::{AllocError, Global};

/// Writes the delta from an old to a new state of the same model, from one tag to another: the types whose rows differ, in
/// model order, each with the ordinals that go and those that come, and the new rows under these, with the widths that are
/// chosen over both states. The reverse delta is the call with the states and the tags exchanged, by the plan turned.
///
/// The states agree, and keep the limits on ordinals, items and bytes, and the plan is theirs. `Large` comes exactly where the
/// blob has more than 2^28 bytes.
pub fn write_delta<A: Rows, B: Rows>(
    alloc: Global,
    old: &A,
    new: &B,
    plan: &Plan,
    origin: i64,
    destination: i64,
) -> Result<Vec<u8>, WriteFault>
    requires model { A.schemas old.now ≡ B.schemas new.now }
    requires states { AreWritable (B.schemas new.now) (A.table old.now) (B.table new.now) }
    requires plan { IsPlanOf (B.schemas new.now) (A.table old.now) (B.table new.now) plan.now }
    ensures written { IfOk result (λ blob. IsDeltaBetween (B.schemas new.now) (A.table old.now) (B.table new.now) origin destination blob.items) }
    ensures short { IfOk result (λ blob. length blob.items ≤ 2 ^ 28) }
    ensures front { IfErr result (MeansLarge (IsLongDelta (B.schemas new.now) (A.table old.now) (B.table new.now) origin destination)) }
    ensures large { IfErr result (MeansLarge ((blob : List ℕ) → IsDeltaBetween (B.schemas new.now) (A.table old.now) (B.table new.now) origin destination blob → 2 ^ 28 < length blob)) }
    ensures exact { Yields IsFreeWrite result (Err Large) (IsTooLarge (IsDeltaBetween (B.schemas new.now) (A.table old.now) (B.table new.now) origin destination)) }
{
    row_packing::laws::one_packing_of_places();
    let model = shared_model(old, new);
    limited_delta(alloc, old, new, model, plan, origin, destination)
}

// Writes the delta from an old to a new state of this model. `Large` means that each such blob has more than 2^28 bytes.
fn limited_delta<A: Rows, B: Rows>(
    alloc: Global,
    old: &A,
    new: &B,
    model: &Model,
    plan: &Plan,
    origin: i64,
    destination: i64,
) -> Result<Vec<u8>, WriteFault>
    requires model { A.schemas old.now ≡ B.schemas new.now }
    requires same { model.now ≡ B.schemas new.now }
    requires sound { IsModel (B.schemas new.now) }
    requires states { AreWritable (B.schemas new.now) (A.table old.now) (B.table new.now) }
    requires plan { IsPlanOf (B.schemas new.now) (A.table old.now) (B.table new.now) plan.now }
    ensures written { IfOk result (λ blob. IsDeltaBetween (B.schemas new.now) (A.table old.now) (B.table new.now) origin destination blob.items) }
    ensures short { IfOk result (λ blob. length blob.items ≤ 2 ^ 28) }
    ensures front { IfErr result (MeansLarge (IsLongDelta (B.schemas new.now) (A.table old.now) (B.table new.now) origin destination)) }
    ensures large { IfErr result (MeansLarge ((blob : List ℕ) → IsDeltaBetween (B.schemas new.now) (A.table old.now) (B.table new.now) origin destination blob → 2 ^ 28 < length blob)) }
{
    row_packing::laws::one_packing_of_places();
    let mut out = Vec::new(alloc);
    put_limited_header(&mut out, origin, destination, model, &plan.changed)?;
    put_changes(&mut out, old, new, plan)?;
    Ok(out)
}

// Writes the number of the changed types at the end, and each of their changes, but for those that come when the blob is too
// long already.
fn put_changes<A: Rows, B: Rows>(
    out: &mut Vec<u8>,
    old: &A,
    new: &B,
    plan: &Plan,
) -> Result<(), WriteFault>
    requires model { A.schemas old.now ≡ B.schemas new.now }
    requires sound { IsModel (B.schemas new.now) }
    requires in_model { All (λ type_index. type_index < length (B.schemas new.now)) plan.now.changed }
    requires few { HaveFewPaths (B.schemas new.now) plan.now.changed }
    requires states { AreWritable (B.schemas new.now) (A.table old.now) (B.table new.now) }
    requires plan { IsPlanOf (B.schemas new.now) (A.table old.now) (B.table new.now) plan.now }
    ensures written { OnOk result ((changes : List TypeChange) × AreChangesOf (B.schemas new.now) (A.table old.now) (B.table new.now) plan.now.changed changes × (out.new.items ≡ out.old.items ++ body_bytes changes)) }
    ensures short { OnOk result (length out.new.items ≤ 2 ^ 28) }
    ensures front { IfErr result (MeansLarge (IsFrontLong (B.schemas new.now) (A.table old.now) (B.table new.now) plan.now.changed out.old.items)) }
    ensures large { IfErr result (MeansLarge ((changes : List TypeChange) → AreChangesOf (B.schemas new.now) (A.table old.now) (B.table new.now) plan.now.changed changes → 2 ^ 28 < length (out.old.items ++ body_bytes changes))) }
{
    row_packing::laws::one_packing_of_places();
    put_vlong(out, plan.changed.len() as u64)?;
    let indexes = plan.changed.as_slice();
    for type_index in indexes {
        check_length(out.as_slice())?;
        put_change(out, old, new, plan, *type_index)?;
    }
    check_length(out.as_slice())
}

// Writes the changes of a type at the end. Where memory is refused nothing is written.
fn put_change<A: Rows, B: Rows>(
    out: &mut Vec<u8>,
    old: &A,
    new: &B,
    plan: &Plan,
    type_index: u32,
) -> Result<(), AllocError>
    requires model { A.schemas old.now ≡ B.schemas new.now }
    requires known { type_index < length (B.schemas new.now) }
    requires few { HasFewPathsAt (B.schemas new.now) type_index }
    requires states { AreWritable (B.schemas new.now) (A.table old.now) (B.table new.now) }
    requires plan { IsPlanOf (B.schemas new.now) (A.table old.now) (B.table new.now) plan.now }
    ensures { OnOk result ((change : TypeChange) × IsChangeOf (B.schemas new.now) (A.table old.now) (B.table new.now) type_index change × (out.new.items ≡ out.old.items ++ change_bytes change)) }
{
    let alloc = *out.allocator();
    schema_bytes::laws::spellable_model();
    let place = type_index as usize;
    let chosen = plan.chosen.get(place);
    let removed = plan.before.alone.get(place);
    let added = plan.after.alone.get(place);
    let packed = delta_rows(alloc, new, type_index, chosen, added)?;
    let schema = new.model().schema(type_index);
    put_delta_type(out, schema, chosen, removed, added, &packed)
}
