//! What is gathered once of two states, for all blobs between them.
ghost use Rattle.std.specs.Prelude.{◌≡◌, ◌≤◌, IfOk, length, map};
ghost use Rattle.schema_model.specs.declared.schema.Schema.{Schema};
ghost use Rattle.row_model.specs.Table.{Table};
ghost use Rattle.row_packing.specs.Chosen.{shape_at, IsChosen};
ghost use Rattle.row_packing.specs.Measured.{AreMeasured};
ghost use Rattle.row_packing.specs.States.{AreWritable};
ghost use Rattle.blob_writing.specs.Plan.{AreByType, AreLiveIn, AreGone, IsPlanOf};

use crate::changed::changed_types;
use hol_varint::{Duplicate, List, Ordinals};
use ordinal_set::OrdinalSet;
use row_model::Rows;
use row_packing::{Chosen, Measured, OrdinalRows, choose, live_set};
use std::alloc::{AllocError, Global};

/// What is live in one of two states, by type index.
#[derive(Drop)]
pub struct Live {
    /// The ordinals under which a type has rows.
    pub ordinals: List<OrdinalSet>,
    /// Those of them under which the other state has none, rising.
    pub alone: List<Ordinals>,
}

/// What the blobs between an old and a new state of one model are written by.
#[derive(Drop)]
pub struct Plan {
    /// What is chosen for a type over the rows of both states, by type index.
    pub chosen: List<Chosen>,
    /// What is live in the old state.
    pub before: Live,
    /// What is live in the new state.
    pub after: Live,
    /// The indexes of the types whose rows differ, rising.
    pub changed: Ordinals,
}

impl Plan {
    /// The plan of an old and a new state, for which their rows are walked once. Where they differ is found a word of ordinals at a time.
    ///
    /// The states agree, and keep the limits on ordinals, items and bytes.
    pub fn new<A: OrdinalRows, B: OrdinalRows>(
        alloc: Global,
        old: &A,
        new: &B,
    ) -> Result<Plan, AllocError>
        requires model { A.schemas old.now ≡ B.schemas new.now }
        requires states { AreWritable (B.schemas new.now) (A.table old.now) (B.table new.now) }
        ensures { IfOk result (IsPlanOf (B.schemas new.now) (A.table old.now) (B.table new.now)) }
    {
        let chosen = choices(alloc, old, new)?;
        Plan::gather(alloc, chosen, old, new)
    }

    /// The plan of an old and a new state by what was measured of each type, in model order: no row is looked at.
    pub fn of<A: OrdinalRows, B: OrdinalRows>(
        alloc: Global,
        measured: &[Measured],
        old: &A,
        new: &B,
    ) -> Result<Plan, AllocError>
        requires model { A.schemas old.now ≡ B.schemas new.now }
        requires states { AreWritable (B.schemas new.now) (A.table old.now) (B.table new.now) }
        requires measured { AreMeasured (B.schemas new.now) (A.table old.now) (B.table new.now) measured.now }
        ensures { IfOk result (IsPlanOf (B.schemas new.now) (A.table old.now) (B.table new.now)) }
    {
        let chosen = choices_of(alloc, measured)?;
        Plan::gather(alloc, chosen, old, new)
    }

    // The plan of two states by what is chosen for each type.
    fn gather<A: OrdinalRows, B: OrdinalRows>(
        alloc: Global,
        chosen: List<Chosen>,
        old: &A,
        new: &B,
    ) -> Result<Plan, AllocError>
        requires model { A.schemas old.now ≡ B.schemas new.now }
        requires states { AreWritable (B.schemas new.now) (A.table old.now) (B.table new.now) }
        requires chosen { AreByType (length (B.schemas new.now)) (λ type_index. IsChosen (shape_at (B.schemas new.now) type_index) (A.table old.now) (B.table new.now) type_index) chosen }
        ensures { IfOk result (IsPlanOf (B.schemas new.now) (A.table old.now) (B.table new.now)) }
    {
        let count = new.model().len();
        let old_sets = live_sets(alloc, old, count)?;
        let new_sets = live_sets(alloc, new, count)?;
        let removed = alone(alloc, &old_sets, &new_sets)?;
        let added = alone(alloc, &new_sets, &old_sets)?;
        let changed = changed_types(alloc, count, &removed, &added)?;
        Ok(Plan {
            chosen,
            before: Live {
                ordinals: old_sets,
                alone: removed,
            },
            after: Live {
                ordinals: new_sets,
                alone: added,
            },
            changed,
        })
    }

    /// The plan of the same states exchanged, as the reverse delta wants it. It takes no memory.
    pub fn turned(self) -> Plan
        ensures { (schemas : List Schema) (old new : Table) → AreWritable schemas old new → IsPlanOf schemas old new self → IsPlanOf schemas new old result }
    {
        row_packing::laws::either_way();
        Plan {
            chosen: self.chosen,
            before: self.after,
            after: self.before,
            changed: self.changed,
        }
    }
}

// What is chosen for each type over the rows of two states.
fn choices<A: Rows, B: Rows>(alloc: Global, old: &A, new: &B) -> Result<List<Chosen>, AllocError>
    requires model { A.schemas old.now ≡ B.schemas new.now }
    requires states { AreWritable (B.schemas new.now) (A.table old.now) (B.table new.now) }
    ensures { IfOk result (AreByType (length (B.schemas new.now)) (λ type_index. IsChosen (shape_at (B.schemas new.now) type_index) (A.table old.now) (B.table new.now) type_index)) }
{
    let mut chosen = List::new(alloc);
    for type_index in 0..new.model().len() {
        chosen.push(choose(alloc, old, new, type_index)?)?;
    }
    Ok(chosen)
}

// What is chosen for each type, by what was measured of it.
fn choices_of(alloc: Global, measured: &[Measured]) -> Result<List<Chosen>, AllocError>
    ensures { IfOk result (λ choices. choices ≡ map (λ one. one.chosen) measured.now) }
{
    let mut choices = List::new(alloc);
    for one in measured {
        choices.push(one.chosen.copy(alloc)?)?;
    }
    Ok(choices)
}

// The live ordinals of each of so many types of a state.
fn live_sets<R: OrdinalRows>(
    alloc: Global,
    rows: &R,
    count: u32,
) -> Result<List<OrdinalSet>, AllocError>
    requires { count ≤ length (R.schemas rows.now) }
    ensures { IfOk result (AreLiveIn (R.table rows.now) count) }
{
    let mut sets = List::new(alloc);
    for type_index in 0..count {
        sets.push(live_set(alloc, rows, type_index)?)?;
    }
    Ok(sets)
}

// The ordinals of each type that are live in one state alone, by the live ordinals of it and of another one.
fn alone(
    alloc: Global,
    here: &List<OrdinalSet>,
    there: &List<OrdinalSet>,
) -> Result<List<Ordinals>, AllocError>
    requires { length there.now ≡ length here.now }
    ensures { IfOk result (λ lists. (from to : Table) → AreLiveIn from (length here.now) here.now → AreLiveIn to (length here.now) there.now → AreGone from to (length here.now) lists) }
{
    let mut lists = List::new(alloc);
    for type_index in 0..here.len() {
        lists.push(here.get(type_index).without(alloc, there.get(type_index))?)?;
    }
    Ok(lists)
}
