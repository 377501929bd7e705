//! The live ordinals of a type.
ghost use Rattle.std.specs.Prelude.{◌≡◌, ◌<◌, IfOk, length};
ghost use Rattle.std.specs.FinMap.{keys};
ghost use Rattle.row_model.specs.BothStates.{rows_in};

use crate::OrdinalRows;
use hol_varint::Duplicate;
use ordinal_set::OrdinalSet;
use row_model::Rows;
use std::alloc::{AllocError, Global};

/// The ordinals under which a type of a state has rows.
pub fn live_ordinals<R: Rows>(
    alloc: Global,
    rows: &R,
    type_index: u32,
) -> Result<OrdinalSet, AllocError>
    ensures { IfOk result (λ set. set ≡ keys (rows_in (R.table rows.now) type_index)) }
{
    let mut set = OrdinalSet::new(alloc);
    for ordinal in 0..rows.bound(type_index) {
        if rows.is_live(type_index, ordinal) {
            set.insert(ordinal)?;
        }
    }
    Ok(set)
}

/// The ordinals under which a type of a state has rows, copied from the set that the state keeps of them.
pub fn live_set<R: OrdinalRows>(
    alloc: Global,
    rows: &R,
    type_index: u32,
) -> Result<OrdinalSet, AllocError>
    requires { type_index < length (R.schemas rows.now) }
    ensures { IfOk result (λ set. set ≡ keys (rows_in (R.table rows.now) type_index)) }
{
    let set = rows.ordinals(type_index);
    // The ordinals of a set rise.
    let _rises = set.contains(0);
    set.copy(alloc)
}
