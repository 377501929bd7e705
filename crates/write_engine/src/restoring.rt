//! The rows of a state are made the previous rows of a producer again.
ghost use Rattle.std.specs.Prelude.{◌≡◌, IfErr, IfOk, length};
ghost use Rattle.write_engine.specs.declared.restoring.RestoreFault.TheVariants.{Memory as restore_memory};
ghost use Rattle.write_engine.specs.Restoring.{HasLowOrdinals};
ghost use Rattle.write_engine.specs.RestoredRows.{HasRowsBelow, HasTypesBelow, TellsFault, TellsRow, TellsType};

use ordinal_map::{OrdinalMap, RestoreRowFault};
use row_model::Rows;
use std::alloc::{AllocError, AllocFailed, Global};

/// Why a producer is not restored.
#[derive(Clone, Copy, Debug, PartialEq, Eq)]
pub enum RestoreFault {
    /// Two rows of a type are equal: the type, and their ordinals, the lesser one first.
    Duplicate(u32, u32, u32),
    /// Memory was refused.
    Memory,
}

impl From<AllocError> for RestoreFault {
    ghost from_gives = { λ _ e. e ≡ restore_memory };

    fn from(_e: AllocError) -> RestoreFault {
        RestoreFault::Memory
    }
}

impl<T: Drop> From<AllocFailed<T>> for RestoreFault {
    ghost from_gives = { λ _ e. e ≡ restore_memory };

    fn from(_e: AllocFailed<T>) -> RestoreFault {
        RestoreFault::Memory
    }
}

/// The rows of all types as previous states, each type's in a map.
pub(crate) fn restore_states<R: Rows>(
    alloc: Global,
    rows: &R,
) -> Result<Vec<OrdinalMap>, RestoreFault>
    requires { HasLowOrdinals (R.table rows.now) }
    ensures made { IfOk result (λ maps. HasTypesBelow (R.table rows.now) (length (R.table rows.now)) maps.items) }
    ensures named { IfErr result (TellsFault (R.table rows.now)) }
{
    let mut maps = Vec::new(alloc);
    for type_index in 0..rows.model().len() {
        let map = restore_type(alloc, rows, type_index)?;
        maps.push(map)?;
    }
    Ok(maps)
}

// The rows of a type, by rising ordinal: so the first row that stands already is the second of its kind with the least ordinal.
fn restore_type<R: Rows>(
    alloc: Global,
    rows: &R,
    type_index: u32,
) -> Result<OrdinalMap, RestoreFault>
    requires { HasLowOrdinals (R.table rows.now) }
    ensures { TellsType (R.table rows.now) type_index result }
{
    let mut map = OrdinalMap::new(alloc);
    for ordinal in 0..rows.bound(type_index) {
        restore_at(alloc, rows, type_index, ordinal, &mut map)?;
    }
    Ok(map)
}

// The row of a type under an ordinal, if there is one, is restored behind those under lesser ones.
fn restore_at<R: Rows>(
    alloc: Global,
    rows: &R,
    type_index: u32,
    ordinal: u32,
    map: &mut OrdinalMap,
) -> Result<(), RestoreFault>
    requires low { HasLowOrdinals (R.table rows.now) }
    requires below { HasRowsBelow (R.table rows.now) type_index ordinal map.old }
    ensures { TellsRow (R.table rows.now) type_index ordinal map.new result }
{
    if !rows.is_live(type_index, ordinal) {
        return Ok(());
    }
    let row = rows.row(alloc, type_index, ordinal)?;
    match map.restore_row(ordinal, row) {
        Ok(()) => Ok(()),
        Err(RestoreRowFault::Equal(first)) => {
            Err(RestoreFault::Duplicate(type_index, first, ordinal))
        }
        Err(RestoreRowFault::Memory) => Err(RestoreFault::Memory),
    }
}
