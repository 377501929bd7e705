//! Which types differ between two states.
ghost use Rattle.std.specs.Prelude.{◌≡◌, IfOk, length};
ghost use Rattle.row_model.specs.Table.{Table};
ghost use Rattle.blob_writing.specs.Changes.{AreChanged};
ghost use Rattle.blob_writing.specs.Plan.{AreMoved};

use hol_varint::{List, Ordinals};
use std::alloc::{AllocError, Global};

/// The indexes of the types whose rows differ between two states that agree, rising: as they agree, those with an ordinal that goes or comes.
pub(crate) fn changed_types(
    alloc: Global,
    count: u32,
    removed: &List<Ordinals>,
    added: &List<Ordinals>,
) -> Result<Ordinals, AllocError>
    requires removed { length removed.now ≡ count }
    requires added { length added.now ≡ count }
    ensures { IfOk result (λ types. (old new : Table) → AreMoved old new count removed.now added.now → AreChanged count old new types) }
{
    let mut types = Ordinals::new(alloc);
    for type_index in 0..count {
        let place = type_index as usize;
        if !removed.get(place).is_empty() || !added.get(place).is_empty() {
            types.push(type_index)?;
        }
    }
    Ok(types)
}
