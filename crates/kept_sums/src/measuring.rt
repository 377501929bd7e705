//! What is measured of a type, read off the sums.
ghost use Rattle.std.specs.Prelude.{ℕ, All, List, IfOk};
ghost use Rattle.schema_model.specs.declared.schema.Shape.{Shape as AnyShape};
ghost use Rattle.row_model.specs.declared.row.Row.{Row};
ghost use Rattle.row_model.specs.BothStates.{rows_of_both};
ghost use Rattle.row_model.specs.Table.{Table};
ghost use Rattle.object_codec.specs.Widths.{live_rows};
ghost use Rattle.row_packing.specs.Chosen.{IsGreatestOrdinal, IsRowOf};
ghost use Rattle.row_packing.specs.Measured.{IsHeld, IsMeasured};
ghost use Rattle.kept_sums.specs.Sums.{AreSumsOf};
ghost use Rattle.kept_sums.specs.States.{AreSumsOfStates};

use crate::sums::Sums;
use row_packing::{Chosen, Held, Measured};
use schema_model::Shape;
use std::alloc::{AllocError, Global};

/// What is measured of a type over an old and a new state, by the sums of its rows in each and in both, a row that both have counted once, and by its greatest
/// ordinal in either. No row is looked at.
pub fn measured(
    alloc: Global,
    shape: &Shape,
    max: Option<u32>,
    old: &Sums,
    new: &Sums,
    both: &Sums,
) -> Result<Measured, AllocError>
    requires { (rows : List Row) × AreSumsOf shape.now rows both.now }
    ensures { IfOk result (λ measured. (before after : Table) (type_index : ℕ) → AreSumsOfStates shape.now before after type_index old.now new.now both.now
        → IsGreatestOrdinal before after type_index max → All (IsRowOf shape.now) (rows_of_both before after type_index) → IsMeasured shape.now before after type_index measured) }
{
    let widths = both.widths(alloc, shape)?;
    Ok(Measured {
        chosen: Chosen {
            max,
            widths,
            total: both.total(),
        },
        old: held(old),
        new: held(new),
    })
}

// What the rows with these sums hold.
fn held(sums: &Sums) -> Held
    ensures { (shape : AnyShape) (table : Table) (type_index : ℕ) → AreSumsOf shape (live_rows table type_index) sums.now → IsHeld shape table type_index result }
{
    Held {
        items: sums.total(),
        bytes: sums.bytes(),
    }
}
