//! The list that stands at a place.
ghost use Rattle.std.specs.Prelude.{◌≡◌, Ok, Err};
ghost use Rattle.hol_varint.specs.Yields.{Yields};
ghost use Rattle.row_model.specs.declared.row.Row.{Row as StoredRow};
ghost use Rattle.schema_model.specs.declared.reason.Reason.{Reason};
ghost use Rattle.row_model.specs.declared.packed.PlaceFault.TheVariants.{Bad};
ghost use Rattle.list_codec.specs.ListPlace.{IsList, HoldsListPlace, SpellsListRow, FailsListRow, IsFreePlace, TellsListRow};
ghost use Rattle.list_codec.specs.ListRows.{HoldsAt};

use crate::list_rows::ListRows;
use row_model::{Parts, PlaceFault, Row, Widths};
use schema_model::{Reason, Schema};
use std::alloc::Global;

/// The list that the parts of a LIST type spell at a place.
///
/// The widths are those of the pointers and of the elements, in bits. The pointer at a place is the end of its list in elements, and the
/// start is the pointer of the place before, or 0. `Bad` gives `BadPointers` where the start is behind the end, or the end is over the
/// total or over what the element words hold, and else `BadValue` where an element is over 2^32 - 1. Elements of width 0 are 0, and the
/// words hold any number of them.
pub fn read<P: Parts>(
    alloc: Global,
    _schema: &Schema,
    widths: &Widths,
    total: u64,
    parts: &P,
    place: u64,
) -> Result<Row, PlaceFault>
    requires list { IsList _schema.now.shape }
    requires holds { HoldsListPlace widths.now (P.first_words parts.now) place }
    ensures tells { TellsListRow widths.now total (P.first_words parts.now) (P.second_words parts.now) place result }
    ensures spelled { (row : StoredRow) → Yields IsFreePlace result (Ok row) (SpellsListRow widths.now total (P.first_words parts.now) (P.second_words parts.now) place row) }
    ensures bad { (reason : Reason) → Yields IsFreePlace result (Err (Bad reason)) (FailsListRow widths.now total (P.first_words parts.now) (P.second_words parts.now) place reason) }
{
    let rows = ListRows {
        widths: widths.as_slice(),
        total,
        first: parts.first(),
        second: parts.second(),
    };
    rows.row(alloc, place)
}

impl<'a> ListRows<'a> {
    /// The list at a place, or why there is none.
    fn row(&self, alloc: Global, place: u64) -> Result<Row, PlaceFault>
        requires { HoldsAt self.now place }
        ensures { TellsListRow self.now.widths.now self.now.total self.now.first.now self.now.second.now place result }
    {
        let Some(elements) = self.elements(place) else {
            return Err(PlaceFault::Bad(Reason::BadPointers));
        };
        Ok(Row::List(elements.ordinals(alloc)?))
    }
}
