//! What is measured of the types of two states, read off the sums.
ghost use Rattle.std.specs.Prelude.{◌≡◌, IfOk};
ghost use Rattle.row_packing.specs.Measured.{AreMeasured};
ghost use Rattle.hol_incremental.specs.Sums.{AreSums, AreSumsOfBoth};

use hol_varint::List;
use kept_sums::{Sums, measured};
use row_model::Rows;
use row_packing::{Measured, greatest_ordinal};
use std::alloc::{AllocError, Global};

/// What is measured of each type over the rows of an old and a new state of one model, by the sums of each type's rows in the one, in the other and in both. No row
/// is looked at.
pub(crate) fn measured_all<A: Rows, B: Rows>(
    alloc: Global,
    old: &A,
    new: &B,
    old_sums: &[Sums],
    new_sums: &[Sums],
    both_sums: &[Sums],
) -> Result<List<Measured>, AllocError>
    requires model { A.schemas old.now ≡ B.schemas new.now }
    requires old { AreSums (B.schemas new.now) (A.table old.now) old_sums.now }
    requires new { AreSums (B.schemas new.now) (B.table new.now) new_sums.now }
    requires both { AreSumsOfBoth (B.schemas new.now) (A.table old.now) (B.table new.now) both_sums.now }
    ensures { IfOk result (AreMeasured (B.schemas new.now) (A.table old.now) (B.table new.now)) }
{
    let model = new.model();
    let mut all = List::new(alloc);
    for type_index in 0..old.model().len() {
        let place = type_index as usize;
        let one = measured(
            alloc,
            &model.schema(type_index).shape,
            greatest_ordinal(old, new, type_index),
            &old_sums[place],
            &new_sums[place],
            &both_sums[place],
        )?;
        all.push(one)?;
    }
    Ok(all)
}
