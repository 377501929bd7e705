//! What rows add up to, where some go and others come.
ghost use Rattle.std.specs.Prelude.{◌≡◌, ◌^◌, ◌<◌, ◌≤◌, All, IsTrue, length, map};
ghost use Rattle.std.specs.FinMap.{get};
ghost use Rattle.std.specs.List.Sorted.{IsStrictlySortedBy};
ghost use Rattle.std.specs.Map.{keys_of};
ghost use Rattle.std.specs.Ordering.{nat_cmp};
ghost use Rattle.row_model.specs.Table.{RowMap};
ghost use Rattle.schema_model.specs.Parts.{shape_fields};
ghost use Rattle.type_rows.specs.Totals.{AreLess};
ghost use Rattle.type_state.specs.Counted.{AreFitting, AreFree, AreNothing, IsCounted};
ghost use Rattle.type_state.specs.Differences.{AreApart, added_of, removal};
ghost use Rattle.type_state.specs.Leaving.{AreStanding};

use crate::coming::add_row;
use crate::differences::Differences;
use crate::leaving::Leaving;
use crate::packed_rows::PackedRows;
use column_rows::TypeRows;
use type_rows::Totals;

/// Whether rows add up to nothing: they have no items and no variable bytes.
fn are_nothing(totals: &Totals) -> bool
    ensures { IsTrue result → AreNothing totals.now }
{
    totals.bytes == 0 && totals.ends.items == 0 && totals.ends.offsets.iter().all(|end| *end == 0)
}

/// Takes off the row under an ordinal, if there is one, where it stands packed. Of nothing nothing is taken off.
#[tactic(auto, using(crate::proofs::CountedRows::nothing_less))]
fn take_under(totals: &mut Totals, leaving: &Leaving<'_>, rows: &PackedRows<'_>, ordinal: u32)
    requires standing { AreStanding rows.now.rows leaving.now }
    requires enough { length leaving.now.columns.items ≤ length totals.old.ends.offsets.items }
    ensures { AreLess totals.old (get rows.now.rows ordinal) totals.new }
{
    if are_nothing(totals) {
        return;
    }
    if rows.is_live(ordinal) {
        leaving.take_off(totals, ordinal);
    }
}

/// Takes off the rows under ordinals.
pub(crate) fn take_rows(
    totals: &mut Totals,
    leaving: &Leaving<'_>,
    rows: &PackedRows<'_>,
    removed: &[u64],
)
    requires standing { AreStanding rows.now.rows leaving.now }
    requires enough { length leaving.now.columns.items ≤ length totals.old.ends.offsets.items }
    requires small { All (λ ordinal. ordinal < 2 ^ 32) removed.now }
    requires rising { IsStrictlySortedBy nat_cmp (keys_of (map removal removed.now)) }
    ensures counted { IsCounted rows.now.rows (map removal removed.now) totals.old totals.new }
    ensures long { length totals.new.ends.offsets.items ≡ length totals.old.ends.offsets.items }
{
    for ordinal in removed {
        take_under(totals, leaving, rows, *ordinal as u32);
    }
}

/// Counts the rows that a patch adds, where they stand in it; no row stands under their ordinals. It tells whether each part of them fits its width
/// in the patch, and the bytes keep the limit.
pub(crate) fn add_rows(totals: &mut Totals, differences: &Differences<'_, '_>) -> bool
    requires long { length totals.old.ends.offsets.items ≡ length (shape_fields differences.now.schema.now.shape) }
    requires apart { AreApart differences.now }
    ensures counted { IsTrue result → (rows : RowMap) → AreFree rows differences.now.patch.now.added → IsCounted rows (added_of differences.now) totals.old totals.new }
    ensures fits { IsTrue result → AreFitting differences.now.schema.now.shape differences.now.patch.now.widths (added_of differences.now) }
    ensures long { IsTrue result → length totals.new.ends.offsets.items ≡ length totals.old.ends.offsets.items }
{
    for place in 0..differences.patch.added.len() {
        if !add_row(totals, differences, place as u64) {
            return false;
        }
    }
    true
}
