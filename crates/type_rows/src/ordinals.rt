//! The first bad ordinal: what a patch removes and adds, walked from the front, and what is live and stays, by rising ordinal.
ghost use Rattle.std.specs.Prelude.{◌↔◌, ◌≡◌, ◌-◌, ◌^◌, ◌<◌, ◌≤◌, Contains, IfSome, IsTrue, MatchOption};
ghost use Rattle.std.specs.List.Sorted.{IsStrictlyIncreasing};
ghost use Rattle.std.specs.FinMap.{keys};
ghost use Rattle.schema_model.specs.Limit.{number_of_limit};
ghost use Rattle.schema_model.specs.declared.limit.Limit.TheVariants.{Ordinals};
ghost use Rattle.row_model.specs.Table.{RowMap};
ghost use Rattle.type_rows.specs.Layout.{places_of};
ghost use Rattle.type_rows.specs.First.{FirstFails, NoneFails};
ghost use Rattle.type_rows.specs.MoveFault.{FailsOrdinals, OrdinalsPass};
ghost use Rattle.type_rows.specs.Ordinals.{FailsAdded, FailsRemoved, HasNoPlace, HoldsNowhere, IsLeast, StaysOutside};

use crate::{PatchSection, place_count};
use ordinal_set::OrdinalSet;

/// Whether a set has a number, which may be past the greatest ordinal.
#[tactic(auto, using(crate::proofs::Walks::no_member))]
fn has(live: &OrdinalSet, number: u64) -> bool
    ensures { IsTrue result ↔ Contains live.now number }
{
    if number > u64::from(u32::MAX) {
        // Each ordinal of a set is below its bound, which has 32 bits.
        let _bound = live.bound();
        return false;
    }
    live.contains(number as u32)
}

/// The first removed ordinal that is not above the one before it, or is not live.
#[tactic(auto, using(crate::proofs::Walks::begun, crate::proofs::Walks::walked_on, crate::proofs::Walks::low_number, crate::proofs::Walks::high_number, crate::proofs::Walks::found_first, crate::proofs::Walks::found_none))]
fn first_bad_removed(live: &OrdinalSet, removed: &[u64]) -> Option<u64>
    ensures { MatchOption result (NoneFails (FailsRemoved live.now removed.now) removed.now) (FirstFails (FailsRemoved live.now removed.now) removed.now) }
{
    let mut from: u128 = 0;
    for ordinal in removed {
        if u128::from(*ordinal) < from || !has(live, *ordinal) {
            return Some(*ordinal);
        }
        from = u128::from(*ordinal) + 1;
    }
    None
}

/// The first added ordinal that is not above the one before it, has none of so many places, or is live.
#[tactic(auto, using(crate::proofs::Walks::begun, crate::proofs::Walks::walked_on, crate::proofs::Walks::low_number, crate::proofs::Walks::high_number, crate::proofs::Walks::found_first, crate::proofs::Walks::found_none))]
fn first_bad_added(live: &OrdinalSet, places: u64, added: &[u64]) -> Option<u64>
    ensures { MatchOption result (NoneFails (FailsAdded live.now places added.now) added.now) (FirstFails (FailsAdded live.now places added.now) added.now) }
{
    let mut from: u128 = 0;
    for ordinal in added {
        if u128::from(*ordinal) < from || *ordinal >= places || has(live, *ordinal) {
            return Some(*ordinal);
        }
        from = u128::from(*ordinal) + 1;
    }
    None
}

/// The least live ordinal that has none of so many places.
#[tactic(auto, using(crate::proofs::Walks::next_without_place))]
pub(crate) fn first_without_place(live: &OrdinalSet, places: u32) -> Option<u32>
    ensures least { MatchOption result (HoldsNowhere (HasNoPlace live.now places)) (IsLeast (HasNoPlace live.now places)) }
    ensures small { IfSome result (λ ordinal. ordinal < 2 ^ 32 - 1) }
    ensures rising { IsStrictlyIncreasing live.now }
{
    live.next_from(places)
}

/// The least live ordinal that is not removed and has none of so many places. The removed ones rise.
#[tactic(auto, using(crate::proofs::Walks::none_before, crate::proofs::Walks::removed_passed, crate::proofs::Walks::stays_first, crate::proofs::Walks::stays_nowhere))]
fn first_staying_outside(live: &OrdinalSet, removed: &[u64], places: u32) -> Option<u64>
    requires { IsStrictlyIncreasing removed.now }
    ensures { MatchOption result (HoldsNowhere (StaysOutside live.now removed.now places)) (IsLeast (StaysOutside live.now removed.now places)) }
{
    let mut from = places;
    while let Some(ordinal) = first_without_place(live, from) {
        if removed.binary_search(&u64::from(ordinal)).is_err() {
            return Some(u64::from(ordinal));
        }
        from = ordinal + 1;
    }
    None
}

/// The first bad ordinal of a patch of rows with these ordinals: what it removes is walked first, then what it adds, then what stays.
pub fn first_bad_ordinal(live: &OrdinalSet, patch: &PatchSection) -> Option<u64>
    requires { places_of patch.now.max ≤ number_of_limit Ordinals }
    ensures { (old : RowMap) → keys old ≡ live.now → MatchOption result (OrdinalsPass patch.now old) (FailsOrdinals patch.now old) }
{
    let places = place_count(patch.max);
    let removed = patch.removed.as_slice();
    if let Some(ordinal) = first_bad_removed(live, removed) {
        return Some(ordinal);
    }
    if let Some(ordinal) = first_bad_added(live, places, patch.added.as_slice()) {
        return Some(ordinal);
    }
    if let Some(ordinal) = first_staying_outside(live, removed, places as u32) {
        return Some(ordinal);
    }
    None
}
