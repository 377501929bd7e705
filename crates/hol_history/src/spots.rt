//! Which steps touched which rows, in an order in which one look-up finds the first step from a given one on that touched a row.
ghost use Rattle.std.specs.Prelude.{◌≡◌, true, false, OnErr, OnOk};
ghost use Rattle.hol_history.specs.Spots.{IsFirst, IsGreatest, KeepsOthers, Sets, names};

use std::alloc::AllocError;
use std::collections::BTreeSet;

/// That a step touched the row of a type under an ordinal: it came in the step, or it left. Spots are ordered by type, then by ordinal, and then by step.
#[derive(Clone, Copy, PartialEq, Eq, PartialOrd, Ord)]
pub(crate) struct Spot {
    type_index: u32,
    ordinal: u32,
    /// The number of the step.
    number: u64,
}

/// What steps touched.
pub(crate) type Spots = BTreeSet<Spot>;

/// Puts in that a step touched the rows of a type under some ordinals. Where memory is refused some of them may be in.
pub(crate) fn put_spots(
    spots: &mut Spots,
    type_index: u32,
    ordinals: &[u32],
    number: u64,
) -> Result<(), AllocError>
    ensures ok { OnOk result (Sets true (names type_index ordinals.now number) spots.old spots.new) }
    ensures err { OnErr result (KeepsOthers (names type_index ordinals.now number) spots.old spots.new) }
{
    for ordinal in ordinals {
        spots.insert(Spot {
            type_index,
            ordinal: *ordinal,
            number,
        })?;
    }
    Ok(())
}

/// Takes out that a step touched the rows of a type under some ordinals.
pub(crate) fn take_spots(spots: &mut Spots, type_index: u32, ordinals: &[u32], number: u64)
    ensures { Sets false (names type_index ordinals.now number) spots.old spots.new }
{
    for ordinal in ordinals {
        spots.remove(&Spot {
            type_index,
            ordinal: *ordinal,
            number,
        });
    }
}

/// The number of the first step, not before the one of a given number, that touched the row of a type under an ordinal.
pub(crate) fn first_touch(spots: &Spots, type_index: u32, ordinal: u32, number: u64) -> Option<u64>
    ensures { IsFirst spots.now type_index ordinal number result }
{
    let from = Spot {
        type_index,
        ordinal,
        number,
    };
    match spots.range(from..).next() {
        Some(spot) if spot.type_index == type_index && spot.ordinal == ordinal => Some(spot.number),
        _ => None,
    }
}

/// A number that no ordinal exceeds under which a step before the one of a given number touched a row of a type.
pub(crate) fn greatest_touched(spots: &Spots, type_index: u32, number: u64) -> u32
    ensures { IsGreatest spots.now type_index number result }
{
    let to = Spot {
        type_index,
        ordinal: u32::MAX,
        number,
    };
    match spots.range(..=to).next_back() {
        Some(spot) if spot.type_index == type_index => spot.ordinal,
        _ => 0,
    }
}
