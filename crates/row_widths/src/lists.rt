//! The widths and the total that the writer chooses, over the rows of two states.
ghost use Rattle.std.specs.Prelude.{◌≡◌, ◌<◌, ◌+◌, ◌-◌, ◌^◌, length, min, max, IfOk};
ghost use Rattle.list_codec.specs.Widths.{elements_of_row, elements_of_both, greatest as greatest_of, widths_for, total_for};

use crate::RowWalk;
use bit_array::digits;
use list_codec::elements_of;
use row_model::{Row, Rows, Widths};
use schema_model::MAX_ITEMS;
use std::alloc::{AllocError, Global};

/// The widths, in bits, of the pointers and the elements of a LIST type: those that the lists of both states need, and one at least.
///
/// The lists of both states have fewer than 2^62 elements, a list that both have counted once.
pub fn widths<A: Rows, B: Rows>(
    alloc: Global,
    old: &A,
    new: &B,
    type_index: u32,
) -> Result<Widths, AllocError>
    requires { length (elements_of_both (A.table old.now) (B.table new.now) type_index) < 2 ^ 62 }
    ensures { IfOk result (λ widths. widths ≡ widths_for (elements_of_both (A.table old.now) (B.table new.now) type_index)) }
{
    let spread = gather(alloc, old, new, type_index)?;
    let mut widths = Widths::new(alloc);
    widths.push(digits(spread.count).max(1))?;
    widths.push(digits(u64::from(spread.greatest)).max(1))?;
    Ok(widths)
}

/// How many elements the lists of both states have, a list that both have counted once; 2^25 + 1 where they are over 2^25.
pub fn total<A: Rows, B: Rows>(
    alloc: Global,
    old: &A,
    new: &B,
    type_index: u32,
) -> Result<u64, AllocError>
    ensures { IfOk result (λ total. total ≡ total_for (elements_of_both (A.table old.now) (B.table new.now) type_index)) }
{
    let spread = gather(alloc, old, new, type_index)?;
    Ok(spread.count.min(MAX_ITEMS + 1))
}

/// How many elements lists have, up to the greatest number, and the greatest of them, 0 for none.
#[derive(Clone, Copy)]
struct Spread {
    count: u64,
    greatest: u32,
}

impl Spread {
    /// How many elements there are, and the greatest of them, with those of one row more.
    fn with(self, row: &Row) -> Spread
        ensures count { result.count ≡ min (self.count + length (elements_of_row row.now)) (2 ^ 64 - 1) }
        ensures greatest { result.greatest ≡ max self.greatest (greatest_of (elements_of_row row.now)) }
    {
        let elements = elements_of(row);
        Spread {
            count: self.count.saturating_add(elements.len() as u64),
            greatest: self.greatest.max(greatest(elements)),
        }
    }
}

/// The greatest of some numbers, 0 where there are none.
pub fn greatest(numbers: &[u32]) -> u32
    ensures { result ≡ greatest_of numbers.now }
{
    let mut greatest = 0;
    for number in numbers {
        greatest = greatest.max(*number);
    }
    greatest
}

/// How many elements the lists of both states have, and the greatest of them.
#[tactic(auto, using(crate::proofs::ListSpreads::gathered_more))]
fn gather<A: Rows, B: Rows>(
    alloc: Global,
    old: &A,
    new: &B,
    type_index: u32,
) -> Result<Spread, AllocError>
    ensures count { IfOk result (λ spread. spread.count ≡ min (length (elements_of_both (A.table old.now) (B.table new.now) type_index)) (2 ^ 64 - 1)) }
    ensures greatest { IfOk result (λ spread. spread.greatest ≡ greatest_of (elements_of_both (A.table old.now) (B.table new.now) type_index)) }
{
    let mut spread = Spread {
        count: 0,
        greatest: 0,
    };
    let mut walk = RowWalk::start();
    while let Some(lent) = walk.next(alloc, old, new, type_index)? {
        spread = spread.with(lent.row());
    }
    Ok(spread)
}
