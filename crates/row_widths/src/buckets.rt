//! The widths and the total that the writer chooses, over the rows of two states.
ghost use Rattle.std.specs.Prelude.{◌≡◌, ◌<◌, ◌+◌, ◌-◌, ◌^◌, length, min, max, fold, slice_get, IfOk, IsSomeAnd};
ghost use Rattle.row_model.specs.BothStates.{rows_of_both};
ghost use Rattle.bucket_codec.specs.BucketCount.{bucket_count};
ghost use Rattle.bucket_codec.specs.Run.{keys_of};
ghost use Rattle.bucket_codec.specs.Packed.{pairs_of};
ghost use Rattle.bucket_codec.specs.Widths.{buckets_of_rows, values_of, widths_for, total_for};
ghost use Rattle.row_widths.specs.BucketSpread.{IsSpread};

use crate::RowWalk;
use bit_array::digits;
use bucket_codec::{buckets_for_any, size_of};
use row_model::{Row, Rows, Widths};
use schema_model::{MAX_ITEMS, Shape};
use std::alloc::{AllocError, Global};

/// The widths, in bits, of the pointers, the sizes, and the elements of a SET type, or the keys and values of a MAP type: those that the rows of
/// both states need. Pointers, sizes and values have one at least; an element or key is below all ones.
///
/// The rows of both states take fewer than 2^62 buckets, a row that both have counted once.
pub fn widths<A: Rows, B: Rows>(
    alloc: Global,
    old: &A,
    new: &B,
    type_index: u32,
) -> Result<Widths, AllocError>
    requires known { type_index < length (A.schemas old.now) }
    requires few { buckets_of_rows (rows_of_both (A.table old.now) (B.table new.now) type_index) < 2 ^ 62 }
    ensures { IfOk result (λ widths. IsSomeAnd (slice_get (A.schemas old.now) type_index) (λ schema. widths ≡ widths_for schema.shape (rows_of_both (A.table old.now) (B.table new.now) type_index))) }
{
    let spread = gather(alloc, old, new, type_index)?;
    let mut widths = Widths::new(alloc);
    widths.push(digits(spread.buckets as u64).max(1))?;
    widths.push(digits(spread.size).max(1))?;
    widths.push(digits(u64::from(spread.key) + 1))?;
    if let Shape::Map(_, _) = old.model().schema(type_index).shape {
        widths.push(digits(u64::from(spread.value)).max(1))?;
    }
    Ok(widths)
}

/// How many buckets the rows of both states take, a row that both have counted once; 2^25 + 1 where they are over 2^25.
pub fn total<A: Rows, B: Rows>(
    alloc: Global,
    old: &A,
    new: &B,
    type_index: u32,
) -> Result<u64, AllocError>
    ensures { IfOk result (λ total. total ≡ total_for (rows_of_both (A.table old.now) (B.table new.now) type_index)) }
{
    let spread = gather(alloc, old, new, type_index)?;
    Ok(spread.buckets.min(u128::from(MAX_ITEMS + 1)) as u64)
}

/// How many buckets rows take, up to the greatest number, and the greatest of their sizes, their elements or keys, and their values, each 0
/// where there are none.
#[derive(Clone, Copy)]
struct Spread {
    buckets: u128,
    size: u64,
    key: u32,
    value: u32,
}

impl Spread {
    /// How many buckets rows take, and the greatest of their sizes, elements or keys, and values, with one row more.
    fn with(self, row: &Row) -> Spread
        ensures buckets { result.buckets ≡ min (self.buckets + bucket_count (length (pairs_of row.now))) (2 ^ 128 - 1) }
        ensures size { result.size ≡ max self.size (length (pairs_of row.now)) }
        ensures key { result.key ≡ max self.key (fold max 0 (keys_of (pairs_of row.now))) }
        ensures value { result.value ≡ max self.value (fold max 0 (values_of (pairs_of row.now))) }
    {
        let size = size_of(row) as u64;
        Spread {
            buckets: self.buckets.saturating_add(buckets_for_any(size)),
            size: self.size.max(size),
            key: self.key.max(greatest_key(row)),
            value: self.value.max(greatest_value(row)),
        }
    }
}

/// The greatest element or key of a row, 0 where it has none.
pub fn greatest_key(row: &Row) -> u32
    ensures { result ≡ fold max 0 (keys_of (pairs_of row.now)) }
{
    match row {
        Row::Set(elements) => elements.as_slice().iter().copied().max().unwrap_or(0),
        Row::Map(pairs) => pairs
            .as_slice()
            .iter()
            .map(|pair| pair.0)
            .max()
            .unwrap_or(0),
        _ => 0,
    }
}

/// The greatest value of a row, 0 where it has none.
pub fn greatest_value(row: &Row) -> u32
    ensures { result ≡ fold max 0 (values_of (pairs_of row.now)) }
{
    match row {
        Row::Map(pairs) => pairs
            .as_slice()
            .iter()
            .map(|pair| pair.1)
            .max()
            .unwrap_or(0),
        _ => 0,
    }
}

/// How the rows of both states spread.
fn gather<A: Rows, B: Rows>(
    alloc: Global,
    old: &A,
    new: &B,
    type_index: u32,
) -> Result<Spread, AllocError>
    ensures { IfOk result (λ spread. IsSpread (rows_of_both (A.table old.now) (B.table new.now) type_index) spread.buckets spread.size spread.key spread.value) }
{
    let mut spread = Spread {
        buckets: 0,
        size: 0,
        key: 0,
        value: 0,
    };
    let mut walk = RowWalk::start();
    while let Some(lent) = walk.next(alloc, old, new, type_index)? {
        spread = spread.with(lent.row());
    }
    Ok(spread)
}
