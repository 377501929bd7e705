//! Rows of sets and maps, read.
ghost use Rattle.std.specs.Prelude.{◌≡◌, IfOk, Ok, Err};
ghost use Rattle.hol_varint.specs.Yields.{Yields};
ghost use Rattle.row_model.specs.declared.row.Row.{Row as StoredRow};
ghost use Rattle.schema_model.specs.declared.reason.Reason.{Reason};
ghost use Rattle.row_model.specs.declared.packed.PlaceFault.TheVariants.{Bad};
ghost use Rattle.bucket_codec.specs.Run.{keys_of};
ghost use Rattle.bucket_codec.specs.BucketRows.{HoldsAt};
ghost use Rattle.bucket_codec.specs.BucketPlace.{HoldsPlace, SpellsBucketRow, FailsBucketRow, TellsBucketRow, TellsPlace, IsFreePlace};

use crate::bucket_rows::BucketRows;
use hol_varint::Ordinals;
use row_model::{Pairs, Parts, PlaceFault, Row, Widths};
use schema_model::{Reason, Schema, Shape};
use std::alloc::{AllocError, Global};

/// The set or map that the parts of a SET or MAP type spell at a place.
///
/// Pointer `k` is the end of run `k`, in buckets, and its start is pointer `k - 1`, or 0. A bucket of a set is an element, of a map a key
/// and then a value, and is empty where the element or key is all ones. `Bad` gives the first reason why a place spells none:
/// `BadPointers` where the start is past the end, or the end past the total or past what the words of the buckets hold; `BadValue` where an
/// element, a key or a value of a taken bucket is over 2^32 - 1; `BadBuckets` where the run's length is no power of two, no bucket is empty, the
/// size is not the number of taken buckets, a key stands twice, or one is not reached from its home over taken buckets.
pub fn read<P: Parts>(
    alloc: Global,
    schema: &Schema,
    widths: &Widths,
    total: u64,
    parts: &P,
    place: u64,
) -> Result<Row, PlaceFault>
    requires { HoldsPlace schema.now.shape widths.now (P.first_words parts.now) (P.second_words parts.now) place }
    ensures tells { TellsBucketRow schema.now.shape widths.now total (P.first_words parts.now) (P.second_words parts.now) place result }
    ensures spelled { (row : StoredRow) → Yields IsFreePlace result (Ok row) (SpellsBucketRow schema.now.shape widths.now total (P.first_words parts.now) (P.second_words parts.now) place row) }
    ensures bad { (reason : Reason) → Yields IsFreePlace result (Err (Bad reason)) (FailsBucketRow widths.now total (P.first_words parts.now) (P.second_words parts.now) place reason) }
{
    let rows = BucketRows {
        widths: widths.as_slice(),
        total,
        first: parts.first(),
        second: parts.second(),
    };
    rows.row(alloc, &schema.shape, place)
}

impl<'a> BucketRows<'a> {
    /// The set or map at a place of a type of this shape, or why there is none.
    fn row(&self, alloc: Global, shape: &Shape, place: u64) -> Result<Row, PlaceFault>
        requires { HoldsPlace shape.now self.now.widths.now self.now.first.now self.now.second.now place }
        ensures { TellsBucketRow shape.now self.now.widths.now self.now.total self.now.first.now self.now.second.now place result }
    {
        let pairs = self.pairs(alloc, place)?;
        match shape {
            Shape::Set(_) => Ok(Row::Set(keys(alloc, pairs.as_slice())?)),
            Shape::Map(_, _) => Ok(Row::Map(pairs)),
            _ => unreachable!(),
        }
    }

    /// The pairs of the set or map at a place, by rising key, or why there is none.
    pub(crate) fn pairs(&self, alloc: Global, place: u64) -> Result<Pairs, PlaceFault>
        requires { HoldsAt self.now place }
        ensures { TellsPlace self.now.widths.now self.now.total self.now.first.now self.now.second.now place result }
    {
        let Some(buckets) = self.buckets(place) else {
            return Err(PlaceFault::Bad(Reason::BadPointers));
        };
        buckets.pairs(alloc, self.size(place))
    }
}

/// The keys of pairs, in the order of the pairs.
fn keys(alloc: Global, pairs: &[(u32, u32)]) -> Result<Ordinals, AllocError>
    ensures { IfOk result (λ keys. keys ≡ keys_of pairs.now) }
{
    let mut keys = Ordinals::with_capacity(alloc, pairs.len())?;
    for (key, _) in pairs {
        keys.push(*key)?;
    }
    Ok(keys)
}
