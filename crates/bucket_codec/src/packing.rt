//! Rows of sets and maps, packed.
ghost use Rattle.std.specs.Prelude.{◌≡◌, ℕ, ◌+◌, ◌*◌, ◌^◌, ◌<◌, ◌≤◌, List, [], length, vec_len, All, Option, Some, None, option_copied, slice_index_or, IfOk, OnOk};
ghost use Rattle.bit_array.specs.Element.{number_of, words_of};
ghost use Rattle.row_model.specs.declared.row.Row.{Row as StoredRow};
ghost use Rattle.bucket_codec.specs.Filled.{KeepsFront, KeepsBack};
ghost use Rattle.bucket_codec.specs.Run.{IsZeroIfEmpty};
ghost use Rattle.bucket_codec.specs.BucketPlace.{pointer_width, key_width, value_width, place_width, bucket_width, start_at, end_at, HoldsPointers};
ghost use Rattle.bucket_codec.specs.Packed.{pairs_of, buckets_of, bucket_total, IsPackable, IsFew, IsWritable, PacksRows, PacksPairs, LaysRun, LaysRuns, IsPacked};

use crate::hash::buckets_for;
use crate::place::{map_value_width, place_bits, put_pointers};
use crate::run::Run;
use bit_array::zeros;
use row_model::{Areas, Packed, PlacedRows, Row, Widths, Words, row_of_place};
use schema_model::Schema;
use std::alloc::{AllocError, Global};

/// The words that spell these rows, place by place.
///
/// A row takes the number of buckets of its elements or pairs, which are put in by rising element or key, each into the first empty bucket from
/// its home on. An empty bucket is all ones in the element or key, and has the value 0. A place without a row has the pointer of the place before
/// and the size 0. No bit stands behind the places and the buckets.
pub fn pack<P: PlacedRows>(
    alloc: Global,
    schema: &Schema,
    widths: &Widths,
    rows: &P,
) -> Result<Packed, AllocError>
    requires { IsPackable schema.now.shape widths.now (P.places rows.now) }
    ensures packed { IfOk result (λ packed. PacksRows schema.now.shape widths.now (P.places rows.now) packed.first packed.second) }
    ensures first { IfOk result (λ packed. length packed.first ≡ words_of (length (P.places rows.now) * place_width widths.now)) }
    ensures second { IfOk result (λ packed. length packed.second ≡ words_of (bucket_total (P.places rows.now) * bucket_width widths.now)) }
    ensures zeros { IfOk result (λ packed. (index : ℕ) → index < bucket_total (P.places rows.now) → IsZeroIfEmpty packed.second (key_width widths.now) (value_width widths.now) index) }
    ensures first_bits { IfOk result (λ packed. number_of packed.first < 2 ^ (length (P.places rows.now) * place_width widths.now)) }
    ensures second_bits { IfOk result (λ packed. number_of packed.second < 2 ^ (bucket_total (P.places rows.now) * bucket_width widths.now)) }
    ensures laid { IfOk result (λ packed. LaysRuns widths.now (P.places rows.now) packed.first packed.second) }
    ensures whole { IfOk result (λ packed. IsPacked schema.now.shape widths.now (P.places rows.now) packed.first packed.second) }
    ensures areas { IfOk result (λ packed. packed.areas ≡ []) }
{
    let widths = widths.as_slice();
    let mut first = zeros(alloc, rows.count() as u64 * place_bits(widths))?;
    let mut second = zeros(alloc, total_buckets(alloc, rows)? * bucket_bits(widths))?;
    put_rows(
        alloc,
        widths,
        rows,
        first.as_mut_slice(),
        second.as_mut_slice(),
    )?;
    Ok(Packed {
        first: Words::from_vec(first),
        second: Words::from_vec(second),
        areas: Areas::new(alloc),
    })
}

/// The width of a bucket in bits.
fn bucket_bits(widths: &[u32]) -> u64
    requires { 3 ≤ length widths.now }
    ensures { result ≡ bucket_width widths.now }
{
    u64::from(widths[2]) + u64::from(map_value_width(widths))
}

/// How many elements or pairs a row has.
pub fn size_of(row: &Row) -> usize
    ensures is { result ≡ length (pairs_of row.now) }
    ensures small { result < 2 ^ 63 }
{
    match row {
        Row::Set(elements) => elements.as_slice().len(),
        Row::Map(pairs) => pairs.as_slice().len(),
        _ => 0,
    }
}

/// How many buckets the row of a place takes.
fn bucket_count(row: Option<&Row>) -> u64
    requires { IsFew (option_copied row) }
    ensures { result ≡ buckets_of (option_copied row.entry) }
{
    match row {
        None => 0,
        Some(row) => buckets_for(size_of(row) as u32),
    }
}

/// How many buckets the rows of all places take together.
fn total_buckets<P: PlacedRows>(alloc: Global, rows: &P) -> Result<u64, AllocError>
    requires few { All IsFew (P.places rows.now) }
    requires small { bucket_total (P.places rows.now) < 2 ^ 64 }
    ensures { IfOk result (λ total. total ≡ bucket_total (P.places rows.now)) }
{
    let mut total = 0;
    for place in 0..rows.count() {
        let lent = rows.place(alloc, place)?;
        total += bucket_count(row_of_place(&lent));
    }
    Ok(total)
}

/// Writes the rows of all places.
fn put_rows<P: PlacedRows>(
    alloc: Global,
    widths: &[u32],
    rows: &P,
    first: &mut [u64],
    second: &mut [u64],
) -> Result<(), AllocError>
    requires three { 3 ≤ length widths.now }
    requires narrow { All (λ width. width ≤ 64) widths.now }
    requires each { All (IsWritable widths.now) (P.places rows.now) }
    requires few { length (P.places rows.now) < 2 ^ 32 }
    requires pointers { bucket_total (P.places rows.now) < 2 ^ pointer_width widths.now }
    requires places { length (P.places rows.now) * place_width widths.now ≤ 64 * length first.old }
    requires buckets { bucket_total (P.places rows.now) * bucket_width widths.now ≤ 64 * length second.old }
    requires bits { 64 * length second.old < 2 ^ 64 }
    ensures packed { OnOk result ((place : ℕ) → place < length (P.places rows.now) → PacksPairs widths.now (bucket_total (P.places rows.now)) first.new second.new place (slice_index_or (P.places rows.now) place None)) }
    ensures laid { OnOk result ((place : ℕ) → place < length (P.places rows.now) → LaysRun widths.now first.new second.new place (slice_index_or (P.places rows.now) place None)) }
    ensures zeros { OnOk result ((index : ℕ) → index < bucket_total (P.places rows.now) → IsZeroIfEmpty second.new (key_width widths.now) (value_width widths.now) index) }
    ensures first { OnOk result (KeepsBack first.old first.new (length (P.places rows.now) * place_width widths.now)) }
    ensures second { OnOk result (KeepsBack second.old second.new (bucket_total (P.places rows.now) * bucket_width widths.now)) }
{
    let mut end = 0;
    for place in 0..rows.count() {
        let lent = rows.place(alloc, place)?;
        let row = row_of_place(&lent);
        end = put_row(widths, row, first, second, place as u64, end);
    }
    Ok(())
}

/// Writes the row of a place. Its run starts where that of the place before ends; where it ends itself is the answer.
///
/// Only the bits of this place and of this run change. No memory is taken.
pub fn put_row(
    widths: &[u32],
    row: Option<&Row>,
    first: &mut [u64],
    second: &mut [u64],
    place: u64,
    start: u64,
) -> u64
    requires three { 3 ≤ length widths.now }
    requires holds { HoldsPointers widths.now first.old place }
    requires row { IsWritable widths.now (option_copied row) }
    requires start { start_at widths.now first.old place ≡ start }
    requires pointer { start + buckets_of (option_copied row) < 2 ^ pointer_width widths.now }
    requires inside { (start + buckets_of (option_copied row)) * bucket_width widths.now ≤ 64 * length second.old }
    requires bits { 64 * length second.old < 2 ^ 64 }
    ensures end { result ≡ start + buckets_of (option_copied row.entry) }
    ensures pointer { end_at widths.now first.new place ≡ result }
    ensures packed { PacksPairs widths.now result first.new second.new place (option_copied row.entry) }
    ensures laid { LaysRun widths.now first.new second.new place (option_copied row.entry) }
    ensures first { KeepsFront first.old first.new (place * place_width widths.now) }
    ensures second { KeepsFront second.old second.new (start * bucket_width widths.now) }
    ensures zeros { (index : ℕ) → start ≤ index → index < result → IsZeroIfEmpty second.new (key_width widths.now) (value_width widths.now) index }
    ensures first_back { KeepsBack first.old first.new ((place + 1) * place_width widths.now) }
    ensures second_back { KeepsBack second.old second.new (result * bucket_width widths.now) }
{
    let Some(row) = row else {
        put_pointers(widths, first, place, start, 0);
        return start;
    };
    let size = size_of(row);
    let run = Run {
        key_width: widths[2],
        value_width: map_value_width(widths),
        start,
        size: buckets_for(size as u32),
    };
    run.fill(second, row);
    let end = start + run.size;
    put_pointers(widths, first, place, end, size as u64);
    end
}
