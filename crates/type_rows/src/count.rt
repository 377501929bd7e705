//! How many variable bytes and how many items values and rows have.
ghost use Rattle.std.specs.Prelude.{◌≡◌, ◌-◌, ◌^◌, ◌<◌, min, sum_by};
ghost use Rattle.bucket_codec.specs.BucketCount.{bucket_count};
ghost use Rattle.type_rows.specs.WordsHeld.{value_bytes as bytes_of_value, row_bytes};

use bucket_codec::buckets_for;
use object_codec::value_bytes;
use row_model::{Row, Value};
use schema_model::MAX_WORDS;

/// The most elements that the rows of a type may have to be laid out, and the most buckets that are walked to read them: as many as the limit on
/// words lets a type have of one bit each.
///
/// Elements of no bits take no words, and a run may stand at many places, so a short blob can have any number of both.
pub const MOST_ITEMS: u64 = 64 * MAX_WORDS;

/// How many variable bytes some values have; the greatest number where they are more.
#[tactic(auto, using(crate::proofs::ValueBytes::value_count))]
fn values_len(values: &[Value]) -> u64
    ensures { result ≡ min (sum_by bytes_of_value values.now) (2 ^ 64 - 1) }
{
    let mut len: u64 = 0;
    for value in values {
        len = len.saturating_add(value_bytes(value));
    }
    len
}

/// How many variable bytes a row has; the greatest number where they are more.
pub fn row_len(row: &Row) -> u64
    ensures { result ≡ min (row_bytes row.now) (2 ^ 64 - 1) }
{
    match row {
        Row::Object(values) => values_len(values.as_slice()),
        _ => 0,
    }
}

/// How many buckets a set or map of so many elements takes.
pub(crate) fn buckets(elements: usize) -> u64
    requires { elements < 2 ^ 32 }
    ensures { result ≡ bucket_count elements }
{
    buckets_for(elements as u32)
}
