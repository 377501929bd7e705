//! The limits on the ordinals and items of a type.
ghost use Rattle.std.specs.Prelude.{MatchOption};
ghost use Rattle.blob_faults.specs.Judge.{Judge};
ghost use Rattle.blob_faults.specs.Rows.{counts};

use blob_frame::BlobFault;
use schema_model::{Limit, MAX_ITEMS, MAX_ORDINALS};

/// The limit that a type of a blob passes as it is announced there, if any: its max ordinal is 2^22 or more, or else its elements or buckets are
/// more than 2^25.
pub fn counts_fault(max: Option<u32>, total: u64) -> Option<BlobFault>
    ensures { MatchOption result ((counts max total).Passes tt) (counts max total).Fails }
{
    if max.is_some_and(|max| max >= MAX_ORDINALS) {
        return Some(BlobFault::Large(Limit::Ordinals));
    }
    if total > MAX_ITEMS {
        return Some(BlobFault::Large(Limit::Items));
    }
    None
}
