//! The ordinals of a set and the pairs of a map, in the order of their rows.
ghost use Rattle.std.specs.Prelude.{◌≡◌, IfOk};
ghost use Rattle.write_engine.specs.Cycle.{IsSetOf, IsMapOf};

use hol_varint::Ordinals;
use row_model::Pairs;
use std::alloc::{AllocError, Global};
use std::collections::BTreeMap;

/// The ordinals of a set: each of the elements' once, rising.
pub fn set_of(alloc: Global, elements: &[u32]) -> Result<Ordinals, AllocError>
    ensures { IfOk result (IsSetOf elements.now) }
{
    let mut members = Vec::with_capacity(alloc, elements.len())?;
    members.extend_from_slice(elements)?;
    members.sort_unstable();
    members.dedup();
    Ok(Ordinals::from_vec(members))
}

/// The pairs of a map: each key once, rising, with the value beside it where it stands first.
pub(crate) fn map_of(alloc: Global, pairs: &[(u32, u32)]) -> Result<Pairs, AllocError>
    ensures { IfOk result (IsMapOf pairs.now) }
{
    let mut members = BTreeMap::new(alloc);
    for pair in pairs {
        if !members.contains_key(&pair.0) {
            members.insert(pair.0, pair.1)?;
        }
    }
    Ok(Pairs::from_vec(entries_of(alloc, members)?))
}

fn entries_of(alloc: Global, members: BTreeMap<u32, u32>) -> Result<Vec<(u32, u32)>, AllocError>
    ensures { IfOk result (λ entries. entries.items ≡ members.entries) }
{
    members.into_iter().collect(alloc)
}
