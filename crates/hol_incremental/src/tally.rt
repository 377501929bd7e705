//! What is counted of the rows of a state.
ghost use Rattle.std.specs.Prelude.{◌≡◌, IfOk, length};
ghost use Rattle.write_engine.specs.Cycle.{no_rows};
ghost use Rattle.hol_incremental.specs.EditKeys.{no_counts};
ghost use Rattle.hol_incremental.specs.Sums.{AreSums};

use crate::counts::Counts;
use hol_varint::Duplicate;
use kept_sums::Sums;
use schema_model::Model;
use std::alloc::{AllocError, Global};

/// How often each row of a state is named, and what is kept of the rows of each type for their widths.
#[derive(Drop)]
pub(crate) struct Tally {
    /// How often each row is named.
    pub(crate) counts: Counts,
    /// For each type the sums of its rows.
    pub(crate) sums: Vec<Sums>,
}

impl Tally {
    /// That of no rows of a model's types.
    pub(crate) fn new(alloc: Global, model: &Model) -> Result<Tally, AllocError>
        ensures counts { IfOk result (λ tally. tally.counts ≡ no_counts (length model.now)) }
        ensures sums { IfOk result (λ tally. AreSums model.now (no_rows (length model.now)) tally.sums.items) }
    {
        Ok(Tally {
            counts: Counts::new(alloc, model.len())?,
            sums: no_sums(alloc, model)?,
        })
    }

    /// A copy of the tally, with its counts and its sums.
    pub(crate) fn copy(&self, alloc: Global) -> Result<Tally, AllocError>
        ensures counts { IfOk result (λ copy. copy.counts ≡ self.now.counts) }
        ensures sums { IfOk result (λ copy. copy.sums.items ≡ self.now.sums.items) }
    {
        Ok(Tally {
            counts: self.counts.copy(alloc)?,
            sums: Sums::copy_all(alloc, self.sums.as_slice())?,
        })
    }
}

// The sums of no rows of each type.
fn no_sums(alloc: Global, model: &Model) -> Result<Vec<Sums>, AllocError>
    ensures { IfOk result (λ sums. AreSums model.now (no_rows (length model.now)) sums.items) }
{
    let mut sums = Vec::new(alloc);
    for type_index in 0..model.len() {
        let one = Sums::new(alloc, &model.schema(type_index).shape)?;
        sums.push(one)?;
    }
    Ok(sums)
}
