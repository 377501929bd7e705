//! The summary of the script.
ghost use Rattle.std.specs.Prelude.{◌≡◌, IfOk};
ghost use Rattle.hollow_machine.specs.MakeCommand.{SumsUp, row_count};

use film_script::{FILM_TYPE, TAGS_TYPE, TEXT_TYPE};
use hol_answers::Made;
use hol_orders::Versions;
use row_model::Rows;
use row_packing::live_ordinals;
use std::alloc::{AllocError, Global};
use write_engine::Producer;

/// How many states were published, and how many rows of each type the producer's last one has.
pub(crate) fn summary(
    alloc: Global,
    producer: &Producer,
    published: &Versions,
) -> Result<Made, AllocError>
    ensures { IfOk result (SumsUp published.now producer.now.previous) }
{
    let rows = producer.previous();
    Ok(Made {
        published: published.len() as u64,
        films: row_count(alloc, &rows, FILM_TYPE)?,
        tags: row_count(alloc, &rows, TAGS_TYPE)?,
        texts: row_count(alloc, &rows, TEXT_TYPE)?,
    })
}

// How many rows a type has.
fn row_count<R: Rows>(alloc: Global, rows: &R, type_index: u32) -> Result<u64, AllocError>
    ensures { IfOk result (λ count. count ≡ row_count (R.table rows.now) type_index) }
{
    let live = live_ordinals(alloc, rows, type_index)?;
    Ok(live.ordinals(alloc)?.len() as u64)
}
