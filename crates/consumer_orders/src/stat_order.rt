//! The order `stat`.
ghost use Rattle.std.specs.Prelude.{◌≡◌, ◌<◌, IfErr, IfOk, IsSome, IsSomeAnd, length};
ghost use Rattle.hollow_machine.specs.StatOrder.{StatReply, counts_of_types};
ghost use Rattle.consumer_orders.specs.Counted.{AreCountsAt};

use hol_answers::{Refusal, Reply, TypeCounts, TypesCounts};
use hol_orders::OrderStop;
use hol_varint::Duplicate;
use read_engine::Consumer;
use row_model::Rows;
use std::alloc::{AllocError, Global};

/// Tells of each type how many rows are live, the greatest ordinal that has a place, and how many words and bytes the rows take. Refused with `NoState`.
#[tactic(auto, using(crate::proofs::Counting::no_state, crate::proofs::Counting::has_state, crate::proofs::Counting::stat_told))]
#[inline(never)]
pub fn stat(alloc: Global, consumer: &Consumer) -> Result<Reply, OrderStop>
    ensures reply { IfOk result (StatReply consumer.now) }
    ensures stop { IfErr result (λ stop. stop ≡ OrderStop.Memory) }
{
    let Some(tag) = consumer.tag() else {
        return Ok(Reply::Refused(Refusal::NoState));
    };
    let types = counts_of_types(alloc, consumer)?;
    Ok(Reply::Stat { tag, types })
}

// What is told of the types of the consumer's model, in their order.
fn counts_of_types(alloc: Global, consumer: &Consumer) -> Result<TypesCounts, AllocError>
    requires { IsSome consumer.now }
    ensures { IfOk result (λ types. IsSomeAnd consumer.now (λ now. types ≡ counts_of_types now.schemas now.halves)) }
{
    let rows = consumer.now();
    let mut types = TypesCounts::new(alloc);
    for type_index in 0..rows.model().len() {
        types.push(counts_of_type(alloc, consumer, type_index)?)?;
    }
    Ok(types)
}

// What is told of the type at an index.
fn counts_of_type(
    alloc: Global,
    consumer: &Consumer,
    type_index: u32,
) -> Result<TypeCounts, AllocError>
    requires { IsSomeAnd consumer.now (λ now. type_index < length now.schemas) }
    ensures { IfOk result (λ counts. IsSomeAnd consumer.now (λ now. AreCountsAt now type_index counts)) }
{
    let rows = consumer.now();
    let name = &rows.model().schema(type_index).name;
    Ok(TypeCounts {
        type_name: name.copy(alloc)?,
        live: consumer.live_count(type_index),
        max: consumer.max(type_index),
        words: consumer.words_held(type_index),
        bytes: consumer.bytes_held(type_index),
    })
}
