//! The type that an order asks of.
ghost use Rattle.std.specs.Prelude.{IfOk};
ghost use Rattle.consumer_orders.specs.Asked.{TellsType};

use hol_answers::Refusal;
use hol_varint::Duplicate;
use read_engine::Consumer;
use schema_model::Name;
use std::alloc::{AllocError, Global};

/// The type of the consumer's model that an order names, or why there is none.
#[derive(Drop)]
pub enum Asked {
    /// The type at this index of the consumer's model.
    At(u32),
    /// There is none: the consumer has no state (`NoState`), or its model has no type of the name (`NoType`).
    Refused(Refusal),
}

/// The index of the type of this name in the consumer's model. Refused with `NoState` where the consumer has no state, and else with `NoType` where its
/// model has no type of the name.
pub fn type_of(alloc: Global, consumer: &Consumer, name: &Name) -> Result<Asked, AllocError>
    ensures { IfOk result (TellsType consumer.now name.now) }
{
    let Some(model) = consumer.model() else {
        return Ok(Asked::Refused(Refusal::NoState));
    };
    match model.index_of(name.text()) {
        Some(type_index) => Ok(Asked::At(type_index)),
        None => Ok(Asked::Refused(Refusal::NoType(name.copy(alloc)?))),
    }
}
