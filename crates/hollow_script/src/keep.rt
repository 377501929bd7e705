//! What a run keeps from one order to the next.
ghost use Rattle.hollow_script.specs.Kept.{KeepsNothing};

use hol_history::History;
use hol_incremental::Edits;
use hol_io::Lines;
use read_engine::Consumer;
use std::alloc::Global;
use write_engine::Producer;

/// What a run keeps from one order to the next.
#[derive(Drop)]
pub struct Keep {
    /// The producer, where there is one.
    pub producer: Option<Producer>,
    /// What changes go by: that of the producer's last state, from a change on until another order gives the producer a state. A change makes it where there is none.
    pub edits: Option<Edits>,
    /// The consumer, which has no state before it loads one.
    pub consumer: Consumer,
    /// The version to which the consumer's last load or step that was not refused led.
    pub version: Option<u64>,
    /// What each of the consumer's last steps since a load took away, of so many steps as were asked for: old states are read from it and the consumer's.
    pub history: History,
    /// The reader of the input's lines, once it is begun: the lines that it gave are those that were asked.
    pub lines: Option<Lines>,
}

impl Keep {
    /// No producer and nothing beside it, a consumer without a state and a version, a history that keeps no steps, and no input. It takes no memory.
    pub fn new(alloc: Global) -> Keep
        ensures { KeepsNothing result }
    {
        Keep {
            producer: None,
            edits: None,
            consumer: Consumer::new(alloc),
            version: None,
            history: History::new(alloc, 0),
            lines: None,
        }
    }
}
