//! The outside in memory, for worked cases: a source, a sink and stores whose calls fail where they are told to.
#![tactic(auto)]

mod buffer;
mod calls;
mod mem_sink;
mod mem_source;
mod mem_store;
mod sure_store;

pub use mem_sink::MemSink;
pub use mem_source::MemSource;
pub use mem_store::MemStore;
pub use sure_store::SureStore;
