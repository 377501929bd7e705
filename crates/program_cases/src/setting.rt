//! What the next run of a case has beside its words.
use hol_memory::{MemSink, MemSource};
use std::alloc::{AllocError, Global};

/// How much a sink takes where nothing else is said.
const ROOM: usize = 10_000;

/// How many bytes a source gives a call where nothing else is said.
const PIECE: usize = 7;

/// What the next run has beside its words.
#[derive(Drop)]
pub struct Setting {
    /// The bytes of its input.
    pub input: Vec<u8>,
    /// What it is to write.
    pub wanted: Vec<u8>,
    /// How many bytes the source gives a call.
    pub piece: usize,
    /// How many bytes the sink takes in all.
    pub room: usize,
    /// The calls of the source that fail.
    pub calls: Vec<u64>,
    /// The calls of the store that fail.
    pub reads: Vec<u64>,
    /// The calls of the sink that fail.
    pub writes: Vec<u64>,
}

impl Setting {
    /// No input, nothing wanted, and no call that fails.
    pub fn new(alloc: Global) -> Setting {
        Setting {
            input: Vec::new(alloc),
            wanted: Vec::new(alloc),
            piece: PIECE,
            room: ROOM,
            calls: Vec::new(alloc),
            reads: Vec::new(alloc),
            writes: Vec::new(alloc),
        }
    }

    /// The source that gives the input.
    pub fn source(&self, alloc: Global) -> Result<MemSource, AllocError> {
        let input = Vec::from_slice(alloc, self.input.as_slice())?;
        let calls = Vec::from_slice(alloc, self.calls.as_slice())?;
        Ok(MemSource::new(input, self.piece.max(1), calls))
    }

    /// The sink that takes what it writes.
    pub fn sink(&self, alloc: Global) -> Result<MemSink, AllocError> {
        let writes = Vec::from_slice(alloc, self.writes.as_slice())?;
        MemSink::new(alloc, self.room, 7, writes)
    }
}
