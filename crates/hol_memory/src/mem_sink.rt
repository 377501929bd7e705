//! A sink in memory.
ghost use Rattle.std.specs.Prelude.{◌≡◌, [], IfOk};
ghost use Rattle.hol_memory.specs.Calls.{first_calls};

use crate::calls::Counter;
use hol_io::{Sink, WriteFailed};
use std::alloc::{AllocError, Global};
use std::marker::Model;

/// A sink of bytes in memory. It takes at most so many bytes a call and so many in all, and the
/// calls of given numbers fail.
#[derive(Debug, Drop)]
pub struct MemSink {
    bytes: Vec<u8>,
    room: usize,
    piece: usize,
    calls: Counter,
}

impl Model for MemSink {
    ghost use Rattle.std.specs.Prelude.{◌≤◌, vec_len};
    ghost use Rattle.std.specs.Vec.{vec_capacity};
    ghost use Rattle.hol_memory.specs.Memory.{MemorySink};

    ghost Value = { MemorySink };

    ghost view = { λ s. record { taken = s.bytes.items; room = s.room; piece = s.piece; calls = s.calls } };

    ghost invariant = { λ s. (vec_len s.bytes ≤ s.room) × (s.room ≤ vec_capacity s.bytes) };
}

impl MemSink {
    /// A sink that takes at most `piece` bytes a call and `room` bytes in all, and no memory later.
    /// The calls whose number, from 1, is in `fails` fail.
    pub fn new(
        alloc: Global,
        room: usize,
        piece: usize,
        fails: Vec<u64>,
    ) -> Result<MemSink, AllocError>
        ensures taken { IfOk result (λ sink. sink.taken ≡ []) }
        ensures room { IfOk result (λ sink. sink.room ≡ room) }
        ensures piece { IfOk result (λ sink. sink.piece ≡ piece) }
        ensures calls { IfOk result (λ sink. sink.calls ≡ first_calls fails.items) }
    {
        Ok(MemSink {
            bytes: Vec::with_capacity(alloc, room)?,
            room,
            piece,
            calls: Counter::new(fails),
        })
    }

    /// The bytes that were taken so far.
    pub fn bytes(&self) -> &[u8]
        ensures { result.now ≡ self.now.taken }
    {
        self.bytes.as_slice()
    }
}

impl Sink for MemSink {
    ghost use Rattle.std.specs.Prelude.{◌≡◌, ◌<◌, ◌≤◌, ◌↔◌, ◌⊎◌, Some, length, min, IfOk, IsErr, is_err};
    ghost use Rattle.std.specs.Io.KnownBytes.{WriteAppends};
    ghost use Rattle.hol_memory.specs.Calls.{FailsNext, after_call};
    ghost use Rattle.hol_io.specs.Causes.{HasCause};
    ghost use Rattle.hol_memory.specs.Memory.{space};

    ghost faults = { λ s. s.calls.faults };

    ghost taken = { λ s. Some s.taken };

    fn write(&mut self, piece: &[u8]) -> Result<usize, WriteFailed>
        requires { 0 < length piece.now }
        ensures cause { HasCause self.old.calls.faults self.new.calls.faults result }
        ensures some { IfOk result (λ count. 0 < count) }
        ensures bound { IfOk result (λ count. count ≤ length piece.now) }
        ensures appended { WriteAppends (Some self.old.taken) (Some self.new.taken) result piece.now }

        // What a sink in memory promises beside. Without space it fails as well.
        ensures fails { IsErr result ↔ (FailsNext self.old.calls ⊎ (space self.old ≡ 0)) }
        ensures count { IfOk result (λ count. count ≡ min (length piece.now) (space self.old)) }
        ensures calls { self.new.calls ≡ after_call self.old.calls (is_err result) }
        ensures room { self.new.room ≡ self.old.room }
        ensures piece { self.new.piece ≡ self.old.piece }
    {
        let space = self.piece.min(self.room - self.bytes.len());
        let failed = space == 0 || self.calls.next_fails();
        self.calls.count(failed);
        if failed {
            return Err(WriteFailed);
        }
        let count = piece.len().min(space);
        self.bytes.extend_from_slice(&piece[..count]).unwrap();
        Ok(count)
    }
}
