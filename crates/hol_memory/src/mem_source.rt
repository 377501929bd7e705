//! A source in memory.
ghost use Rattle.std.specs.Prelude.{◌≡◌, ◌≤◌};
ghost use Rattle.hol_memory.specs.Calls.{first_calls};

use crate::buffer::place;
use crate::calls::Counter;
use hol_io::{ReadFailed, Source};
use std::marker::Model;

/// A source of bytes in memory. It gives at most so many bytes a call, and the calls of given
/// numbers fail.
#[derive(Debug, Drop)]
pub struct MemSource {
    bytes: Vec<u8>,
    at: usize,
    piece: usize,
    calls: Counter,
}

impl Model for MemSource {
    ghost use Rattle.std.specs.Prelude.{◌≤◌, drop, vec_len};
    ghost use Rattle.hol_memory.specs.Memory.{MemorySource};

    ghost Value = { MemorySource };

    ghost view = { λ s. record { left = drop s.at s.bytes.items; piece = s.piece; calls = s.calls } };

    ghost invariant = { λ s. (s.at ≤ vec_len s.bytes) × (1 ≤ s.piece) };
}

impl MemSource {
    /// A source of these bytes, which gives at most `piece` of them a call. The calls whose number,
    /// from 1, is in `fails` fail.
    pub fn new(bytes: Vec<u8>, piece: usize, fails: Vec<u64>) -> MemSource
        requires { 1 ≤ piece }
        ensures left { result.left ≡ bytes.items }
        ensures piece { result.piece ≡ piece }
        ensures calls { result.calls ≡ first_calls fails.items }
    {
        MemSource {
            bytes,
            at: 0,
            piece,
            calls: Counter::new(fails),
        }
    }
}

impl Source for MemSource {
    ghost use Rattle.std.specs.Prelude.{◌≡◌, ◌<◌, ◌↔◌, Some, length, OnSome, IfOk, IsErr, is_err};
    ghost use Rattle.std.specs.Io.{ReadsAtMost};
    ghost use Rattle.std.specs.Io.KnownBytes.{ReadConsumes};
    ghost use Rattle.hol_memory.specs.Calls.{FailsNext, after_call};
    ghost use Rattle.hol_io.specs.Causes.{HasCause};
    ghost use Rattle.hol_memory.specs.Memory.{given};
    ghost use Rattle.hol_io.specs.Buffer.{KeepsRest};

    ghost faults = { λ s. s.calls.faults };

    ghost left = { λ s. Some s.left };

    #[tactic(auto, using(crate::proofs::Fronts::gives_count))]
    fn read(&mut self, buf: &mut [u8]) -> Result<usize, ReadFailed>
        requires { 0 < length buf.old }
        ensures cause { HasCause self.old.calls.faults self.new.calls.faults result }
        ensures bound { ReadsAtMost result buf.new }
        ensures taken { ReadConsumes (Some self.old.left) (Some self.new.left) result buf.new }
        ensures rest { KeepsRest buf.old buf.new result }

        // What a source in memory promises beside.
        ensures fails { IsErr result ↔ FailsNext self.old.calls }
        ensures count { IfOk result (λ count. count ≡ given self.old (length buf.old)) }
        ensures calls { self.new.calls ≡ after_call self.old.calls (is_err result) }
        ensures piece { self.new.piece ≡ self.old.piece }
    {
        if self.calls.fails_now() {
            return Err(ReadFailed);
        }
        let most = self.piece.min(self.bytes.len() - self.at);
        let count = place(buf, &self.bytes[self.at..self.at + most]);
        self.at += count;
        Ok(count)
    }
}
