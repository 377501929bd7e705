//! One buffer between a source and those who want its bytes in pieces.
ghost use Rattle.std.specs.Prelude.{◌≡◌, ℕ, List, [], ◌++◌, ◌<◌, ◌≤◌, ◌+◌, ◌-◌, length, take, drop, IfOk, OnOk, OnErr};
ghost use Rattle.std.specs.Io.KnownBytes.{Keeps};
ghost use Rattle.hol_io.specs.Window.{TakesOn, ReadsOn, HasReadCause};
ghost use Rattle.hol_io.specs.Causes.{HasCause};

use crate::lines::LineFault;
use crate::source::{ReadFailed, Source};
use std::alloc::{AllocError, Global};
use std::marker::Model;

// How many bytes are asked of a source at once, as long as no line is longer.
const CHUNK: usize = 32768;

/// The bytes that were taken from a source and not yet given, in one buffer, and before them the last
/// piece that was given.
#[derive(Debug, Drop)]
pub(crate) struct Window {
    bytes: Vec<u8>,
    line: usize,
    line_end: usize,
    at: usize,
    end: usize,
}

impl Model for Window {
    ghost use Rattle.std.specs.Prelude.{◌≤◌, ◌-◌, vec_len, slice_range};
    ghost use Rattle.hol_io.specs.Window.{Window};

    ghost Value = { Window };

    ghost view = { λ window. record {
      line = slice_range window.bytes.items window.line window.line_end;
      pending = slice_range window.bytes.items window.at window.end;
      room = vec_len window.bytes - window.end;
    } };

    ghost invariant = { λ window. (window.line ≤ window.line_end) × (window.line_end ≤ vec_len window.bytes) × (window.at ≤ window.end) × (window.end ≤ vec_len window.bytes) };
}

impl Window {
    // No byte was taken.
    pub(crate) fn new(alloc: Global) -> Result<Window, AllocError>
        ensures { IfOk result (λ window. window.pending ≡ []) }
    {
        Ok(Window {
            bytes: Vec::from_elem(alloc, 0, CHUNK)?,
            line: 0,
            line_end: 0,
            at: 0,
            end: 0,
        })
    }

    // The last piece that was given, until the next read.
    pub(crate) fn line(&self) -> &[u8]
        ensures { result.now ≡ self.now.line }
    {
        &self.bytes[self.line..self.line_end]
    }

    // The bytes that were taken and not yet given.
    pub(crate) fn pending(&self) -> &[u8]
        ensures { result.now ≡ self.now.pending }
    {
        &self.bytes[self.at..self.end]
    }

    // Gives the first `count` of the bytes, and lets go of them and of so many behind them.
    pub(crate) fn give(&mut self, count: usize, behind: usize)
        requires { count + behind ≤ length self.old.pending }
        ensures line { self.new.line ≡ take count self.old.pending }
        ensures pending { self.new.pending ≡ drop (count + behind) self.old.pending }
    {
        self.line = self.at;
        self.line_end = self.at + count;
        self.at = self.line_end + behind;
    }

    // Lets go of the first bytes.
    pub(crate) fn let_go(&mut self, count: usize)
        requires { count ≤ length self.old.pending }
        ensures line { self.new.line ≡ self.old.line }
        ensures pending { self.new.pending ≡ drop count self.old.pending }
    {
        self.at += count;
    }

    // Lets go of the last byte.
    pub(crate) fn let_go_last(&mut self)
        requires { 0 < length self.old.pending }
        ensures line { self.new.line ≡ self.old.line }
        ensures pending { self.new.pending ≡ take (length self.old.pending - 1) self.old.pending }
    {
        self.end -= 1;
    }

    // Sees to it that one more byte fits: the bytes go to the front, or else the buffer grows to twice
    // its size, as far as `limit` and one byte more.
    fn make_room(&mut self, limit: usize) -> Result<(), AllocError>
        requires { length self.old.pending ≤ limit }
        ensures pending { self.new.pending ≡ self.old.pending }
        ensures room { OnOk result (0 < self.new.room) }
    {
        self.line = 0;
        self.line_end = 0;
        if self.at == self.end {
            self.at = 0;
            self.end = 0;
        }
        if self.end < self.bytes.len() {
            return Ok(());
        }
        if 0 < self.at {
            self.bytes.copy_within(self.at..self.end, 0);
            self.end -= self.at;
            self.at = 0;
            return Ok(());
        }
        let size = self.bytes.len().checked_mul(2).ok_or(AllocError)?;
        let most = limit.saturating_add(1).max(CHUNK);
        self.bytes.resize(size.max(CHUNK).min(most), 0)
    }

    // Reads up to `most` bytes, and gives their number. 0 comes only at the end of the source. After a
    // fault all is as before but for the last piece. The buffer grows with `limit`.
    pub(crate) fn read<I: Source>(
        &mut self,
        input: &mut I,
        most: u64,
        limit: usize,
    ) -> Result<usize, LineFault>
        requires some { 0 < most }
        requires limit { length self.old.pending ≤ limit }
        ensures cause { HasReadCause (I.faults input.old) (I.faults input.new) result }
        ensures bound { IfOk result (λ count. count ≤ most) }
        ensures reads { ReadsOn (I.left input.old) (I.left input.new) result self.old.pending self.new.pending }
    {
        self.make_room(limit)?;
        let count = read_behind(input, &mut self.bytes, self.end, most)?;
        self.end += count;
        Ok(count)
    }
}

// Reads up to `most` bytes to place `end` of a buffer, and gives their number.
fn read_behind<I: Source>(
    input: &mut I,
    buf: &mut [u8],
    end: usize,
    most: u64,
) -> Result<usize, ReadFailed>
    requires some { 0 < most }
    requires room { end < length buf.old }
    ensures cause { HasCause (I.faults input.old) (I.faults input.new) result }
    ensures bound { IfOk result (λ count. (count ≤ most) × (end + count ≤ length buf.old)) }
    ensures kept { take end buf.new ≡ take end buf.old }
    ensures reads { IfOk result
        (λ count. TakesOn (I.left input.old) (I.left input.new) count (take end buf.old) (take (end + count) buf.new)) }
    ensures fails { OnErr result (Keeps (I.left input.old) (I.left input.new)) }
{
    let size = most.min((buf.len() - end) as u64) as usize;
    input.read(&mut buf[end..end + size])
}
