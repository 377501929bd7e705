//! Standard input as a source and standard output as a sink.
ghost use Rattle.std.specs.Prelude.{◌<◌, ◌≤◌, length, IfOk};

use hol_io::{ReadFailed, Sink, Source, WriteFailed};
use std::io;
use std::io::{ErrorKind, Read, Stdin, Stdout, Write};

/// Standard input. It does not tell what is left.
#[derive(Drop)]
pub struct StdIn {
    stdin: Stdin,
    faults: u64,
    failure: Option<io::Error>,
}

impl StdIn {
    /// Standard input, of which no read has failed.
    pub fn new(stdin: Stdin) -> StdIn {
        StdIn {
            stdin,
            faults: 0,
            failure: None,
        }
    }

    /// Why the last read that failed did; none where none has failed.
    pub fn last_failure(&self) -> Option<io::Error> {
        self.failure
    }
}

impl Source for StdIn {
    ghost use Rattle.std.specs.Prelude.{None};

    ghost faults = { λ source. source.faults };

    ghost left = { λ _. None };

    fn read(&mut self, buf: &mut [u8]) -> Result<usize, ReadFailed> {
        match self.stdin.read(buf) {
            Ok(count) => Ok(count),
            Err(error) => {
                self.faults = self.faults.saturating_add(1);
                self.failure = Some(error);
                Err(ReadFailed)
            }
        }
    }
}

/// Standard output. It does not tell what it took.
#[derive(Drop)]
pub struct StdOut {
    stdout: Stdout,
    faults: u64,
    failure: Option<io::Error>,
}

impl StdOut {
    /// Standard output, of which no write has failed.
    pub fn new(stdout: Stdout) -> StdOut {
        StdOut {
            stdout,
            faults: 0,
            failure: None,
        }
    }

    /// Why the last write that failed did; none where none has failed.
    pub fn last_failure(&self) -> Option<io::Error> {
        self.failure
    }
}

// Writes some of the bytes, and gives their number, which is at least 1.
fn write_some(stdout: &mut Stdout, piece: &[u8]) -> io::Result<usize>
    ensures some { IfOk result (λ count. 0 < count) }
    ensures bound { IfOk result (λ count. count ≤ length piece.now) }
{
    match stdout.write(piece)? {
        0 => Err(io::Error::from(ErrorKind::WriteZero)),
        count => Ok(count),
    }
}

impl Sink for StdOut {
    ghost use Rattle.std.specs.Prelude.{None};

    ghost faults = { λ sink. sink.faults };

    ghost taken = { λ _. None };

    fn write(&mut self, piece: &[u8]) -> Result<usize, WriteFailed> {
        match write_some(&mut self.stdout, piece) {
            Ok(count) => Ok(count),
            Err(error) => {
                self.faults = self.faults.saturating_add(1);
                self.failure = Some(error);
                Err(WriteFailed)
            }
        }
    }
}
