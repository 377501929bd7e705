//! The outside in memory: inputs that are cut in lines, sources, sinks and stores, of which some fail, and steps that are counted.
ghost use Rattle.std.specs.Prelude.{◌≡◌, ◌<◌};
ghost use Rattle.hol_io.specs.Turn.{IsEnded};

use crate::stores::tell_step;
use hol_io::{BlobStore, LineFault, Lines, Source, Steps, Turn, write_all};
use hol_memory::{MemSink, MemSource, MemStore, SureStore};
use std::alloc::{AllocError, Global};
use std::marker::Brand;
use std::sync::ledger::{Blank, Ledger};

/// Tells what the turns give of an input within a budget (`lines`), also where two calls fail (`failing`); what so many reads
/// give of a source (`source`); what a sink with this room takes (`sink`); or what steps give over a store whose
/// second put and third read fail (`store`), or over one that never fails.
pub fn tell(out: &mut String, alloc: Global, word: &str, rest: &str) -> Result<(), AllocError> {
    match word {
        "lines" => tell_input(out, alloc, rest, &[]),
        "failing" => tell_input(out, alloc, rest, &[2, 4]),
        "source" => tell_source(out, alloc, rest.parse::<u64>().unwrap_or(0)),
        "sink" => tell_sink(out, alloc, rest.parse::<usize>().unwrap_or(0)),
        "store" => tell_failing(out, alloc, rest.as_bytes()),
        _ => tell_steps(out, alloc, &mut SureStore::new(alloc), rest.as_bytes()),
    }
}

/// Tells what the turns give of an input within a budget, where these calls fail. A stroke in the input stands for the end of a line.
fn tell_input(
    out: &mut String,
    alloc: Global,
    rest: &str,
    fails: &[u64],
) -> Result<(), AllocError> {
    let (budget, input) = rest.split_once(' ').unwrap_or((rest, ""));
    let bytes = input.replace(alloc, "|", "\n")?.into_bytes();
    let fails = Vec::from_slice(alloc, fails)?;
    let mut source = MemSource::new(bytes, 3, fails);
    tell_lines(out, alloc, &mut source, budget.parse::<u64>().unwrap_or(0))
}

/// What the turns give, up to the end of the input or the budget, of which three bytes come a call and these calls fail, in lines of
/// at most four bytes.
fn tell_lines<I: Source>(
    out: &mut String,
    alloc: Global,
    source: &mut I,
    budget: u64,
) -> Result<(), AllocError> {
    let mut lines = Lines::new(alloc, 4, budget)?;
    tell_turns(out, &mut lines, source)
}

/// What the turns give, at most twenty.
fn tell_turns<I: Source>(
    out: &mut String,
    lines: &mut Lines,
    source: &mut I,
) -> Result<(), AllocError>
    requires { IsEnded lines.old (I.left source.old) }
{
    for _ in 0..20 {
        if tell_turn(out, lines, source)? {
            break;
        }
    }
    Ok(())
}

/// A line and `;`, `+` for a line that is too long, `!` for a failed read, and `.` or `>` at the end of the input or past the
/// budget. Whether it was the last turn.
fn tell_turn<I: Source>(
    out: &mut String,
    lines: &mut Lines,
    source: &mut I,
) -> Result<bool, AllocError>
    requires { IsEnded lines.old (I.left source.old) }
    ensures { IsEnded lines.new (I.left source.new) }
{
    let (told, is_last) = match lines.next(source) {
        Ok(Turn::Line) => return tell_line(out, lines.line()),
        Ok(Turn::Long) => ("+", false),
        Ok(Turn::End) => (".", true),
        Ok(Turn::Over) => (">", true),
        Err(LineFault::Read) => ("!", false),
        Err(LineFault::Memory) => return Err(AllocError),
    };
    out.push_str(told)?;
    Ok(is_last)
}

/// A line, which is never the last turn.
fn tell_line(out: &mut String, line: &[u8]) -> Result<bool, AllocError> {
    write!(out, "{};", std::str::from_utf8(line).unwrap_or("?"))?;
    Ok(false)
}

/// What so many reads give of a source of five bytes that gives two a call, and whose second call fails.
fn tell_source(out: &mut String, alloc: Global, reads: u64) -> Result<(), AllocError> {
    let bytes = Vec::from_slice(alloc, b"hello")?;
    let mut source = MemSource::new(bytes, 2, vec![in alloc; 2]?);
    tell_reads(out, &mut source, reads)
}

/// What so many reads give, each into four bytes.
fn tell_reads<I: Source>(out: &mut String, source: &mut I, reads: u64) -> Result<(), AllocError> {
    for _ in 0..reads {
        let mut buf = [0; 4];
        let count = source.read(&mut buf);
        write!(out, "{count:?} {buf:?};")?;
    }
    Ok(())
}

/// What a sink takes of five bytes that are written whole, where it takes three a call and has this room.
fn tell_sink(out: &mut String, alloc: Global, room: usize) -> Result<(), AllocError> {
    let mut sink = MemSink::new(alloc, room, 3, Vec::new(alloc))?;
    let written = write_all(&mut sink, b"hello");
    write!(out, "{written:?} {:?}", sink.bytes())
}

fn tell_steps<S: BlobStore>(
    out: &mut String,
    alloc: Global,
    store: &mut S,
    steps: &[u8],
) -> Result<(), AllocError> {
    for step in steps {
        tell_step(out, alloc, store, *step)?;
    }
    Ok(())
}

fn tell_failing(out: &mut String, alloc: Global, steps: &[u8]) -> Result<(), AllocError> {
    let fail_reads = vec![in alloc; 3]?;
    let mut store = MemStore::new(alloc, fail_reads, vec![in alloc; 2]?);
    tell_steps(out, alloc, &mut store, steps)
}

/// What the outside gives and takes.
pub const OUTSIDE: &str = "lines 8 ab||abcde| = ab;>
lines 9 ab||abcde| = ab;>
lines 10 ab||abcde| = ab;+.
lines 9 ab||abcde = ab;+.
lines 4 |||x = x;.
lines 1 x| = >
lines 0  = .
lines 0 | = >
lines 9 abcd|abcd = abcd;abcd;.
failing 100 ab|abcdefgh|c = ab;!!+c;.
source 5 = Ok(2) [104, 101, 0, 0];Err(ReadFailed) [0, 0, 0, 0];Ok(2) [108, 108, 0, 0];Ok(1) [111, 0, 0, 0];Ok(0) [0, 0, 0, 0];
sink 4 = Err(WriteFailed) [104, 101, 108, 108]
sink 5 = Ok(()) [104, 101, 108, 108, 111]
store dssnall1 = Ok(());Err(Failed);Ok(());Ok(Some(5));Ok(None);Err(Failed) [];Ok(()) [Snapshot(1), Delta(1, 2)];Ok(3) [98, 99, 100];
sure so1nl = Ok(());Ok(());Ok(2) [108, 100, 0];Ok(Some(3));Ok(()) [Snapshot(1)];";

/// Counts one step, which nothing reads.
fn counts<L: Ledger>(blank: Blank)
    requires name { blank.name ≡ L.name }
    requires parts { blank.parts ≡ L.parts }
    requires some { 0 < blank.parts }
{
    let mut steps = Steps::<L>::new(blank);
    steps.tick();
}

#[test]
fn counts_steps(_rt: HostRuntime) {
    counts::<Brand>(Blank::new(1));
}
