//! Cases as text: a line is a word, what follows it, and behind ` = ` what is told.
use crate::{bytes, copies, halves, numbers, outside, sets, texts};
use std::alloc::{AllocError, Global};
use std::process::Abort;

/// Which words a text has.
#[derive(Drop)]
enum Subject {
    /// Those of numbers.
    Numbers,
    /// Those of bytes, which are spelled in hexadecimal.
    Bytes,
    /// Those of texts.
    Texts,
    /// Those of sources, sinks and stores.
    Outside,
    /// Those of sets of ordinals.
    Sets,
    /// Those of values that are copied.
    Copies,
    /// Those of two generations of words.
    Halves,
}

/// Tells of a word and what follows it.
fn tell(
    out: &mut String,
    alloc: Global,
    subject: &Subject,
    word: &str,
    rest: &str,
) -> Result<(), AllocError> {
    match subject {
        Subject::Numbers => numbers::tell(out, alloc, word, rest),
        Subject::Bytes => bytes::tell(out, alloc, word, rest),
        Subject::Texts => texts::tell(out, alloc, word, rest),
        Subject::Outside => outside::tell(out, alloc, word, rest),
        Subject::Sets => sets::tell(out, alloc, word),
        Subject::Copies => copies::tell(out, alloc, word),
        Subject::Halves => halves::tell(out, alloc, word),
    }
}

/// Whether a line holds.
fn holds(alloc: Global, subject: &Subject, line: &str) -> Result<bool, AllocError> {
    let (asked, answer) = line.split_once(" = ").unwrap_or((line, ""));
    let (word, rest) = asked.split_once(' ').unwrap_or((asked, ""));
    let mut told = String::new(alloc);
    tell(&mut told, alloc, subject, word, rest)?;
    Ok(told.as_str() == answer)
}

/// Takes each line of a text.
fn pass(rt: &impl Abort, alloc: Global, subject: &Subject, cases: &str) -> Result<(), AllocError> {
    for line in cases.lines() {
        assert!(rt; holds(alloc, subject, line)?, "{line}");
    }
    Ok(())
}

#[test]
fn cases(rt: HostRuntime) -> Result<(), AllocError> {
    pass(&rt, rt.alloc(), &Subject::Numbers, numbers::NUMBERS)?;
    pass(&rt, rt.alloc(), &Subject::Bytes, bytes::BYTES)?;
    pass(&rt, rt.alloc(), &Subject::Texts, texts::TEXTS)?;
    pass(&rt, rt.alloc(), &Subject::Outside, outside::OUTSIDE)?;
    pass(&rt, rt.alloc(), &Subject::Sets, sets::SETS)?;
    pass(&rt, rt.alloc(), &Subject::Copies, copies::COPIES)?;
    pass(&rt, rt.alloc(), &Subject::Halves, halves::HALVES)
}
