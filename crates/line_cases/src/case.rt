//! Lines that are taken, and lines that are not.
use crate::{orders, plain_changes, plain_cycles, plain_finds, plain_lines, plain_records};
use std::alloc::{AllocError, Global};
use std::process::Abort;

/// What lines are taken as.
#[derive(Drop)]
enum Subject {
    /// Orders.
    Orders,
    /// Changes whose records are read one by one.
    Changes,
    /// Cycles whose records are read one by one.
    Cycles,
    /// Look-ups whose parts are taken from the tokens of the line.
    Finds,
    /// Orders of few parts that are cut where they stand.
    Lines,
    /// Cycles whose first film is read straight from its tokens.
    Records,
}

/// Whether a line is taken.
fn is_taken(alloc: Global, subject: &Subject, line: &str) -> Result<bool, AllocError> {
    match subject {
        Subject::Orders => orders::is_order(alloc, line),
        Subject::Changes => plain_changes::is_taken(alloc, line),
        Subject::Cycles => plain_cycles::is_taken(alloc, line),
        Subject::Finds => plain_finds::is_taken(alloc, line),
        Subject::Lines => plain_lines::is_taken(alloc, line),
        Subject::Records => plain_records::is_taken(alloc, line).ok_or(AllocError),
    }
}

/// Takes each line of two texts, of which the lines of the first are taken and those of the second are not.
fn pass(
    rt: &impl Abort,
    alloc: Global,
    subject: &Subject,
    taken: &str,
    others: &str,
) -> Result<(), AllocError> {
    for line in taken.lines() {
        assert!(rt; is_taken(alloc, subject, line)?, "{line}");
    }
    for line in others.lines() {
        assert!(rt; !is_taken(alloc, subject, line)?, "{line}");
    }
    Ok(())
}

#[test]
fn lines_that_are_taken(rt: HostRuntime) -> Result<(), AllocError> {
    let alloc = rt.alloc();
    pass(&rt, alloc, &Subject::Orders, orders::ORDERS, orders::OTHERS)?;
    pass(
        &rt,
        alloc,
        &Subject::Changes,
        plain_changes::PLAIN,
        plain_changes::OTHER,
    )?;
    pass(
        &rt,
        alloc,
        &Subject::Cycles,
        plain_cycles::PLAIN,
        plain_cycles::OTHER,
    )?;
    pass(
        &rt,
        alloc,
        &Subject::Finds,
        plain_finds::PLAIN,
        plain_finds::OTHER,
    )?;
    pass(
        &rt,
        alloc,
        &Subject::Lines,
        plain_lines::PLAIN,
        plain_lines::OTHER,
    )?;
    pass(
        &rt,
        alloc,
        &Subject::Records,
        plain_records::PLAIN,
        plain_records::OTHER,
    )
}
