//! Two generations of words: what is written to the next half, and zeros in memory that is there and in new memory.
use raw_words::{Halves, TwinWords};
use std::alloc::{AllocError, Global};

/// Tells the current half and the other one: of new halves (`new`), of halves whose next half grew (`grown`), of two steps (`steps`), and
/// of a next half over old words (`again`) or one that begins with a current word (`copied`).
pub fn tell(out: &mut String, alloc: Global, word: &str) -> Result<(), AllocError> {
    let mut twin = TwinWords::new(alloc);
    take(&mut twin, word)?;
    write!(out, "{:?} {:?}", twin.current(), twin.other())
}

/// What is done with new halves.
fn take(twin: &mut TwinWords, word: &str) -> Result<(), AllocError> {
    match word {
        "new" => Ok(()),
        "grown" => grow(twin),
        _ => {
            step(twin)?;
            prepare(twin, word)
        }
    }
}

/// A next half that gets longer by a word each time, up to nine.
fn grow(twin: &mut TwinWords) -> Result<(), AllocError> {
    for words in 0..10 {
        twin.reserve_next(words)?;
    }
    Ok(())
}

/// Three words, and then two, of which the first is the first of the three.
fn step(twin: &mut TwinWords) -> Result<(), AllocError> {
    twin.reserve_next(3)?;
    twin.split().to.copy_from_slice(&[5, 6, 7]);
    twin.flip();
    twin.reserve_next(2)?;
    let Halves { from, to } = twin.split();
    to[0] = from[0];
    twin.flip();
    Ok(())
}

/// Where the three words were, two zeros, or the first of the two words and two zeros behind it.
fn prepare(twin: &mut TwinWords, word: &str) -> Result<(), AllocError> {
    match word {
        "again" => twin.reserve_next(2),
        "copied" => twin.copy_next(twin.current().len().min(1), 3),
        _ => Ok(()),
    }
}

/// Halves, and what is told of them.
pub const HALVES: &str = "new = [] []
steps = [5, 0] [5, 6, 7]
again = [5, 0] [0, 0]
copied = [5, 0] [5, 0, 0]
grown = [] [0, 0, 0, 0, 0, 0, 0, 0, 0]";
