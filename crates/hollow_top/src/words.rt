//! The words of a command line.
ghost use Rattle.std.specs.Prelude.{◌≡◌, ◌<◌, ◌≤◌, ◌↔◌, [], ◌∷◌, codes, length, map, slice_index, string_bytes, IsTrue};
ghost use Rattle.hollow_top.specs.Words.{TellsCommand, TellsNumber, BeginsPlainly};

use hol_io::{BlobName, parse_name};

/// What a command line asks for.
#[derive(Clone, Copy, Debug)]
pub enum Command {
    /// `run`: the orders of the input.
    Run,
    /// `head NAME`: the header of a snapshot, a delta or a reverse delta.
    Head(BlobName),
    /// `show NAME`: the rows of the snapshot of this version.
    Show(u64),
    /// `make SEED ROWS CYCLES`: a chain of states that is made of three numbers.
    Make {
        /// What titles and years are made of, from 0 to 999,999.
        seed: u32,
        /// How many films there are, from 1 to 500,000.
        rows: u32,
        /// How many cycles there are, from 1 to 1,000.
        cycles: u32,
    },
}

/// The command that the words ask for: `run`, `head NAME`, `show NAME` or `make SEED ROWS CYCLES`.
/// Numbers are decimal, without sign or leading zeros. `None` comes exactly where the words ask for
/// none of these.
pub fn command_of(words: &[String]) -> Option<Command>
    ensures { TellsCommand (map string_bytes words.now) result }
{
    match words {
        [order] if order.as_str() == "run" => Some(Command::Run),
        [order, name] if order.as_str() == "head" => head_of(name.as_str()),
        [order, name] if order.as_str() == "show" => show_of(name.as_str()),
        [order, seed, rows, cycles] if order.as_str() == "make" => {
            make_of(seed.as_str(), rows.as_str(), cycles.as_str())
        }
        _ => None,
    }
}

fn head_of(name: &str) -> Option<Command>
    ensures { TellsCommand (codes "head" ∷ name.now ∷ []) result }
{
    match parse_name(name) {
        None | Some(BlobName::Announced) => None,
        Some(blob) => Some(Command::Head(blob)),
    }
}

fn show_of(name: &str) -> Option<Command>
    ensures { TellsCommand (codes "show" ∷ name.now ∷ []) result }
{
    match parse_name(name) {
        Some(BlobName::Snapshot(version)) => Some(Command::Show(version)),
        _ => None,
    }
}

fn make_of(seed: &str, rows: &str, cycles: &str) -> Option<Command>
    ensures { TellsCommand (codes "make" ∷ seed.now ∷ rows.now ∷ cycles.now ∷ []) result }
{
    let seed = number(seed, 0, 999_999)?;
    let rows = number(rows, 1, 500_000)?;
    let cycles = number(cycles, 1, 1_000)?;
    Some(Command::Make { seed, rows, cycles })
}

// The number of a range that a text spells in decimal.
fn number(text: &str, least: u32, most: u32) -> Option<u32>
    ensures { TellsNumber least most text.now result }
{
    if !begins_plainly(text.as_bytes()) {
        return None;
    }
    let number = text.parse::<u32>().ok()?;
    if least <= number && number <= most {
        Some(number)
    } else {
        None
    }
}

// Whether a text begins like a number without sign or leading zeros.
fn begins_plainly(text: &[u8]) -> bool
    ensures { IsTrue result ↔ BeginsPlainly text.now }
{
    match text {
        [] => false,
        [b'0'] => true,
        [first, ..] => b'1' <= *first,
    }
}
