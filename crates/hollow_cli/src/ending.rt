//! How the program ends, and what it says then on standard error.
use std::fmt::Display;

/// The status of a command line that asks for nothing.
pub const USAGE: u8 = 2;

/// The status of a source that failed.
pub const NOT_READ: u8 = 3;

/// The status of a sink that failed.
pub const NOT_WRITTEN: u8 = 4;

/// The status of a store that failed.
pub const NOT_KEPT: u8 = 5;

/// The status of a run that is out of memory.
pub const NO_MEMORY: u8 = 6;

/// The status of an input that is too long.
pub const TOO_LONG: u8 = 7;

/// Says in one line what ended the program, and why where that is known.
pub fn say<D: Display + Drop>(rt: &HostRuntime, what: &str, why: Option<D>) {
    let _said = match why {
        Some(why) => eprintln!(rt; "hollow: {what}: {why}"),
        None => eprintln!(rt; "hollow: {what}"),
    };
}
