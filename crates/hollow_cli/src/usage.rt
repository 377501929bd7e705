//! What the program says of itself.
use thiserror::Error;

/// A command line that asks for nothing.
#[derive(Debug, Drop, Error)]
#[error("usage: hollow FOLDER run | head NAME | show NAME | make SEED ROWS CYCLES")]
pub struct UsageFault;

/// What `--version` prints.
pub const VERSION: &str = "hollow 0.1.0 (blob format 1030)";

/// What `--help` prints.
pub const HELP: &str = "hollow: datasets of Netflix Hollow, blob format 1030

usage: hollow FOLDER run | head NAME | show NAME | make SEED ROWS CYCLES

FOLDER holds blobs under the names snapshot-V, delta-U-V, reversedelta-V-U and announced.version.

  run          reads orders from standard input, one a line, and answers each with a line of JSON
  head NAME    the header of a snapshot, a delta or a reverse delta, as one line of JSON
  show NAME    the rows of a snapshot, one line of JSON each
  make SEED ROWS CYCLES
               publishes a chain of states of made records, to try things on, and checks it there
               and back; one line of JSON tells how many states and rows there are

status: 0 answered, 1 refused, 2 no such command, 3 standard input failed, 4 standard output failed,
5 the folder failed, 6 out of memory, 7 more than 2^32 bytes of input";
