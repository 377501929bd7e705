//! What a command or an order answers in one line, and the line of each answer.
ghost use Rattle.std.specs.Prelude.{◌≡◌, ◌++◌, IfOk, OnOk, OnErr, string_bytes};
ghost use Rattle.hol_answers.specs.Reply.{is_refusal, line_of};

use crate::ordinals_line::put_ordinals_line;
use crate::plain::PlainValue;
use crate::reply_json::ReplyView;
use crate::{Refusal, TypesCounts};
use blob_frame::Header;
use hol_io::BlobName;
use hol_varint::{List, Ordinals};
use schema_model::Names;
use std::alloc::{AllocError, Global};

/// Rows that left, each by its ordinal and as its record.
pub type PastRows = List<(u32, PlainValue)>;

/// What the command `make` has published.
#[derive(Drop)]
pub struct Made {
    /// How many states it has published.
    pub published: u64,
    /// How many rows of Film the last one has.
    pub films: u64,
    /// How many rows of Tags that one has.
    pub tags: u64,
    /// How many rows of Text that one has.
    pub texts: u64,
}

/// How far a consumer went along a list of blobs.
#[derive(Drop)]
pub struct Progress {
    /// How many blobs were applied.
    pub applied: u64,
    /// How many there are in the list.
    pub of: u64,
    /// Why the next one was refused, where one was.
    pub refused: Option<Refusal>,
    /// The tag of the consumer's state afterwards, where it has one.
    pub tag: Option<i64>,
}

/// The next state of a producer, as a change of the one before.
#[derive(Drop)]
pub struct Change {
    /// The names of the types that changed, in model order.
    pub changed: Names,
    /// How many of the keys to be removed no row of the state before has.
    pub missing: u64,
    /// Whether blobs were put: so it is with a first state, and where a type changed.
    pub published: bool,
    /// The version that was asked for.
    pub version: u64,
}

/// Names of blobs, in their order.
pub type Blobs = List<BlobName>;

/// What a command or an order answers in one line.
#[derive(Drop)]
pub enum Reply {
    /// The header of a blob.
    Head(Header),
    /// A new producer, of so many types.
    Model(u32),
    /// The next state of the producer.
    Cycle {
        /// The names of the types that changed, in model order.
        changed: Names,
        /// Whether blobs were put: so it is with a first state, and where a type changed.
        published: bool,
        /// The version that was asked for.
        version: u64,
    },
    /// The producer became that of a version's snapshot.
    Restore {
        /// The tag of the state.
        tag: i64,
        /// The version that was asked for.
        version: u64,
    },
    /// The consumer became the state with this tag.
    Load(i64),
    /// The consumer moved to the state with this tag.
    Step(i64),
    /// The consumer keeps an index, in which so many rows have a key.
    Index(u64),
    /// The record that has a primary key.
    Get {
        /// The ordinal of its row.
        ordinal: u32,
        /// The record, with all that it refers to.
        row: PlainValue,
    },
    /// The ordinals of the rows that have a key, rising.
    Find(Ordinals),
    /// The live ordinals of a type, rising.
    Live(Ordinals),
    /// The record of a row, with all that it refers to.
    Row(PlainValue),
    /// Whether a set has an element.
    Has(bool),
    /// The value beside a key of a map; none where the map has no such key.
    At(Option<u32>),
    /// The records of a type that left in the last step, by rising ordinal.
    Past(PastRows),
    /// A walk leads to the states of the snapshots that are there.
    Check {
        /// So many versions of the walk were compared with their snapshots.
        compared: u64,
        /// So many versions the walk has.
        states: u64,
    },
    /// What the consumer keeps.
    Stat {
        /// The tag of its state.
        tag: i64,
        /// What it keeps of each type, in model order.
        types: TypesCounts,
    },
    /// The summary of the command `make`.
    Make(Made),
    /// The producer has a model that grows its own, of so many types.
    Grow(u32),
    /// The shortest list of blobs that leads the consumer to a version.
    Plan(Blobs),
    /// The consumer went along the shortest list of blobs, up to the first one that was refused.
    Goto(Progress),
    /// The next state of the producer, as a change of the one before.
    Change(Change),
    /// The consumer keeps an index through collections, in which so many rows reach a value.
    WalkIndex(u64),
    /// The ordinals of the rows that reach a value, rising.
    WalkFind(Ordinals),
    /// So many old states are kept.
    History(u32),
    /// The record of a row of an old state, with all that it refers to.
    Was(PlainValue),
    /// The record that has a primary key in an old state.
    WasGet {
        /// The ordinal of its row.
        ordinal: u32,
        /// The record, with all that it refers to.
        row: PlainValue,
    },
    /// Why the command or the order is refused.
    Refused(Refusal),
}

impl Reply {
    /// Whether the command or the order is refused.
    pub fn is_refusal(&self) -> bool
        ensures { result ≡ is_refusal self.now }
    {
        matches!(self, Reply::Refused(_))
    }
}

/// The line of an answer: one JSON object without spaces, its members in byte order of their names,
/// and a newline.
pub fn reply_line(alloc: Global, reply: Reply) -> Result<String, AllocError>
    ensures { IfOk result (λ line. string_bytes line ≡ line_of reply) }
{
    let line = lent_line(alloc, &reply);
    drop(reply);
    line
}

// The line of an answer that is lent.
fn lent_line(alloc: Global, reply: &Reply) -> Result<String, AllocError>
    ensures { IfOk result (λ line. string_bytes line ≡ line_of reply.now) }
{
    let view = ReplyView { alloc, reply };
    let Ok(mut line) = serde_json::to_string(alloc, &view) else {
        return Err(AllocError);
    };
    line.push('\n')?;
    Ok(line)
}

/// Appends the line of an answer. Where memory is refused `out` stays as it was.
pub fn put_reply(alloc: Global, out: &mut Vec<u8>, reply: Reply) -> Result<(), AllocError>
    ensures put { OnOk result (out.new.items ≡ out.old.items ++ line_of reply) }
    ensures err { OnErr result (out.new.items ≡ out.old.items) }
{
    let put = put_lent(alloc, out, &reply);
    drop(reply);
    put
}

// Appends the line of an answer that is lent. One that lists ordinals is put as it stands. Where memory is refused `out` stays as it was.
fn put_lent(alloc: Global, out: &mut Vec<u8>, reply: &Reply) -> Result<(), AllocError>
    ensures put { OnOk result (out.new.items ≡ out.old.items ++ line_of reply.now) }
    ensures err { OnErr result (out.new.items ≡ out.old.items) }
{
    match reply {
        Reply::Find(ordinals) => {
            put_ordinals_line(out, "{\"ok\":\"find\",\"ordinals\":", ordinals.as_slice())
        }
        Reply::Live(ordinals) => {
            put_ordinals_line(out, "{\"ok\":\"live\",\"ordinals\":", ordinals.as_slice())
        }
        Reply::WalkFind(ordinals) => put_ordinals_line(
            out,
            "{\"ok\":\"walkfind\",\"ordinals\":",
            ordinals.as_slice(),
        ),
        _ => put_sent(alloc, out, reply),
    }
}

// Appends the line of an answer that is lent, by serde's events. Where memory is refused `out` stays as it was.
fn put_sent(alloc: Global, out: &mut Vec<u8>, reply: &Reply) -> Result<(), AllocError>
    ensures put { OnOk result (out.new.items ≡ out.old.items ++ line_of reply.now) }
    ensures err { OnErr result (out.new.items ≡ out.old.items) }
{
    let line = lent_line(alloc, reply)?;
    out.extend_from_slice(line.as_bytes())
}
