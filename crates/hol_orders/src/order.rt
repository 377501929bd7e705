//! The orders, and the reading of one from a line.
ghost use Rattle.std.specs.Prelude.{◌≡◌, ◌⊎◌, ℕ, List, Some, Ok, Err, IsErrAnd, IsUtf8};
ghost use Rattle.hol_varint.specs.Yields.{Yields};
ghost use Rattle.serde_json.specs.Data.{member, no_members, object};
ghost use Rattle.serde_json.specs.Read.{read};
ghost use Rattle.serde_json.specs.View.{view};
ghost use Rattle.hol_orders.specs.Order.{Orders, TellsOrder, IsFreeOrder, order_data};

use crate::added::Added;
use crate::change_in_line::change_in_line;
use crate::cycle_in_line::cycle_in_line;
use crate::find_in_line::find_in_line;
use crate::json_parts::only_member;
use crate::kind::Kind;
use crate::shapes::order_with;
use hol_varint::List;
use json::Scratch;
use record_stream::split_plain;
use schema_model::Name;
use serde_json::Value;
use simdutf8::basic::from_utf8;
use std::alloc::{AllocError, AllocFailed, Global};

/// Versions that are walked, in their order.
pub type Versions = List<u64>;

/// What a cycle asks for: the next state.
#[derive(Drop)]
pub struct NextState {
    /// The version that it is to have.
    pub version: u64,
    /// The tag that it is to have.
    pub tag: i64,
    /// The records that it adds.
    pub add: Added,
    /// Whether its snapshot is put, where this is said: it is where nothing is said.
    pub snapshot: Option<bool>,
}

/// What a change asks for: the next state, as a change of the one before.
#[derive(Drop)]
pub struct StateChange {
    /// The version that it is to have.
    pub version: u64,
    /// The tag that it is to have.
    pub tag: i64,
    /// The records that are put.
    pub put: Added,
    /// The primary keys of the records that are removed, still JSON: an object of arrays of arrays, by type.
    pub remove: Value,
}

/// What one line of a script asks for. Versions are numbers from 1 to 2^63 - 1.
#[derive(Drop)]
pub enum Order {
    /// `{"model":[S1,S2]}`: makes a new producer of these schemas, which are still JSON.
    Model(Value),
    /// `{"cycle":{"version":V,"tag":T,"add":{type:[records]}}}`: publishes the next state. A member `"snapshot":b` may say whether its snapshot is put.
    Cycle(NextState),
    /// `{"restore":V}`: takes a producer up again at a version.
    Restore(u64),
    /// `{"load":V}`: loads the snapshot of a version into the consumer.
    Load(u64),
    /// `{"step":[U,V]}`: moves the consumer from one version to another one.
    Step {
        /// The version from which it leads.
        from: u64,
        /// The version to which it leads.
        to: u64,
    },
    /// `{"index":[type,[paths]]}`: keeps an index.
    Index {
        /// The name of the type.
        type_name: Name,
        /// The paths, still JSON: an array of texts. None is the primary key.
        paths: Value,
    },
    /// `{"get":[type,[values]]}`: shows the row that has this primary key.
    Get {
        /// The name of the type.
        type_name: Name,
        /// The values of the key, still JSON: an array.
        values: Value,
    },
    /// `{"find":[type,[paths],[values]]}`: lists the rows that have a key.
    Find {
        /// The name of the type.
        type_name: Name,
        /// The paths, still JSON: an array of texts. None is the primary key.
        paths: Value,
        /// The values of the key, still JSON: an array.
        values: Value,
    },
    /// `{"live":type}`: lists the live ordinals of a type.
    Live(Name),
    /// `{"row":[type,o]}`: shows a row.
    Row {
        /// The name of the type.
        type_name: Name,
        /// The ordinal of the row.
        ordinal: u32,
    },
    /// `{"has":[type,o,e]}`: tells whether a set has an element.
    Has {
        /// The name of the type.
        type_name: Name,
        /// The ordinal of the set's row.
        ordinal: u32,
        /// The ordinal of the element.
        element: u32,
    },
    /// `{"at":[type,o,k]}`: looks up a key in a map.
    At {
        /// The name of the type.
        type_name: Name,
        /// The ordinal of the map's row.
        ordinal: u32,
        /// The ordinal of the key.
        key: u32,
    },
    /// `{"past":type}`: shows the rows of a type that the last step removed.
    Past(Name),
    /// `{"check":[v1,v2]}`: walks along one or more versions, of which neighbours differ.
    Check(Versions),
    /// `{"stat":true}`: counts what the consumer keeps.
    Stat,
    /// `{"grow":[S1,S2]}`: gives the producer a model of these schemas, which are still JSON; it grows the producer's own.
    Grow(Value),
    /// `{"plan":V}`: shows the shortest list of blobs that leads the consumer to a version.
    Plan(u64),
    /// `{"goto":V}`: moves the consumer along the shortest list of blobs to a version.
    Goto(u64),
    /// `{"change":{"version":V,"tag":T,"put":{type:[records]},"remove":{type:[[values]]}}}`: publishes the next state.
    Change(StateChange),
    /// `{"walkindex":[type,path]}`: keeps an index of what the rows of a type reach through collections.
    WalkIndex {
        /// The name of the type.
        type_name: Name,
        /// The text of the path from the type, as it stands in the line.
        path: Name,
    },
    /// `{"walkfind":[type,path,value]}`: lists the rows that reach a value.
    WalkFind {
        /// The name of the type.
        type_name: Name,
        /// The text of the path from the type, as it stands in the line.
        path: Name,
        /// The value at the end of the path, still JSON.
        value: Value,
    },
    /// `{"history":n}`: keeps up to n old states, 0 to 1,000.
    History(u32),
    /// `{"was":[V,type,o]}`: shows a row of the state that a version had.
    Was {
        /// The version of the old state.
        version: u64,
        /// The name of the type.
        type_name: Name,
        /// The ordinal of the row.
        ordinal: u32,
    },
    /// `{"wasget":[V,type,[values]]}`: shows the row that has this primary key in the state that a version had.
    WasGet {
        /// The version of the old state.
        version: u64,
        /// The name of the type.
        type_name: Name,
        /// The values of the key, still JSON: an array.
        values: Value,
    },
}

/// Why a line is not read.
#[derive(Clone, Copy, Debug, PartialEq, Eq)]
pub enum OrderFault {
    /// The line is no order.
    BadOrder,
    /// Memory was refused.
    Memory,
}

impl From<AllocError> for OrderFault {
    ghost use Rattle.std.specs.Prelude.{◌≡◌};
    ghost use Rattle.hol_orders.specs.declared.order.OrderFault.TheVariants.{Memory};

    ghost from_gives = { λ _ fault. fault ≡ Memory };

    fn from(_error: AllocError) -> OrderFault {
        OrderFault::Memory
    }
}

impl<T: Drop> From<AllocFailed<T>> for OrderFault {
    ghost use Rattle.std.specs.Prelude.{◌≡◌};
    ghost use Rattle.hol_orders.specs.declared.order.OrderFault.TheVariants.{Memory};

    ghost from_gives = { λ _ fault. fault ≡ Memory };

    fn from(_failed: AllocFailed<T>) -> OrderFault {
        OrderFault::Memory
    }
}

/// Reads orders from lines, one after another. What it takes for one line it keeps for the next.
#[derive(Drop)]
pub struct OrderReader {
    scratch: Scratch,
}

impl OrderReader {
    ghost use Rattle.std.specs.Prelude.{◌≡◌, ◌⊎◌, Ok, Err, IsErrAnd};
    ghost use Rattle.hol_varint.specs.Yields.{Yields};
    ghost use Rattle.hol_orders.specs.Order.{Orders, TellsOrder, IsFreeOrder, order_data};

    /// A reader that has read nothing. It takes no memory.
    pub fn new(alloc: Global) -> OrderReader {
        OrderReader {
            scratch: Scratch::new(alloc),
        }
    }

    /// The order that a line is, without the newline. `BadOrder` comes exactly where the line is not one JSON value in UTF-8,
    /// nested at most 127 deep, or has the shape of no order. Of a member that is given twice the last one counts.
    #[tactic(auto, using(crate::proofs::Told::found_told, crate::proofs::Told::bad_told))]
    pub fn order(&mut self, alloc: Global, line: &[u8]) -> Result<Order, OrderFault>
        ensures tells { TellsOrder line.now result }
        ensures found { (order : Order) → Orders line.now order
            → ((same : Order) × (result ≡ Ok same) × (order_data same ≡ order_data order)) ⊎ IsErrAnd result IsFreeOrder }
        ensures bad { Yields IsFreeOrder result (Err OrderFault.BadOrder) ((order : Order) → ¬ Orders line.now order) }
    {
        read_order(alloc, &mut self.scratch, line)
    }
}

/// The order that a line is, without the newline, as a reader of its own reads it. `BadOrder` comes exactly where the line is no order.
pub fn order_of(alloc: Global, line: &[u8]) -> Result<Order, OrderFault>
    ensures tells { TellsOrder line.now result }
    ensures found { (order : Order) → Orders line.now order
        → ((same : Order) × (result ≡ Ok same) × (order_data same ≡ order_data order)) ⊎ IsErrAnd result IsFreeOrder }
    ensures bad { Yields IsFreeOrder result (Err OrderFault.BadOrder) ((order : Order) → ¬ Orders line.now order) }
{
    OrderReader::new(alloc).order(alloc, line)
}

// The order of a line: the records of a cycle or a change in its plain form stay in their line, a look-up in its plain form is taken from the tokens of
// its line, another order of few parts is cut where it stands, and any other line is read whole.
fn read_order(alloc: Global, scratch: &mut Scratch, line: &[u8]) -> Result<Order, OrderFault>
    ensures { TellsOrder line.now result }
{
    if let Some(order) = cycle_in_line(alloc, line)? {
        return Ok(order);
    }
    if let Some(order) = change_in_line(alloc, line)? {
        return Ok(order);
    }
    match find_in_line(alloc, scratch, line)? {
        Some(order) => Ok(order),
        None => order_in_parts(alloc, line),
    }
}

// The order of a line, which is cut where it is one of few parts, and else read whole.
fn order_in_parts(alloc: Global, line: &[u8]) -> Result<Order, OrderFault>
    ensures { TellsOrder line.now result }
{
    let Ok(text) = from_utf8(line) else {
        return order_in_json(alloc, line);
    };
    match split_plain(alloc, text)? {
        Some(plain) => order_under(alloc, plain.word, plain.content),
        None => order_in_json(alloc, line),
    }
}

// The order of a line that is read whole.
fn order_in_json(alloc: Global, line: &[u8]) -> Result<Order, OrderFault>
    ensures { TellsOrder line.now result }
{
    let value = match Value::from_slice(alloc, line) {
        Ok(value) => value,
        Err(error) if error.is_memory() => return Err(OrderFault::Memory),
        Err(_) => return Err(OrderFault::BadOrder),
    };
    let Some((word, content)) = only_member(value) else {
        return Err(OrderFault::BadOrder);
    };
    order_under(alloc, word.as_str(), content)
}

// The order of a line whose one member has this name and this content.
#[tactic(auto, using(crate::proofs::Told::told_kind))]
fn order_under(alloc: Global, word: &str, content: Value) -> Result<Order, OrderFault>
    ensures { (line : List ℕ) → IsUtf8 line → read line ≡ Some (object (member word.now (view content) no_members)) → TellsOrder line result }
{
    match Kind::of_word(word) {
        Some(kind) => order_with(alloc, kind, content),
        None => Err(OrderFault::BadOrder),
    }
}
