//! The kinds of orders.
ghost use Rattle.hol_orders.specs.Kind.{TellsKind};

/// Which order a line is, told by its word alone.
#[derive(Clone, Copy, Debug, PartialEq, Eq)]
pub enum Kind {
    /// Makes a new producer.
    Model,
    /// Publishes the next state.
    Cycle,
    /// Takes a producer up again at a version.
    Restore,
    /// Loads a snapshot into the consumer.
    Load,
    /// Moves the consumer along a delta or a reverse delta.
    Step,
    /// Keeps an index.
    Index,
    /// Looks up the row with a primary key.
    Get,
    /// Looks up the rows with a key.
    Find,
    /// Lists the live ordinals of a type.
    Live,
    /// Shows a row.
    Row,
    /// Tells whether a set has an element.
    Has,
    /// Looks up a key in a map.
    At,
    /// Shows the rows that the last step removed.
    Past,
    /// Walks along versions and compares each with its snapshot.
    Check,
    /// Counts what the consumer keeps.
    Stat,
    /// Gives the producer a model that grows its own.
    Grow,
    /// Shows the shortest way to a version.
    Plan,
    /// Moves the consumer along the shortest way to a version.
    Goto,
    /// Publishes the next state as a change of the one before.
    Change,
    /// Keeps an index through collections.
    WalkIndex,
    /// Looks up the rows that reach a value.
    WalkFind,
    /// Sets how many old states are kept.
    History,
    /// Shows a row of an old state.
    Was,
    /// Looks up the row with a primary key in an old state.
    WasGet,
}

impl Kind {
    /// The kind of the order that has this word in its line, or `None` exactly where none has it.
    pub fn of_word(word: &str) -> Option<Kind>
        ensures { TellsKind word.now result }
    {
        match word {
            "model" => Some(Kind::Model),
            "cycle" => Some(Kind::Cycle),
            "restore" => Some(Kind::Restore),
            "load" => Some(Kind::Load),
            "step" => Some(Kind::Step),
            "index" => Some(Kind::Index),
            "get" => Some(Kind::Get),
            "find" => Some(Kind::Find),
            "live" => Some(Kind::Live),
            "row" => Some(Kind::Row),
            "has" => Some(Kind::Has),
            "at" => Some(Kind::At),
            "past" => Some(Kind::Past),
            "check" => Some(Kind::Check),
            "stat" => Some(Kind::Stat),
            "grow" => Some(Kind::Grow),
            "plan" => Some(Kind::Plan),
            "goto" => Some(Kind::Goto),
            "change" => Some(Kind::Change),
            "walkindex" => Some(Kind::WalkIndex),
            "walkfind" => Some(Kind::WalkFind),
            "history" => Some(Kind::History),
            "was" => Some(Kind::Was),
            "wasget" => Some(Kind::WasGet),
            _ => None,
        }
    }
}
