//! The numbers that must not be passed.

/// How many bytes a blob has at most.
pub const MAX_BLOB_BYTES: u64 = 0x1000_0000;

/// How many ordinals a type has at most: each is below this number.
pub const MAX_ORDINALS: u32 = 0x40_0000;

/// How many elements or buckets a type has at most in the total that is written.
pub const MAX_ITEMS: u64 = 0x200_0000;

/// How many fixed words a type has at most in one state.
pub const MAX_WORDS: u64 = 0x40_0000;

/// How many variable bytes a type has at most in one state.
pub const MAX_BYTES: u64 = 0x200_0000;

/// How many nodes a printed answer has at most.
pub const MAX_NODES: u64 = 0x10_0000;

/// How many indexes a consumer keeps at most.
pub const MAX_INDEXES: u64 = 16;

/// How many walk indexes a consumer keeps at most.
pub const MAX_WALKS: u64 = 16;

/// How many entries a walk index has at most: pairs of a row and a value that it reaches.
pub const MAX_ENTRIES: u64 = 0x40_0000;

/// How many types a model has at most.
pub const MAX_TYPES: u32 = 512;

/// How many fields a type has at most.
pub const MAX_FIELDS: u16 = 1024;

/// How many types a chain of references goes through at most.
pub const MAX_DEPTH: u32 = 32;

/// How many bytes of Java UTF a name has at most.
pub const MAX_NAME_BYTES: usize = 65535;

/// A number that must not be passed, in the order in which the limits stand in the answers' table.
#[derive(Clone, Copy, Debug, PartialEq, Eq)]
pub enum Limit {
    /// The bytes of a blob.
    Blob,
    /// One past the greatest ordinal of a type.
    Ordinals,
    /// The elements or buckets of a type that are written.
    Items,
    /// The fixed words of a type in one state.
    Words,
    /// The variable bytes of a type in one state.
    Bytes,
    /// The nodes of a printed answer.
    Nodes,
    /// The indexes that a consumer keeps.
    Indexes,
    /// The walk indexes that a consumer keeps.
    Walks,
    /// The entries of a walk index.
    Entries,
}

impl Limit {
    ghost use Rattle.std.specs.Prelude.{◌≡◌};
    ghost use Rattle.schema_model.specs.Limit.{name_of_limit, number_of_limit};

    /// What is counted, as an answer line names it.
    pub fn what(&self) -> &'static str
        ensures { result.now ≡ name_of_limit self.now }
    {
        match self {
            Limit::Blob => "blob",
            Limit::Ordinals => "ordinals",
            Limit::Items => "items",
            Limit::Words => "words",
            Limit::Bytes => "bytes",
            Limit::Nodes => "nodes",
            Limit::Indexes => "indexes",
            Limit::Walks => "walks",
            Limit::Entries => "entries",
        }
    }

    /// The number that must not be passed.
    pub fn number(&self) -> u64
        ensures { result ≡ number_of_limit self.now }
    {
        match self {
            Limit::Blob => MAX_BLOB_BYTES,
            Limit::Ordinals => u64::from(MAX_ORDINALS),
            Limit::Items => MAX_ITEMS,
            Limit::Words => MAX_WORDS,
            Limit::Bytes => MAX_BYTES,
            Limit::Nodes => MAX_NODES,
            Limit::Indexes => MAX_INDEXES,
            Limit::Walks => MAX_WALKS,
            Limit::Entries => MAX_ENTRIES,
        }
    }
}
