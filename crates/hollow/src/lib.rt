//! The producer and the consumer of Hollow datasets under one name: models, records, a producer and what publishes its states, a consumer and what
//! walks a chain with it, stores, and JSON in and out. Beside it a crate names those below whose types its own
//! clauses speak of.
//!
//! A producer takes the records of the next state and publishes it; a consumer loads a state, steps to the next one and shows its rows:
//!
//! ```text
//! producer.add(product, &record)?;
//! let closed = producer.close()?;
//! let blobs = write_blobs(alloc, producer, version, tag, true)?;
//! publish(alloc, store, version, &blobs)?;
//! producer.advance(tag, version);
//!
//! let mut consumer = Consumer::new(rt.alloc());
//! consumer.load(store, 1)?;
//! consumer.step(store, &BlobName::Delta(1, 2), &mut steps)?;
//! let rows = consumer.now();
//! let record = tree_value(rt.alloc(), &rows, type_index, ordinal, &mut nodes)?;
//! ```
//!
//! The program library_example has these calls, each where what it asks for is proved. Contracts name definitions of the crates below; `specs` passes
//! those of each crate on under the crate's name, as `Rattle.hollow.specs.write_engine.Cycle`.

// Models and their rules.
pub use model_paths::{resolve, resolve_walk};
pub use model_rules::model_of;
pub use schema_growth::grows;
pub use schema_model::{
    Field, FieldKind, Fields, Limit, Model, ModelFault, Name, Names, Path, PathFault, Paths,
    Reason, Rule, Schema, Schemas, Shape, WalkPart, WalkParts, WalkPath,
};

// Values, rows and records with all that they refer to, and the lists that they are made of.
pub use hol_varint::{List, Octets, Ordinals, Units, text_of, units_of};
pub use record_trees::{Tree, TreePairs, Trees};
pub use row_model::{Pairs, Row, Rows, Value, Values};

// Stores of blobs: the trait, in memory, a folder.
pub use hol_files::FolderStore;
pub use hol_io::{BlobName, BlobStore, PutFault, Steps, StoreFailed, name_text, parse_name};
pub use hol_memory::MemStore;

// A producer, and how its states are published and taken up again.
pub use blob_writing::WriteFault;
pub use chain_store::{Announcement, announced_version, greatest_version, is_tag_taken, names_of};
pub use ordinal_map::PutRowFault;
pub use snapshot_blob::{Loaded, read_snapshot};
pub use state_blobs::{Blobs, publish, write_blobs};
pub use write_engine::{Closed, Producer, RestoreFault};

// A consumer, its rows now and before its last step, and a walk along a chain that compares.
pub use blob_frame::{BlobFault, Header};
pub use chain_check::{CheckFault, Place, check};
pub use read_engine::{Consumer, IndexFault, WalkIndexFault, Walker};
pub use state_moves::{Before, Now};

// JSON in and out.
pub use json_rows::row_value;
pub use json_values::{KeyFault, SchemasFault, ValueFault, key_from, schemas_from};
pub use record_json::{PrintFault, laws as json_laws, tree_from, tree_value};
