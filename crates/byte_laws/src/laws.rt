//! Laws of bytes.
ghost use Rattle.std.specs.Prelude.{◌≡◌, All, Bool, IsUtf8, List, Ok, ℕ, ℤ};
ghost use Rattle.serde_json.specs.Data.{Data};
ghost use Rattle.serde_json.specs.View.{view as shown};
ghost use Rattle.serde_json.specs.declared.value.Value.{Value};
ghost use Rattle.blob_grammar.specs.Decided.{AreBytes};
ghost use Rattle.schema_model.specs.declared.schema.Schema.{Schema};
ghost use Rattle.schema_model.specs.Model.{IsModel};
ghost use Rattle.schema_model.specs.Schema.{EachName};
ghost use Rattle.row_model.specs.PlainTree.{PlainTree};
ghost use Rattle.row_model.specs.Table.{Table};
ghost use Rattle.row_model.specs.View.{view};
ghost use Rattle.type_state.specs.State.{Half};
ghost use Rattle.type_state.specs.Views.{table_of};
ghost use Rattle.blob_frame.specs.declared.header.Header.{Header};
ghost use Rattle.snapshot_blob.specs.Snapshot.{IsAccepted};
ghost use Rattle.delta_blob.specs.Moved.{Moved};
ghost use Rattle.delta_blob.specs.Patch.{DeltaIs, TypePatch};
ghost use Rattle.write_engine.specs.Cycle.{Next, no_rows};
ghost use Rattle.film_script.specs.Films.{film_schemas, films};
ghost use Rattle.json_values.specs.SchemaJson.{StandsFor};
ghost use Rattle.record_json.specs.ReadTree.{read_tree};
ghost use Rattle.state_blobs.specs.Published.{Published};
ghost use Rattle.state_blobs.specs.Puts.{AreBlobs, Put, puts_of};
ghost use Rattle.byte_laws.specs.Bytes.{IsByteProducer, IsByteSchema, IsByteTable, IsByteTree};

/// A model whose names are texts is spelled by bytes.
pub fn spelled_model()
    ensures { (schemas : List Schema) → IsModel schemas → All (EachName IsUtf8) schemas → All IsByteSchema schemas }
{}

/// What a producer puts for its next state are bytes, where what spells its model and what the rows of both states hold in BYTES are.
pub fn bytes_put()
    ensures { (last : Published) → IsByteProducer last → (rows : Table) → IsByteTable rows → (version : ℕ) (tag : ℤ) (with_snapshot : Bool) (blobs : List Put)
        → AreBlobs last rows version tag with_snapshot blobs → All (λ (put : Put). AreBytes put.1) (puts_of blobs version) }
{}

/// A state without rows has none but bytes, and so has the next state of records that have, and what is seen of a state through another model.
pub fn byte_states()
    ensures none { (count : ℕ) → IsByteTable (no_rows count) }
    ensures next { (schemas : List Schema) (previous next : Table) (records : List (ℕ × PlainTree)) → All (λ (entry : ℕ × PlainTree). IsByteTree entry.1) records
        → Next schemas previous records next → IsByteTable next }
    ensures seen { (own : List Schema) (table : Table) → IsByteTable table → (mine : List Schema) → IsByteTable (view mine own table) }
{}

/// The BYTES of a record that is read from JSON are bytes, those of a state that is loaded from bytes, and those of one that a delta of bytes leads to from a
/// state with such ones.
pub fn read_bytes()
    ensures json { (schemas : List Schema) (type_index : ℕ) (value : Data) (tree : PlainTree) → read_tree schemas type_index value ≡ Ok tree → IsByteTree tree }
    ensures blob { (blob : List ℕ) (head : Header) (schemas : List Schema) (halves : List Half) → AreBytes blob → IsAccepted blob head schemas halves → IsByteTable (table_of halves) }
    ensures delta { (schemas : List Schema) (blob : List ℕ) (origin destination : ℤ) (patch : List TypePatch) (old new : Table) → AreBytes blob
        → DeltaIs schemas blob origin destination patch → Moved patch old new → IsByteTable old → IsByteTable new }
{}

/// The model and the records of the script of `make` have bytes.
pub fn film_bytes()
    ensures model { All IsByteSchema film_schemas }
    ensures records { (seed rows cycle : ℕ) → All (λ (entry : ℕ × PlainTree). IsByteTree entry.1) (films seed rows cycle) }
{}

/// The names of the schemas that a value of JSON stands for are texts, and those of the schemas of a snapshot.
pub fn text_names()
    ensures json { (value : Value) (schemas : List Schema) → StandsFor (shown value) schemas → All (EachName IsUtf8) schemas }
    ensures blob { (blob : List ℕ) (head : Header) (schemas : List Schema) (halves : List Half) → IsAccepted blob head schemas halves → All (EachName IsUtf8) schemas }
{}
