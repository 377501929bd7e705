//! Laws of snapshots: what the reader answers is the only answer that the bytes allow.
ghost use Rattle.std.specs.Prelude.{◌≡◌, ◌≤◌, List, ℕ, Ok, length};
ghost use Rattle.schema_model.specs.declared.limit.Limit.TheVariants.{Blob};
ghost use Rattle.schema_model.specs.declared.reason.Reason.{Reason};
ghost use Rattle.schema_model.specs.declared.schema.Schema.{Schema};
ghost use Rattle.schema_model.specs.Limit.{number_of_limit};
ghost use Rattle.row_model.specs.Row.{stored_row};
ghost use Rattle.row_model.specs.Table.{EachRow};
ghost use Rattle.type_state.specs.State.{Half};
ghost use Rattle.type_state.specs.Views.{next_halves, table_of};
ghost use Rattle.blob_grammar.specs.Decided.{AreBytes, EachPlace, IsDecided};
ghost use Rattle.blob_frame.specs.declared.fault.BlobFault.{BlobFault};
ghost use Rattle.blob_frame.specs.declared.fault.BlobFault.TheVariants.{Bad};
ghost use Rattle.blob_frame.specs.declared.header.Header.{Header};
ghost use Rattle.blob_frame.specs.Header.{HeaderIs, StuckInHeader};
ghost use Rattle.blob_faults.specs.Judge.{Judge};
ghost use Rattle.snapshot_blob.specs.declared.body.Body.{Body};
ghost use Rattle.snapshot_blob.specs.declared.part.TypePart.{TypePart};
ghost use Rattle.snapshot_blob.specs.Body.{TellsBody};
ghost use Rattle.snapshot_blob.specs.Judged.{body_of, snapshot_of};
ghost use Rattle.snapshot_blob.specs.Parts.{body, snapshot};
ghost use Rattle.snapshot_blob.specs.Snapshot.{SnapshotIs, IsAccepted};

/// At each place a snapshot's types stand in one way at most, reading them is stuck at one place at most and for one
/// reason, and never both; so it is with the whole of a snapshot.
pub fn one_body()
    ensures body { IsDecided body.Stands body.Stuck }
    ensures snapshot { IsDecided snapshot.Stands snapshot.Stuck }
{}

/// A blob is the snapshot of one state at most.
pub fn one_snapshot()
    ensures { (blob : List ℕ) (a b : Header) (ps qs : List TypePart) (s t : List Schema) (x y : List Half)
        → SnapshotIs blob a ps s x → SnapshotIs blob b qs t y → (a ≡ b) × (ps ≡ qs) × (s ≡ t) × (x ≡ y) }
{}

/// A snapshot stands at each place of each blob, or reading it is stuck; so it is with its types.
pub fn each_place()
    ensures body { EachPlace body.Stands body.Stuck }
    ensures snapshot { EachPlace snapshot.Stands snapshot.Stuck }
{}

/// A header at the start of a blob and the body behind it are a snapshot: one within the limits where the reader of the
/// body answers it, and else its fault is that of the body. A snapshot begins with its header, and where that is stuck,
/// it is at fault there.
pub fn header_and_body()
    ensures items { (blob : List ℕ) (head : Header) (behind : ℕ) (parts : List TypePart) → HeaderIs blob behind head → body.Stands blob behind parts (length blob)
        → snapshot.Stands blob 0 (head, parts) (length blob) }
    ensures begins { (blob : List ℕ) (head : Header) (schemas : List Schema) (halves : List Half) → IsAccepted blob head schemas halves
        → (behind : ℕ) × HeaderIs blob behind head × (length blob ≤ number_of_limit Blob) }
    ensures accepted { (blob : List ℕ) (head : Header) (behind : ℕ) (found : Body) → HeaderIs blob behind head → length blob ≤ number_of_limit Blob → TellsBody blob behind (Ok found)
        → IsAccepted blob head found.model (next_halves found.states) }
    ensures blamed { (blob : List ℕ) (head : Header) (behind : ℕ) (fault : BlobFault) → HeaderIs blob behind head → length blob ≤ number_of_limit Blob → (body_of blob behind).Fails fault
        → (snapshot_of blob).Fails fault }
    ensures stuck { (blob : List ℕ) (place : ℕ) (why : Reason) → length blob ≤ number_of_limit Blob → StuckInHeader blob place why → (snapshot_of blob).Fails (Bad place why) }
{}

/// A blob has one first fault at most, and none where it is a snapshot within the limits.
pub fn one_fault()
    ensures once { (blob : List ℕ) (a b : BlobFault) → (snapshot_of blob).Fails a → (snapshot_of blob).Fails b → a ≡ b }
    ensures apart { (blob : List ℕ) (head : Header) (schemas : List Schema) (halves : List Half) (fault : BlobFault) → IsAccepted blob head schemas halves
        → (snapshot_of blob).Fails fault → ⊥ }
    ensures passes { (blob : List ℕ) (head : Header) (schemas : List Schema) (halves : List Half) → IsAccepted blob head schemas halves
        → (snapshot_of blob).Passes (head, table_of halves) }
{}

/// That bytes are no snapshot within the limits and have no fault cannot be.
pub fn some_fault()
    ensures { (blob : List ℕ) → AreBytes blob → ((head : Header) (schemas : List Schema) (halves : List Half) → IsAccepted blob head schemas halves → ⊥)
        → ((fault : BlobFault) → (snapshot_of blob).Fails fault → ⊥) → ⊥ }
{}

/// The rows of a snapshot hold no least INT or LONG: each is the row that a blob holds in its place.
pub fn stored_rows()
    ensures { (blob : List ℕ) (head : Header) (parts : List TypePart) (schemas : List Schema) (halves : List Half) → SnapshotIs blob head parts schemas halves
        → EachRow schemas (table_of halves) (λ schema row. stored_row row ≡ row) }
{}
