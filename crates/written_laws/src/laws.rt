//! Laws of written blobs.
ghost use Rattle.std.specs.Prelude.{◌≡◌, ◌≤◌, ◌^◌, ℕ, ℤ, List, Some, FitsSigned, IsTrue, length};
ghost use Rattle.std.specs.FinMap.{empty, get};
ghost use Rattle.std.specs.Int.{w64};
ghost use Rattle.hol_io.specs.declared.name.BlobName.{BlobName};
ghost use Rattle.hol_io.specs.Store.{Store};
ghost use Rattle.schema_model.specs.declared.model.rule.Rule.TheVariants.{DuplicateName};
ghost use Rattle.schema_model.specs.declared.schema.Schema.{Schema};
ghost use Rattle.schema_model.specs.Growth.{Grows, ModelsAgree};
ghost use Rattle.schema_model.specs.Model.{IsKept, IsModel};
ghost use Rattle.row_model.specs.Table.{IsClosed, IsTableOf, Table};
ghost use Rattle.blob_writing.specs.Snapshot.{IsWrittenSnapshot};
ghost use Rattle.blob_frame.specs.Written.{schema_list_bytes};
ghost use Rattle.blob_writing.specs.Delta.{schemas_of};
ghost use Rattle.blob_writing.specs.Changes.{IsDeltaBetween};
ghost use Rattle.written_laws.specs.States.{AreStates};
ghost use Rattle.written_laws.specs.Chain.{Chain, ChainState, HasVersion, IsChain, IsSound};
ghost use Rattle.written_laws.specs.Delta.{IsDeltaTo, LeadsTo};
ghost use Rattle.written_laws.specs.HoldsChain.{HoldsChain, IsStep, LeadsOn, later_of};
ghost use Rattle.written_laws.specs.Quiet.{IsQuiet};
ghost use Rattle.written_laws.specs.SeenChain.{IsAgreeing, IsGrownState, seen_in};
ghost use Rattle.delta_blob.specs.Moved.{Moved};
ghost use Rattle.delta_blob.specs.Patch.{DeltaIs, TypePatch};
ghost use Rattle.written_laws.specs.Snapshot.{IsSnapshotOf, IsSnapshotOfTable, header_between};

/// A snapshot that is written of a new state, which follows an old one, is the snapshot of the new state, where the list of its schemas has at
/// most 2^28 bytes. Where the whole blob has no more it is read back as the new state, within the limits.
pub fn written_snapshot()
    ensures snapshot { (schemas : List Schema) (old new : Table) (origin destination : ℤ) (blob : List ℕ) → AreStates schemas old new → FitsSigned w64 origin → FitsSigned w64 destination
        → length (schema_list_bytes schemas) ≤ 2 ^ 28 → IsWrittenSnapshot schemas old new origin destination blob → IsSnapshotOfTable schemas new (header_between origin destination schemas) blob }
    ensures accepted { (schemas : List Schema) (old new : Table) (origin destination : ℤ) (blob : List ℕ) → AreStates schemas old new → FitsSigned w64 origin → FitsSigned w64 destination
        → length blob ≤ 2 ^ 28 → IsWrittenSnapshot schemas old new origin destination blob → IsSnapshotOf schemas new origin destination blob }
{}

/// Two states between which a producer writes are such either way.
pub fn either_way()
    ensures { (schemas : List Schema) (old new : Table) → AreStates schemas old new → AreStates schemas new old }
{}

/// A delta that is written between an old and a new state is one of a patch that fits the old state and moves it to the new one, where the list
/// of the schemas of the changed types has at most 2^28 bytes. The reverse delta, which is written with the states and the tags exchanged,
/// leads back.
pub fn written_delta()
    ensures moves { (schemas : List Schema) (old new : Table) (origin destination : ℤ) (blob : List ℕ) → AreStates schemas old new → FitsSigned w64 origin → FitsSigned w64 destination
        → (is : IsDeltaBetween schemas old new origin destination blob) → length (schema_list_bytes (schemas_of is.changes)) ≤ 2 ^ 28 → IsDeltaTo schemas old new origin destination blob }
    ensures back { (schemas : List Schema) (old new : Table) (origin destination : ℤ) (blob : List ℕ) → AreStates schemas old new → FitsSigned w64 origin → FitsSigned w64 destination
        → (is : IsDeltaBetween schemas new old destination origin blob) → length (schema_list_bytes (schemas_of is.changes)) ≤ 2 ^ 28 → IsDeltaTo schemas new old destination origin blob }
{}

/// Where the whole of such a delta has at most 2^28 bytes it is read back so, within the limits.
pub fn short_delta()
    ensures moves { (schemas : List Schema) (old new : Table) (origin destination : ℤ) (blob : List ℕ) → AreStates schemas old new → FitsSigned w64 origin → FitsSigned w64 destination
        → length blob ≤ 2 ^ 28 → IsDeltaBetween schemas old new origin destination blob → LeadsTo schemas old new origin destination blob }
    ensures back { (schemas : List Schema) (old new : Table) (origin destination : ℤ) (blob : List ℕ) → AreStates schemas old new → FitsSigned w64 origin → FitsSigned w64 destination
        → length blob ≤ 2 ^ 28 → IsDeltaBetween schemas new old destination origin blob → LeadsTo schemas new old destination origin blob }
{}

/// A blob is a delta between two tags alone, whatever the model, and against a model in which no two types have one name it is one of one patch at
/// most. A patch moves a table to one table at most.
pub fn one_patch()
    ensures tags { (schemas others : List Schema) (blob : List ℕ) (origin destination start end : ℤ) (patch other : List TypePatch) → DeltaIs schemas blob origin destination patch → DeltaIs others blob start end other → (origin ≡ start) × (destination ≡ end) }
    ensures patch { (schemas : List Schema) (blob : List ℕ) (origin destination start end : ℤ) (patch other : List TypePatch) → IsKept schemas DuplicateName → DeltaIs schemas blob origin destination patch → DeltaIs schemas blob start end other
        → patch ≡ other }
    ensures table { (patch : List TypePatch) (old one other : Table) → Moved patch old one → Moved patch old other → one ≡ other }
{}

/// A store without blobs holds the chain without states.
pub fn empty_chain()
    ensures { HoldsChain empty empty }
{}

/// A delta of a chain that a store holds, which can be read against a model and begins at the tag of a state, leads for this model from what is seen of the state
/// to what is seen of another one of the chain, by the patch that it is, within the limits: where nothing is seen of the state that has one name and two kinds,
/// and then so it is there. It can be read where its types agree with the model, as they do where the model agrees with that of the later of the two states.
pub fn chain_step()
    ensures leads { (store : Store) (chain : Chain) (mine : List Schema) (name : BlobName) (blob : List ℕ) (origin destination : ℤ) (patch : List TypePatch) (version : ℕ) (state : ChainState)
        → HoldsChain store chain → IsModel mine → IsQuiet mine state → IsStep name → get store name ≡ Some blob → (is : DeltaIs mine blob origin destination patch)
        → HasVersion chain version state → state.tag ≡ origin → LeadsOn chain mine state blob origin destination patch is }
    ensures read { (store : Store) (chain : Chain) (mine : List Schema) (name : BlobName) (blob : List ℕ) (version : ℕ) (state : ChainState)
        → HoldsChain store chain → IsModel mine → IsQuiet mine state → IsStep name → get store name ≡ Some blob → HasVersion chain version state
        → (agreeing : IsAgreeing mine blob) → agreeing.head.origin ≡ state.tag → (destination : ℤ) × (patch : List TypePatch) × DeltaIs mine blob state.tag destination patch }
    ensures agrees { (store : Store) (chain : Chain) (mine : List Schema) (name : BlobName) (blob : List ℕ)
        → HoldsChain store chain → IsModel mine → IsStep name → get store name ≡ Some blob
        → ((state : ChainState) → HasVersion chain (later_of name) state → ModelsAgree mine state.model) → IsAgreeing mine blob }
{}

/// The model of a published state of a chain grows that of each earlier published one, so that they agree with each other.
pub fn published_grow()
    ensures grows { (chain : Chain) (version later : ℕ) (state next : ChainState) → IsChain chain → HasVersion chain version state → HasVersion chain later next → IsTrue state.published → IsTrue next.published → version ≤ later
        → Grows state.model next.model }
    ensures agree { (chain : Chain) (version later : ℕ) (state next : ChainState) → IsChain chain → HasVersion chain version state → HasVersion chain later next → IsTrue state.published → IsTrue next.published
        → ModelsAgree state.model next.model }
{}

/// What is seen of a state of a chain is a closed table of the model through which it is seen, where nothing is seen of what has one name and two kinds. So it is
/// where the model agrees with that of the state, as with the state's own model, through which the state is seen as it is.
pub fn state_seen()
    ensures table { (chain : Chain) (mine : List Schema) (version : ℕ) (state : ChainState) → IsChain chain → HasVersion chain version state → IsQuiet mine state → IsTableOf mine (seen_in mine state) }
    ensures closed { (chain : Chain) (mine : List Schema) (version : ℕ) (state : ChainState) → IsChain chain → HasVersion chain version state → IsModel mine → IsQuiet mine state
        → IsClosed mine (seen_in mine state) }
    ensures quiet { (chain : Chain) (mine : List Schema) (version : ℕ) (state : ChainState) → IsChain chain → HasVersion chain version state → ModelsAgree mine state.model → IsQuiet mine state }
    ensures own { (chain : Chain) (version : ℕ) (state : ChainState) → IsChain chain → HasVersion chain version state → seen_in state.model state ≡ state.table }
{}

/// What is seen of a sound state through a model that grows its own is a closed table of that model with no row twice, and keeps the limit on ordinals.
pub fn state_grown()
    ensures { (state : ChainState) (grown : List Schema) → IsSound state → IsModel grown → Grows state.model grown → IsGrownState state grown }
{}
