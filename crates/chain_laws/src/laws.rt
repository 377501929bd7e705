//! Laws of chains.
ghost use Rattle.std.specs.Prelude.{◌≡◌, ◌≢◌, ◌≤◌, ◌↔◌, ◌^◌, ℕ, ℤ, List, [], ◌∷◌, ◌++◌, Bool, Some, IfSome, Contains, FitsSigned};
ghost use Rattle.std.specs.FinMap.{get};
ghost use Rattle.std.specs.Int.{w64};
ghost use Rattle.serde_json.specs.View.{view};
ghost use Rattle.serde_json.specs.declared.value.Value.{Value};
ghost use Rattle.schema_model.specs.declared.model.walk_path.WalkPath.{WalkPath};
ghost use Rattle.schema_model.specs.declared.schema.name.Name.{Name};
ghost use Rattle.schema_model.specs.Growth.{ModelsAgree};
ghost use Rattle.row_model.specs.Table.{Table};
ghost use Rattle.film_script.specs.Films.{film_schemas, films};
ghost use Rattle.hol_io.specs.declared.name.BlobName.{BlobName};
ghost use Rattle.hol_io.specs.declared.name.BlobName.TheVariants.{Snapshot};
ghost use Rattle.hol_io.specs.Name.{IsVersion, step_name};
ghost use Rattle.hol_io.specs.Store.{Store};
ghost use Rattle.hol_orders.specs.declared.kind.Kind.TheVariants as Kind;
ghost use Rattle.hol_orders.specs.Order.{kind_of};
ghost use Rattle.hol_orders.specs.Parts.{asked_state};
ghost use Rattle.hol_orders.specs.declared.order.NextState.{NextState};
ghost use Rattle.hol_orders.specs.declared.order.StateChange.{StateChange};
ghost use Rattle.hol_orders.specs.declared.order.Order.{Order};
ghost use Rattle.hol_orders.specs.declared.order.Order.TheVariants as order;
ghost use Rattle.hol_answers.specs.declared.refusal.Difference.{Difference};
ghost use Rattle.hol_answers.specs.declared.refusal.Refusal.TheVariants.{Mismatch, OtherModel};
ghost use Rattle.hol_answers.specs.Refusal.{other_origin};
ghost use Rattle.hol_answers.specs.declared.reply.Progress.{Progress};
ghost use Rattle.hol_answers.specs.declared.reply.Reply.{Reply};
ghost use Rattle.hol_answers.specs.declared.reply.Reply.TheVariants as reply;
ghost use Rattle.read_engine.specs.Position.{Index, IsPosition, Position};
ghost use Rattle.hollow_machine.specs.HistoryOrders.{rows_then};
ghost use Rattle.hollow_machine.specs.KeyPaths.{texts_of_array};
ghost use Rattle.hollow_machine.specs.CycleOrder.{CycleStep};
ghost use Rattle.hollow_machine.specs.MakeCommand.{Makes, film_cycle, film_machine};
ghost use Rattle.hollow_machine.specs.Made.{StopsMake};
ghost use Rattle.hollow_machine.specs.Records.{AskedCycle, SpellsTrees};
ghost use Rattle.hollow_machine.specs.RestoreOrder.{IsLast, producer_at};
ghost use Rattle.hollow_machine.specs.Script.{LineStep, Script};
ghost use Rattle.hollow_machine.specs.State.{Machine, loaded_to, started, stepped_to, with_consumer, with_producer};
ghost use Rattle.hollow_machine.specs.Step.{Step};
ghost use Rattle.hollow_machine.specs.Left.{HasFirst};
ghost use Rattle.hollow_machine.specs.Puts.{CyclePuts};
ghost use Rattle.hollow_machine.specs.Stopped.{StopsAfter, StopsBetween, StopsWithin};
ghost use Rattle.written_laws.specs.Chain.{Chain, ChainState, HasVersion};
ghost use Rattle.written_laws.specs.HoldsChain.{HoldsChain, IsThere, later_of};
ghost use Rattle.chain_laws.specs.Afresh.{AreAdded, AreWalksAdded, AskForAll, AskForWalks};
ghost use Rattle.chain_laws.specs.Answers.{SaysOne};
ghost use Rattle.chain_laws.specs.Consumers.{Agrees, Arrives, Fresh, IsConsumerOf, IsIn, IsOld, IsReaderOf, IsUnlikeAt, ModelsAgreeAmong, ModelsOfChainAgree, StandsAt, StartsAt};
ghost use Rattle.chain_laws.specs.Growth.{GrowsAlong, GrowsBy, GrowsByMake};
ghost use Rattle.chain_laws.specs.Headline.{AreTrueLines, StandsOn, IsOfState};
ghost use Rattle.chain_laws.specs.KeptIndexes.{AsksFor};
ghost use Rattle.chain_laws.specs.KeptWalks.{AsksForWalk};
ghost use Rattle.chain_laws.specs.OldStates.{IsGotThen, IsRowThen, Reaches};
ghost use Rattle.chain_laws.specs.Producers.{HoldsBytes, IsProducerOf, KeepsChain};
ghost use Rattle.chain_laws.specs.ScriptOrders.{films_data, script_model, script_state};
ghost use Rattle.chain_laws.specs.Stopped.{HoldsLonger, HoldsLongerByMake, MayAdd};
ghost use Rattle.state_blobs.specs.Puts.{Put};

/// A store of bytes that holds a chain keeps it: the tag of each state is that of a blob.
pub fn chain_is_kept()
    ensures { (store : Store) (chain : Chain) → HoldsChain store chain → HoldsBytes store → KeepsChain store chain }
{}

/// Where the store keeps a chain, and the producer is new or at a published state of it, seen through a model that grows the state's own, or there is none,
/// it is so after each line. The chain has the state more that the line published, or is the same.
pub fn line_keeps_chain()
    ensures { (machine next : Machine) (line : List ℕ) (reply : Reply) (chain : Chain)
        → LineStep machine line reply next → KeepsChain machine.store chain → IsProducerOf chain machine.producer
        → (after : Chain) × GrowsBy machine line reply chain after × KeepsChain next.store after × IsProducerOf after next.producer }
{}

/// So it is after the lines of a script. A run starts without a producer, so the store holds the chain with the states more that the run
/// published.
pub fn script_keeps_chain()
    ensures lines { (machine next : Machine) (lines : List (List ℕ)) (text : List ℕ) (refused : Bool) (chain : Chain)
        → Script machine lines text refused next → KeepsChain machine.store chain → IsProducerOf chain machine.producer
        → (after : Chain) × GrowsAlong machine lines text chain next after × KeepsChain next.store after × IsProducerOf after next.producer }
    ensures run { (store : Store) (next : Machine) (lines : List (List ℕ)) (text : List ℕ) (refused : Bool) (chain : Chain)
        → Script (started store) lines text refused next → KeepsChain store chain
        → (after : Chain) × GrowsAlong (started store) lines text chain next after × KeepsChain next.store after × IsProducerOf after next.producer }
{}

/// Where the store keeps a chain, so it does behind the command `make`. The chain has the states more that its cycles published, the producer is new or at
/// a published state of it, and the consumer has no state.
pub fn make_keeps_chain()
    ensures { (store : Store) (next : Machine) (seed rows cycles : ℕ) (answer : Reply) (chain : Chain)
        → seed ≤ 999999 → cycles ≤ 1000 → Makes store seed rows cycles answer next → KeepsChain store chain
        → (after : Chain) × GrowsByMake store seed rows cycles chain next after × KeepsChain next.store after × IsProducerOf after next.producer × IsReaderOf after next }
{
    film_script::laws::films_model();
}

/// Where the store keeps a chain it holds it, with a state more, after the first puts of a cycle that publishes: after all of them that state is published,
/// and else it is not.
pub fn first_puts_hold()
    ensures { (machine : Machine) (asked : AskedCycle) (puts : List Put) (store : Store) (chain : Chain)
        → IsVersion asked.version → FitsSigned w64 asked.tag → CyclePuts asked machine puts → HasFirst puts machine.store store
        → KeepsChain machine.store chain → IsProducerOf chain machine.producer
        → (after : Chain) × MayAdd machine asked chain after × HoldsChain store after }
{}

/// So a script that stops leaves the store with the chain that its answered lines made, and with at most one state more.
pub fn stopped_script_keeps_chain()
    ensures between { (first store : Store) (lines : List (List ℕ)) (text : List ℕ) (chain : Chain)
        → KeepsChain first chain → StopsBetween first lines text store → HoldsLonger first chain lines store }
    ensures within { (first store : Store) (lines : List (List ℕ)) (text : List ℕ) (chain : Chain)
        → KeepsChain first chain → StopsWithin first lines text store → HoldsLonger first chain lines store }
    ensures behind { (first store : Store) (lines : List (List ℕ)) (text : List ℕ) (chain : Chain)
        → KeepsChain first chain → StopsAfter first lines text store → HoldsLonger first chain lines store }
{}

/// So does the command `make`.
pub fn stopped_make_keeps_chain()
    ensures { (first store : Store) (seed rows cycles : ℕ) (chain : Chain)
        → seed ≤ 999999 → cycles ≤ 1000 → KeepsChain first chain → StopsMake first seed rows cycles store → HoldsLongerByMake first chain seed rows cycles store }
{
    film_script::laws::films_model();
}

/// A consumer without a state, or that sees one of the chain that the store keeps through the model of one of it, is so after each line, over the chain that the
/// line made. The state is that of the version to which its last load or step led, and the older states that are kept of it are those of versions of the chain, as
/// they are seen through its model. Its indexes and walk indexes are such as an order can ask for, none is there twice, and no walk index has more entries than it
/// may.
pub fn line_keeps_consumer()
    ensures { (machine next : Machine) (line : List ℕ) (reply : Reply) (chain : Chain)
        → LineStep machine line reply next → KeepsChain machine.store chain → IsProducerOf chain machine.producer → IsReaderOf chain machine
        → (after : Chain) × GrowsBy machine line reply chain after × KeepsChain next.store after × IsProducerOf after next.producer × IsReaderOf after next }
{}

/// So it is after the lines of a script. A run starts without a consumer, so the consumer has no state or one of the chain after any lines.
pub fn script_keeps_consumer()
    ensures lines { (machine next : Machine) (lines : List (List ℕ)) (text : List ℕ) (refused : Bool) (chain : Chain)
        → Script machine lines text refused next → KeepsChain machine.store chain → IsProducerOf chain machine.producer → IsReaderOf chain machine
        → (after : Chain) × GrowsAlong machine lines text chain next after × KeepsChain next.store after × IsProducerOf after next.producer × IsReaderOf after next }
    ensures run { (store : Store) (next : Machine) (lines : List (List ℕ)) (text : List ℕ) (refused : Bool) (chain : Chain)
        → Script (started store) lines text refused next → KeepsChain store chain
        → (after : Chain) × GrowsAlong (started store) lines text chain next after × KeepsChain next.store after × IsProducerOf after next.producer × IsReaderOf after next }
{}

/// A step whose blob the store has, and that starts where the consumer stands and agrees with its model, is taken and not refused: it leads to a state of the
/// chain. Where the blob does not agree, it is refused for the first type that does not, and nothing changes. It agrees where the consumer's model agrees with that
/// of the later of the two states between which it leads.
pub fn chain_step_taken()
    ensures taken { (machine : Machine) (chain : Chain) (from to : ℕ) (now : Position)
        → HoldsChain machine.store chain → machine.consumer ≡ Some now → IsIn chain now → StartsAt machine.store (step_name from to) now.tag → Agrees machine.store (step_name from to) now.schemas
        → (position : Position) × Step machine (order.Step from to) (reply.Step position.tag) (stepped_to machine to position) }
    ensures only { (machine next : Machine) (chain : Chain) (from to : ℕ) (now : Position) (answer : Reply)
        → HoldsChain machine.store chain → machine.consumer ≡ Some now → IsIn chain now → StartsAt machine.store (step_name from to) now.tag → Agrees machine.store (step_name from to) now.schemas
        → Step machine (order.Step from to) answer next
        → (position : Position) × IsIn chain position × (answer ≡ reply.Step position.tag) × (next ≡ stepped_to machine to position) }
    ensures unlike { (machine next : Machine) (chain : Chain) (from to : ℕ) (now : Position) (answer : Reply)
        → HoldsChain machine.store chain → machine.consumer ≡ Some now → IsIn chain now → StartsAt machine.store (step_name from to) now.tag → ¬ Agrees machine.store (step_name from to) now.schemas
        → Step machine (order.Step from to) answer next
        → (type_name : Name) × IsUnlikeAt machine.store (step_name from to) now.schemas type_name × (answer ≡ reply.Refused (OtherModel (step_name from to) type_name)) × (next ≡ machine) }
    ensures refused { (machine : Machine) (chain : Chain) (from to : ℕ) (now : Position) (type_name : Name)
        → HoldsChain machine.store chain → machine.consumer ≡ Some now → IsIn chain now → StartsAt machine.store (step_name from to) now.tag
        → IsUnlikeAt machine.store (step_name from to) now.schemas type_name → Step machine (order.Step from to) (reply.Refused (OtherModel (step_name from to) type_name)) machine }
    ensures agrees { (machine : Machine) (chain : Chain) (from to : ℕ) (now : Position) (state : ChainState)
        → HoldsChain machine.store chain → IsIn chain now → IsThere machine.store (step_name from to) → HasVersion chain (later_of (step_name from to)) state → ModelsAgree now.schemas state.model
        → Agrees machine.store (step_name from to) now.schemas }
{}

/// A step whose blob starts at another tag than the consumer's is refused as such, and nothing changes, whatever else the store has.
pub fn other_origin_refused()
    ensures refused { (machine : Machine) (from to : ℕ) (now : Position) (origin : ℤ)
        → machine.consumer ≡ Some now → StartsAt machine.store (step_name from to) origin → origin ≢ now.tag
        → Step machine (order.Step from to) (reply.Refused (other_origin (step_name from to) origin now.tag)) machine }
    ensures only { (machine next : Machine) (from to : ℕ) (now : Position) (origin : ℤ) (answer : Reply)
        → machine.consumer ≡ Some now → StartsAt machine.store (step_name from to) origin → origin ≢ now.tag → Step machine (order.Step from to) answer next
        → (answer ≡ reply.Refused (other_origin (step_name from to) origin now.tag)) × (next ≡ machine) }
{}

/// Where the store has the snapshot of a version of the chain, loading it is not refused, and makes the consumer stand at the state of the
/// version, without an index or a walk index: where the consumer had its tag and its model already, and neither, it has this state afresh.
pub fn chain_load_taken()
    ensures taken { (machine : Machine) (chain : Chain) (version : ℕ) (state : ChainState)
        → HoldsChain machine.store chain → HasVersion chain version state → IsThere machine.store (Snapshot version)
        → (position : Position) × Step machine (order.Load version) (reply.Load state.tag) (loaded_to machine version position) }
    ensures only { (machine next : Machine) (chain : Chain) (version : ℕ) (state : ChainState) (answer : Reply)
        → HoldsChain machine.store chain → HasVersion chain version state → IsThere machine.store (Snapshot version) → Step machine (order.Load version) answer next
        → (position : Position) × StandsAt state position × (position.indexes ≡ []) × (position.walks ≡ []) × (answer ≡ reply.Load state.tag) × (next ≡ loaded_to machine version position) }
    ensures fresh { (machine next : Machine) (chain : Chain) (version : ℕ) (state : ChainState) (now : Position) (answer : Reply)
        → HoldsChain machine.store chain → HasVersion chain version state → IsThere machine.store (Snapshot version) → machine.consumer ≡ Some now → now.tag ≡ state.tag
        → now.schemas ≡ state.model → now.indexes ≡ [] → now.walks ≡ [] → Step machine (order.Load version) answer next → Fresh chain machine next }
{}

/// Over a store that holds a chain whose models agree with each other no blob of the shortest list is refused, where the consumer has no state or is at a version
/// of the chain: going to a version applies all of them, and the consumer sees the version's state.
pub fn chain_goto_arrives()
    ensures { (machine next : Machine) (chain : Chain) (version : ℕ) (progress : Progress)
        → HoldsChain machine.store chain → ModelsOfChainAgree chain → IsReaderOf chain machine → Step machine (order.Goto version) (reply.Goto progress) next → Arrives chain version progress next }
{}

/// What is kept of a consumer over a chain is that of the chain: the rows of a version are what is seen of its state through the consumer's model. So what `was`
/// answers of a version that is kept is what `row` answers where a consumer with this model sees that state, and what `wasget` answers is what `get` does, where
/// an index by the primary key is kept.
pub fn chain_old_rows()
    ensures rows { (machine : Machine) (chain : Chain) (now : Position) (version : ℕ) (table : Table)
        → IsReaderOf chain machine → machine.consumer ≡ Some now → rows_then now machine.version machine.past version ≡ Some table → IsOld chain now.schemas (version, table) }
    ensures was { (machine next : Machine) (chain : Chain) (now : Position) (version : ℕ) (name : List ℕ) (ordinal : ℕ) (answer : Reply)
        → IsReaderOf chain machine → machine.consumer ≡ Some now → Reaches machine version → Step machine (order.Was version name ordinal) answer next
        → IsRowThen chain now.schemas version name ordinal answer }
    ensures wasget { (machine next : Machine) (chain : Chain) (now : Position) (version : ℕ) (name : List ℕ) (values : Value) (answer : Reply)
        → IsReaderOf chain machine → machine.consumer ≡ Some now → Reaches machine version → Step machine (order.WasGet version name values) answer next
        → IsGotThen chain now.schemas version name (view values) answer }
{}

/// Where the store holds a chain, restoring its announced version is not refused where its snapshot is there, and makes the producer that of the state of this
/// version.
pub fn chain_restore_taken()
    ensures taken { (machine : Machine) (chain : Chain) (version : ℕ)
        → HoldsChain machine.store chain → IsLast machine.store version → IsThere machine.store (Snapshot version)
        → (position : Position) × Step machine (order.Restore version) (reply.Restore position.tag version) (with_producer machine (Some (producer_at position version))) }
    ensures only { (machine next : Machine) (chain : Chain) (version : ℕ) (answer : Reply)
        → HoldsChain machine.store chain → IsLast machine.store version → IsThere machine.store (Snapshot version) → Step machine (order.Restore version) answer next
        → (state : ChainState) × (position : Position) × HasVersion chain version state × StandsAt state position × (answer ≡ reply.Restore state.tag version)
        × (next ≡ with_producer machine (Some (producer_at position version))) }
{}

/// Where the store holds a chain, no check of versions whose models agree with each other finds a difference: each state that a walk comes to is that of its
/// snapshot, as the model of the first version sees it.
pub fn chain_check_agrees()
    ensures { (machine next : Machine) (chain : Chain) (versions : List ℕ) (difference : Difference)
        → HoldsChain machine.store chain → ModelsAgreeAmong chain versions → Step machine (order.Check versions) (reply.Refused (Mismatch difference)) next → ⊥ }
{}

/// An index that is asked for, and not refused, stands behind the others, or the machine is as it was where it was kept already.
pub fn index_is_kept()
    ensures new { (machine next : Machine) (now : Position) (name : Name) (paths : Value) (index : Index) (keys : ℕ)
        → machine.consumer ≡ Some now → IsPosition now → AsksFor now.schemas name (texts_of_array (view paths)) index → (Contains now.indexes index → ⊥) → Step machine (order.Index name paths) (reply.Index keys) next
        → next ≡ with_consumer machine (Some (record now { indexes = now.indexes ++ index ∷ [] })) }
    ensures kept { (machine next : Machine) (now : Position) (name : Name) (paths : Value) (index : Index) (keys : ℕ)
        → machine.consumer ≡ Some now → IsPosition now → AsksFor now.schemas name (texts_of_array (view paths)) index → Contains now.indexes index → Step machine (order.Index name paths) (reply.Index keys) next
        → next ≡ machine }
{}

/// A walk index that is asked for, and not refused, stands behind the others, or the machine is as it was where it was kept already.
pub fn walk_is_kept()
    ensures new { (machine next : Machine) (now : Position) (name text : List ℕ) (path : WalkPath) (keys : ℕ)
        → machine.consumer ≡ Some now → IsPosition now → AsksForWalk now.schemas name text path → (Contains now.walks path → ⊥) → Step machine (order.WalkIndex name text) (reply.WalkIndex keys) next
        → next ≡ with_consumer machine (Some (record now { walks = now.walks ++ path ∷ [] })) }
    ensures kept { (machine next : Machine) (now : Position) (name text : List ℕ) (path : WalkPath) (keys : ℕ)
        → machine.consumer ≡ Some now → IsPosition now → AsksForWalk now.schemas name text path → Contains now.walks path → Step machine (order.WalkIndex name text) (reply.WalkIndex keys) next
        → next ≡ machine }
{}

/// A load of the state that the consumer has, where it has the state's own model, and behind it an order `index` for each of its indexes and an order `walkindex` for
/// each of its walk indexes, in their order, lead to the machine whose consumer has its state afresh, with the same indexes and walk indexes; and where the store
/// has the snapshot, none of these orders is refused.
pub fn fresh_indexes()
    ensures there { (machine : Machine) (chain : Chain) (version : ℕ) (state : ChainState) (now : Position)
        → HoldsChain machine.store chain → HasVersion chain version state → IsThere machine.store (Snapshot version) → machine.consumer ≡ Some now → now.tag ≡ state.tag → now.schemas ≡ state.model
        → IsConsumerOf chain machine.consumer
        → (loaded between next : Machine) × (asked : List (Name × List (List ℕ))) × (walked : List (Name × List ℕ))
        × Step machine (order.Load version) (reply.Load state.tag) loaded × AskForAll state.model asked now.indexes × AreAdded loaded asked between
        × AskForWalks state.model walked now.walks × AreWalksAdded between walked next × Fresh chain machine next }
    ensures all { (machine loaded between next : Machine) (chain : Chain) (version : ℕ) (state : ChainState) (now : Position) (answer : Reply)
        (asked : List (Name × List (List ℕ))) (walked : List (Name × List ℕ))
        → HoldsChain machine.store chain → HasVersion chain version state → IsThere machine.store (Snapshot version) → machine.consumer ≡ Some now → now.tag ≡ state.tag → now.schemas ≡ state.model
        → IsConsumerOf chain machine.consumer
        → AskForAll state.model asked now.indexes → AskForWalks state.model walked now.walks → Step machine (order.Load version) answer loaded → AreAdded loaded asked between
        → AreWalksAdded between walked next → Fresh chain machine next }
{}

/// What is answered of the consumer's state is answered at a state of the chain as where the consumer has this state afresh: the answers are those of
/// the consumer's model and of the rows that it sees of the state, whichever way the consumer took to them. So is a walk index that is asked for, and behind it the
/// consumer has its state afresh too.
pub fn fresh_answers()
    ensures kinds { IsOfState Kind.Get × IsOfState Kind.Find × IsOfState Kind.Live × IsOfState Kind.Row × IsOfState Kind.Has × IsOfState Kind.At × IsOfState Kind.WalkFind }
    ensures same { (machine fresh : Machine) (chain : Chain) (asked : Order) (answer : Reply) → IsOfState (kind_of asked)
        → HoldsChain machine.store chain → IsConsumerOf chain machine.consumer → Fresh chain machine fresh
        → Step machine asked answer machine ↔ Step fresh asked answer fresh }
    ensures walked { (machine fresh : Machine) (chain : Chain) (name path : List ℕ) (answer : Reply)
        → HoldsChain machine.store chain → IsConsumerOf chain machine.consumer → Fresh chain machine fresh
        → ((next : Machine) × Step machine (order.WalkIndex name path) answer next) ↔ ((after : Machine) × Step fresh (order.WalkIndex name path) answer after) }
    ensures still { (machine fresh next : Machine) (chain : Chain) (name path : List ℕ) (answer : Reply)
        → HoldsChain machine.store chain → IsConsumerOf chain machine.consumer → Fresh chain machine fresh → Step machine (order.WalkIndex name path) answer next
        → (after : Machine) × Step fresh (order.WalkIndex name path) answer after × Fresh chain next after }
{}

/// An order has one answer line, and leaves one machine, where the rows of the producer are those of a state of the chain that the store keeps, and
/// those of the consumer are of a model, as they are wherever its blobs came from.
pub fn one_answer()
    ensures { (machine next after : Machine) (chain : Chain) (asked : Order) (answer other : Reply)
        → KeepsChain machine.store chain → IsProducerOf chain machine.producer → IfSome machine.consumer IsPosition
        → Step machine asked answer next → Step machine asked other after → SaysOne answer other × (next ≡ after) }
{
    blob_writing::laws::one_written_snapshot();
    blob_writing::laws::one_written_delta();
}

/// What is asked of a consumer has one answer line. Where it is a key, or a key of a map, the rows are those of a model, as they are wherever
/// its blobs came from.
pub fn one_look()
    ensures live { (machine next after : Machine) (name : List ℕ) (answer other : Reply)
        → Step machine (order.Live name) answer next → Step machine (order.Live name) other after → SaysOne answer other × (next ≡ after) }
    ensures row { (machine next after : Machine) (name : List ℕ) (ordinal : ℕ) (answer other : Reply)
        → Step machine (order.Row name ordinal) answer next → Step machine (order.Row name ordinal) other after → SaysOne answer other × (next ≡ after) }
    ensures has { (machine next after : Machine) (name : List ℕ) (ordinal element : ℕ) (answer other : Reply)
        → Step machine (order.Has name ordinal element) answer next → Step machine (order.Has name ordinal element) other after → SaysOne answer other × (next ≡ after) }
    ensures at { (machine next after : Machine) (name : List ℕ) (ordinal key : ℕ) (answer other : Reply) → IfSome machine.consumer IsPosition
        → Step machine (order.At name ordinal key) answer next → Step machine (order.At name ordinal key) other after → SaysOne answer other × (next ≡ after) }
    ensures get { (machine next after : Machine) (name : List ℕ) (values : Value) (answer other : Reply) → IfSome machine.consumer IsPosition
        → Step machine (order.Get name values) answer next → Step machine (order.Get name values) other after → SaysOne answer other × (next ≡ after) }
    ensures find { (machine next after : Machine) (name : List ℕ) (paths values : Value) (answer other : Reply) → IfSome machine.consumer IsPosition
        → Step machine (order.Find name paths values) answer next → Step machine (order.Find name paths values) other after → SaysOne answer other × (next ≡ after) }
    ensures walkfind { (machine next after : Machine) (name path : List ℕ) (value : Value) (answer other : Reply) → IfSome machine.consumer IsPosition
        → Step machine (order.WalkFind name path value) answer next → Step machine (order.WalkFind name path value) other after → SaysOne answer other × (next ≡ after) }
    ensures past { (machine next after : Machine) (name : List ℕ) (answer other : Reply)
        → Step machine (order.Past name) answer next → Step machine (order.Past name) other after → SaysOne answer other × (next ≡ after) }
{}

/// A load, a step and a walk along the shortest list of blobs have one answer line and leave one machine. So it is whichever blobs the store has: of a step and
/// a walk where the consumer's rows are those of a model, as they are wherever its blobs came from.
pub fn one_move()
    ensures load { (machine next after : Machine) (version : ℕ) (answer other : Reply)
        → Step machine (order.Load version) answer next → Step machine (order.Load version) other after → SaysOne answer other × (next ≡ after) }
    ensures step { (machine next after : Machine) (from to : ℕ) (answer other : Reply) → IfSome machine.consumer IsPosition
        → Step machine (order.Step from to) answer next → Step machine (order.Step from to) other after → SaysOne answer other × (next ≡ after) }
    ensures goto { (machine next after : Machine) (version : ℕ) (answer other : Reply) → IfSome machine.consumer IsPosition
        → Step machine (order.Goto version) answer next → Step machine (order.Goto version) other after → SaysOne answer other × (next ≡ after) }
{}

/// The order `plan` has one answer: of the shortest lists of blobs that lead to a version one is the first.
pub fn one_plan()
    ensures { (machine next after : Machine) (version : ℕ) (answer other : Reply)
        → Step machine (order.Plan version) answer next → Step machine (order.Plan version) other after → (answer ≡ other) × (next ≡ after) }
{}

/// What is asked of an older state of a consumer has one answer line, where the consumer's model is one, as it is wherever its blobs came from.
pub fn one_old_look()
    ensures was { (machine next after : Machine) (version : ℕ) (name : List ℕ) (ordinal : ℕ) (answer other : Reply) → IfSome machine.consumer IsPosition
        → Step machine (order.Was version name ordinal) answer next → Step machine (order.Was version name ordinal) other after → SaysOne answer other × (next ≡ after) }
    ensures wasget { (machine next after : Machine) (version : ℕ) (name : List ℕ) (values : Value) (answer other : Reply) → IfSome machine.consumer IsPosition
        → Step machine (order.WasGet version name values) answer next → Step machine (order.WasGet version name values) other after → SaysOne answer other × (next ≡ after) }
{}

/// The order `index` has one answer line and leaves one machine, where the consumer's rows are those of a model.
pub fn one_index()
    ensures { (machine next after : Machine) (name : List ℕ) (paths : Value) (answer other : Reply) → IfSome machine.consumer IsPosition
        → Step machine (order.Index name paths) answer next → Step machine (order.Index name paths) other after → SaysOne answer other × (next ≡ after) }
{}

/// The order `walkindex` has one answer line and leaves one machine, where the consumer's rows are those of a model.
pub fn one_walkindex()
    ensures { (machine next after : Machine) (name path : List ℕ) (answer other : Reply) → IfSome machine.consumer IsPosition
        → Step machine (order.WalkIndex name path) answer next → Step machine (order.WalkIndex name path) other after → SaysOne answer other × (next ≡ after) }
{}

/// Over a store that keeps a chain, with a producer of it, a cycle has one answer and leaves one machine: there is one next state, and it is written
/// in one way.
pub fn one_cycle()
    ensures { (machine next after : Machine) (chain : Chain) (asked : NextState) (answer other : Reply)
        → KeepsChain machine.store chain → IsProducerOf chain machine.producer
        → Step machine (order.Cycle asked) answer next → Step machine (order.Cycle asked) other after → (answer ≡ other) × (next ≡ after) }
{
    blob_writing::laws::one_written_snapshot();
    blob_writing::laws::one_written_delta();
}

/// So has a change, and leaves one machine: why it is none of the last state is told in one way, and its edited list is one.
pub fn one_change()
    ensures { (machine next after : Machine) (chain : Chain) (asked : StateChange) (answer other : Reply)
        → KeepsChain machine.store chain → IsProducerOf chain machine.producer
        → Step machine (order.Change asked) answer next → Step machine (order.Change asked) other after → (answer ≡ other) × (next ≡ after) }
{
    blob_writing::laws::one_written_snapshot();
    blob_writing::laws::one_written_delta();
}

/// The order `model` has one answer, and leaves one machine.
pub fn one_model()
    ensures { (machine next after : Machine) (schemas : Value) (answer other : Reply)
        → Step machine (order.Model schemas) answer next → Step machine (order.Model schemas) other after → (answer ≡ other) × (next ≡ after) }
{}

/// The order `grow` has one answer, and leaves one machine.
pub fn one_grow()
    ensures { (machine next after : Machine) (schemas : Value) (answer other : Reply)
        → Step machine (order.Grow schemas) answer next → Step machine (order.Grow schemas) other after → (answer ≡ other) × (next ≡ after) }
{}

/// The command `make` has one answer, and leaves one machine, whichever blobs the store has.
pub fn one_make()
    ensures { (store : Store) (next after : Machine) (seed rows cycles : ℕ) (answer other : Reply)
        → Makes store seed rows cycles answer next → Makes store seed rows cycles other after → (answer ≡ other) × (next ≡ after) }
{
    blob_writing::laws::one_written_snapshot();
    blob_writing::laws::one_written_delta();
    film_script::laws::films_model();
}

/// The command `make` is a script of orders: the order `model` with the JSON of its schemas leaves the machine that it starts from; the JSON of the films
/// of a cycle is read as the trees that it adds; and the order `cycle` with them is answered as that cycle is, where the producer has these schemas.
pub fn make_is_orders()
    ensures model { (store : Store) (schemas : Value) → view schemas ≡ script_model → Step (started store) (order.Model schemas) (reply.Model 3) (film_machine store) }
    ensures films { (seed rows cycle : ℕ) → rows ≤ 2 ^ 31 → SpellsTrees film_schemas (films_data seed rows cycle) (films seed rows cycle) }
    ensures cycles { (machine next : Machine) (seed rows cycle : ℕ) (asked : NextState) (answer : Reply)
        → rows ≤ 2 ^ 31 → IfSome machine.producer (λ last. last.model ≡ film_schemas) → asked_state asked ≡ script_state seed rows cycle
        → Step machine (order.Cycle asked) answer next ↔ CycleStep machine (film_cycle seed rows cycle) answer next }
{
    film_script::laws::films_model();
}

/// A script has one text and one verdict, and leaves one machine: that of a run over each store, and lines behind others over a store that keeps a
/// chain.
pub fn one_script()
    ensures run { (store : Store) (next after : Machine) (lines : List (List ℕ)) (text other : List ℕ) (refused also : Bool)
        → Script (started store) lines text refused next → Script (started store) lines other also after → (text ≡ other) × (refused ≡ also) × (next ≡ after) }
    ensures lines { (machine next after : Machine) (lines : List (List ℕ)) (text other : List ℕ) (refused also : Bool) (chain : Chain)
        → KeepsChain machine.store chain → IsProducerOf chain machine.producer → IsConsumerOf chain machine.consumer
        → Script machine lines text refused next → Script machine lines other also after → (text ≡ other) × (refused ≡ also) × (next ≡ after) }
{
    blob_writing::laws::one_written_snapshot();
    blob_writing::laws::one_written_delta();
    hol_orders::laws::one_order();
}

/// The headline: over a store of bytes that holds a chain, each line of a script is answered as is promised. A state that a cycle publishes follows in
/// the chain; behind each line the consumer sees a state of it through its own model, that of the version to which its last load or step led; what `live`, `row`,
/// `has`, `at`, `get`, `find`, `walkindex` and `walkfind` answer is what that state answers seen so afresh, with the same indexes and walk indexes; a step along a blob of the store is taken where it starts
/// at the consumer's tag and agrees with its model, and else refused for its origin, or for the first type that does not agree, and then nothing changes; going to
/// a version applies all blobs of the shortest list, where the models of the chain agree, and comes to the version's state; and what `was` and `wasget` answer of
/// a version that is kept is what `row` and `get` answer where its state is seen.
pub fn true_script()
    ensures { (store : Store) (next : Machine) (lines : List (List ℕ)) (text : List ℕ) (refused : Bool) (chain : Chain)
        → Script (started store) lines text refused next → HoldsChain store chain → HoldsBytes store
        → (after : Chain) × AreTrueLines chain (started store) lines text next after × StandsOn after next }
{}
