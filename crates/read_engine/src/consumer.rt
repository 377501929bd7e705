//! A consumer: at first it has no state; a load gives it one, and steps move it.
ghost use Rattle.std.specs.Prelude.{◌≡◌, ◌≢◌, ◌≤◌, ◌<◌, ◌↔◌, ◌⊎◌, Contains, Err, IfErr, IfSome, IsSome, IsSomeAnd, IsTrue, MatchOption, None, OnErr, OnOk, length, map};
ghost use Rattle.std.specs.FinMap.{keys, values};
ghost use Rattle.std.specs.Option.{option_map};
ghost use Rattle.hol_io.specs.declared.name.BlobName.TheVariants.{Snapshot};
ghost use Rattle.hol_io.specs.Causes.{Rose};
ghost use Rattle.hol_io.specs.Name.{IsStepName};
ghost use Rattle.hol_io.specs.Store.{told};
ghost use Rattle.row_model.specs.Table.{row_at};
ghost use Rattle.bucket_codec.specs.Run.{FindsIn};
ghost use Rattle.type_state.specs.Lookup.{elements_of, pairs_of};
ghost use Rattle.type_state.specs.Views.{table_of};
ghost use Rattle.type_state.specs.WordsHeld.{words_held};
ghost use Rattle.type_rows.specs.WordsHeld.{bytes_held};
ghost use Rattle.snapshot_blob.specs.Snapshot.{IsSnapshotFault};
ghost use Rattle.state_moves.specs.Halves.{current_halves};
ghost use Rattle.read_engine.specs.Gone.{AreGone, HasLeft};
ghost use Rattle.read_engine.specs.Indexes.{CountsStep};
ghost use Rattle.read_engine.specs.Position.{IsOfType, IsPosition, Position, rows_now};
ghost use Rattle.read_engine.specs.Taking.{CountsPart, FollowsFrom, IsStepFault, LoadsExactly, StepsExactly, TellsLoad, TellsStep};
ghost use Rattle.read_engine.specs.Walking.{schemas_at, table_at, tag_at};

use crate::indexes::KeyIndexes;
use crate::laws;
use crate::load::load;
use crate::step::step;
use crate::walks::WalkIndexes;
use blob_frame::BlobFault;
use hol_io::{BlobName, BlobStore, Steps};
use hol_varint::Ordinals;
use schema_model::Model;
use state_moves::{Before, Left, Now, PastParts, before_of, now_of};
use std::alloc::Global;
use std::sync::ledger::Ledger;
use type_state::{TypeState, TypeStates};

/// A consumer of the blobs of a store.
#[derive(Drop)]
pub struct Consumer {
    pub(crate) alloc: Global,
    // The tag of its state, none where it has no state: then it has no types and no indexes of either kind.
    pub(crate) tag: Option<i64>,
    // The model of its state.
    pub(crate) model: Model,
    // The types of the model, each with its rows in its current half.
    pub(crate) states: TypeStates,
    // What the last step changed of each type.
    pub(crate) past: PastParts,
    // The indexes that are kept of its rows.
    pub(crate) indexes: KeyIndexes,
    // The walk indexes that are kept of its rows.
    pub(crate) walks: WalkIndexes,
}

impl std::marker::Model for Consumer {
    ghost use Rattle.std.specs.Prelude.{Option};
    ghost use Rattle.std.specs.Coded.{coded_option};
    ghost use Rattle.read_engine.specs.Position.{Position, position_code};
    ghost use Rattle.read_engine.specs.Standing.{HasParts, stands_at};

    ghost Value = { Option Position };

    ghost coded = { coded_option position_code };

    ghost view = { λ c. stands_at c.tag c.model c.states c.past c.indexes c.walks };

    ghost invariant = { λ c. HasParts c.tag c.model c.states c.past c.indexes c.walks };
}

impl Consumer {
    /// A consumer that has no state. It takes no memory.
    pub fn new(alloc: Global) -> Consumer
        ensures { result ≡ None }
    {
        Consumer {
            alloc,
            tag: None,
            model: Model::none(alloc),
            states: TypeStates::new(alloc),
            past: PastParts::new(alloc),
            indexes: KeyIndexes::new(alloc),
            walks: WalkIndexes::new(alloc),
        }
    }

    /// What the consumer takes memory from.
    pub fn allocator(&self) -> Global {
        self.alloc
    }

    /// Loads the state of the snapshot of a version, in place of the state that it has; the rows before it are the same, and no index nor walk index is kept.
    ///
    /// `NoBlob` comes exactly where the store has no such name, and any other fault exactly where it is that of the first thing which fails of
    /// what is tried of the blob: its length (`Large` with `Blob`), its items, its schemas, and type by type the limits on ordinals and items
    /// (`Large`), the rows (`BadRow`, or `Large` with `Words` or `Bytes`), and at last whether they are closed (`BadRow`). But `Memory` may come
    /// in place of any answer, and `Store` comes only where the store's count of faults rose. After a fault everything is as before.
    pub fn load<S: BlobStore>(&mut self, store: &mut S, version: u64) -> Result<(), BlobFault>
        ensures tells { IfSome (S.seen store.old).held (λ held. TellsLoad (Snapshot version) (told (S.seen store.old).held (Snapshot version)) self.new result) }
        ensures exact { IfSome (S.seen store.old).held (λ held. LoadsExactly (Snapshot version) (told (S.seen store.old).held (Snapshot version)) self.new result) }
        ensures kind { IfErr result (IsSnapshotFault (Snapshot version)) }
        ensures state { OnOk result (IsSome self.new) }
        ensures refused { OnErr result (self.new ≡ self.old) }
        ensures cause { result ≡ Err (BlobFault.Store) → Rose (S.seen store.old).faults (S.seen store.new).faults }
        ensures kept { (S.seen store.new).held ≡ (S.seen store.old).held }
        ensures later { (S.seen store.old).faults ≤ (S.seen store.new).faults }
        ensures unput { (S.seen store.new).puts ≡ (S.seen store.old).puts }
    {
        laws::one_loaded_position();
        let loaded = load(self.alloc, store, version)?;
        *self = loaded;
        Ok(())
    }

    /// Moves its state by the delta or the reverse delta of a name; the rows before it are then those that it had.
    ///
    /// `NoBlob` comes exactly where the store has no such name, and any other fault exactly where it is that of the first thing which fails of
    /// what is tried of the blob: its length (`Large` with `Blob`), its header (`Bad`), the tag that it starts from (`OtherOrigin`), its items and
    /// that no name stands twice (`Bad`), type by type that it agrees with the model (`OtherModel`), then the limits on ordinals and items
    /// (`Large`), then that it moves the rows (`BadRow`, or `Large` with `Words` or `Bytes`), and at last whether the rows are closed (`BadRow`).
    /// But `Memory` may come in place of any answer, and `Store` comes only where the store's count of faults rose. After a fault everything is
    /// as before, the rows before the last step too.
    ///
    /// The indexes and walk indexes stay, and answer of the new rows, but for those walk indexes that would have more than 2^22 entries: these are dropped. A
    /// step is counted for each ordinal that comes in the type of each index and walk index that stays, and at most as many for one that is dropped. Where
    /// memory is refused no more are, and only where the blob moves the state; after another fault none is.
    pub fn step<S: BlobStore, L: Ledger>(
        &mut self,
        store: &mut S,
        name: &BlobName,
        steps: &mut Steps<L>,
    ) -> Result<(), BlobFault>
        requires standing { IsSome self.old }
        requires named { IsStepName name.now }
        ensures tells { IfSome (S.seen store.old).held
            (λ held. IfSome self.old (λ from. TellsStep name.now (told (S.seen store.old).held name.now) from self.new result)) }
        ensures exact { IfSome (S.seen store.old).held
            (λ held. IfSome self.old (λ from. StepsExactly name.now (told (S.seen store.old).held name.now) from self.new result)) }
        ensures follows { OnOk result (IfSome self.old (λ from. IsSomeAnd self.new (FollowsFrom from))) }
        ensures kind { IfErr result (λ fault. IfSome self.old (λ from. IsStepFault name.now from.tag fault)) }
        ensures state { IsSome self.new }
        ensures refused { OnErr result (self.new ≡ self.old) }
        ensures cause { result ≡ Err (BlobFault.Store) → Rose (S.seen store.old).faults (S.seen store.new).faults }
        ensures kept { (S.seen store.new).held ≡ (S.seen store.old).held }
        ensures later { (S.seen store.old).faults ≤ (S.seen store.new).faults }
        ensures unput { (S.seen store.new).puts ≡ (S.seen store.old).puts }
        ensures counted { OnOk result (IfSome self.old (λ from. IsSomeAnd self.new (λ to. CountsStep from to steps.old steps.new))) }
        ensures uncounted { IfErr result (λ fault. fault ≢ BlobFault.Memory → steps.new ≡ steps.old) }
        ensures part { OnErr result (IfSome (S.seen store.old).held
            (λ held. IfSome self.old (λ from. (steps.new ≡ steps.old) ⊎ CountsPart (told (S.seen store.old).held name.now) from steps.old steps.new))) }
    {
        step(self, store, name, steps)
    }

    /// The tag of its state; `None` where it has no state.
    pub fn tag(&self) -> Option<i64>
        ensures { result ≡ option_map (λ position. position.tag) self.now }
    {
        self.tag
    }

    /// The model of its state; `None` where it has no state.
    pub fn model(&self) -> Option<&Model>
        ensures { MatchOption result (self.now ≡ None) (λ model. IsSomeAnd self.now (λ position. position.schemas ≡ model.now)) }
    {
        match self.tag {
            Some(_) => Some(&self.model),
            None => None,
        }
    }

    /// The rows of its state, where it has one.
    pub fn now(&self) -> Now<'_>
        requires { IsSome self.now }
        ensures schemas { IsSomeAnd self.now (λ position. position.schemas ≡ result.schemas) }
        ensures table { IsSomeAnd self.now (λ position. rows_now position ≡ result.table) }
        ensures position { IsSomeAnd self.now IsPosition }
    {
        now_of(self.types(), self.states())
    }

    /// The rows before its last step; after a load those of its state.
    pub fn before(&self) -> Before<'_>
        requires { IsSome self.now }
        ensures schemas { IsSomeAnd self.now (λ position. position.schemas ≡ result.schemas) }
        ensures table { IsSomeAnd self.now (λ position. position.before ≡ result.table) }
        ensures position { IsSomeAnd self.now IsPosition }
    {
        let states = self.states.as_slice();
        let past = self.past.as_slice();
        before_of(&self.model, states, past)
    }

    /// What its last step changed of each type; nothing after a load.
    pub fn left(&self) -> Left<'_>
        requires { IsSome self.now }
        ensures { IsSomeAnd self.now (HasLeft result.parts.now) }
    {
        Left {
            parts: self.past.as_slice(),
        }
    }

    /// The ordinals of a type that left in its last step, rising.
    pub fn gone(&self, type_index: u32) -> &Ordinals
        requires { IsSomeAnd self.now (λ position. type_index < length position.schemas) }
        ensures { IsSomeAnd self.now (λ position. AreGone position type_index result.now) }
    {
        self.past.get(type_index as usize).gone()
    }

    /// Whether a type has a set with the element under the ordinal. It takes no memory.
    pub fn has(&self, type_index: u32, ordinal: u32, element: u32) -> bool
        requires { IsSomeAnd self.now (λ position. type_index < length position.schemas) }
        ensures { IsSomeAnd self.now (λ position. IsTrue result ↔ Contains (elements_of (row_at (rows_now position) type_index ordinal)) element) }
    {
        self.states.get(type_index as usize).has(ordinal, element)
    }

    /// The value beside the key in the map that a type has under the ordinal; none where it has no map there, or one without the key. It takes
    /// no memory.
    pub fn at(&self, type_index: u32, ordinal: u32, key: u32) -> Option<u32>
        requires { IsSomeAnd self.now (λ position. type_index < length position.schemas) }
        ensures { IsSomeAnd self.now (λ position. FindsIn (pairs_of (row_at (rows_now position) type_index ordinal)) key result) }
    {
        self.states.get(type_index as usize).at(ordinal, key)
    }

    /// How many rows of a type are live.
    pub fn live_count(&self, type_index: u32) -> u64
        requires { IsSomeAnd self.now (λ position. type_index < length position.schemas) }
        ensures { IsSomeAnd self.now (λ position. IsOfType position type_index (λ schema half. result ≡ length (keys half.rows))) }
    {
        self.states.get(type_index as usize).live_count()
    }

    /// How many words the rows of a type take where they stand.
    pub fn words_held(&self, type_index: u32) -> u64
        requires { IsSomeAnd self.now (λ position. type_index < length position.schemas) }
        ensures { IsSomeAnd self.now (λ position. IsOfType position type_index (λ schema half. result ≡ words_held schema.shape half)) }
    {
        self.states.get(type_index as usize).words_held()
    }

    /// How many bytes of STRING and BYTES fields the rows of a type have.
    pub fn bytes_held(&self, type_index: u32) -> u64
        requires { IsSomeAnd self.now (λ position. type_index < length position.schemas) }
        ensures { IsSomeAnd self.now (λ position. IsOfType position type_index (λ schema half. result ≡ bytes_held (values half.rows))) }
    {
        self.states.get(type_index as usize).bytes_held()
    }

    /// The greatest ordinal of a type that has a place, by the last blob that named the type; none where there is no place.
    pub fn max(&self, type_index: u32) -> Option<u32>
        requires { IsSomeAnd self.now (λ position. type_index < length position.schemas) }
        ensures { IsSomeAnd self.now (λ position. IsOfType position type_index (λ schema half. result ≡ half.layout.max)) }
    {
        self.states.get(type_index as usize).max()
    }

    /// The tag of its state, 0 where it has no state.
    pub(crate) fn tag_or_zero(&self) -> i64
        ensures { result ≡ tag_at self.now }
    {
        // Nothing else is kept: a further field would have to be named here.
        let Consumer {
            alloc: _,
            tag,
            model: _,
            states: _,
            past: _,
            indexes: _,
            walks: _,
        } = self;
        tag.unwrap_or(0)
    }

    /// The types of its state, none where it has no state.
    pub(crate) fn types(&self) -> &Model
        ensures schemas { result.now ≡ schemas_at self.now }
        ensures position { IfSome self.now IsPosition }
    {
        &self.model
    }

    /// What is kept of each of these types, in model order: its rows in its current half.
    pub(crate) fn states(&self) -> &[TypeState]
        ensures table { table_of (current_halves result.now) ≡ table_at self.now }
        ensures schemas { map (λ state. state.schema) result.now ≡ schemas_at self.now }
    {
        self.states.as_slice()
    }
}
