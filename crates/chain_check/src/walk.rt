//! What walks along a chain.
ghost use Rattle.std.specs.Prelude.{◌≡◌, ◌≢◌, ◌≤◌, ℕ, ℤ, Option, Some, Result, Ok, IfErr, IsTrue, OnOk};
ghost use Rattle.hol_io.specs.Causes.{Rose};
ghost use Rattle.hol_io.specs.Store.{Store};
ghost use Rattle.row_model.specs.Table.{row_at};

use column_rows::ColumnRows;
use hol_io::BlobStore;

/// A state that is loaded from the snapshot of a version, and led from version to version by deltas and reverse deltas.
///
/// What its calls answer is told by relations that each implementation names: of what the store tells that it holds, of the walker before and
/// after the call, and of the answer.
pub trait Walk: ColumnRows {
    /// Why a load or a step is refused.
    type Fault;

    // The tag of its state.
    ghost tag: { Self → ℤ };

    // A load of it was answered Ok.
    ghost is_loaded: { Self → Type 0 };

    // What a load of a version answers.
    ghost loads: { Option Store → ℕ → Self → Self → Result (Unit {0}) Self.Fault → Type 0 };

    // What a step from a version to another one answers.
    ghost steps: { Option Store → ℕ → ℕ → Self → Self → Result (Unit {0}) Self.Fault → Type 0 };

    // The faults that come only where the store's count of faults rose.
    ghost is_failure: { Self.Fault → Type 0 };

    /// Loads the state of the snapshot of a version.
    fn walk_load<S: BlobStore>(&mut self, store: &mut S, version: u64) -> Result<(), Self::Fault>
        ensures loads { loads (S.seen store.old).held version self.old self.new result }
        ensures loaded { OnOk result (is_loaded self.new) }
        ensures still { is_loaded self.old → is_loaded self.new }
        ensures cause { IfErr result (λ fault. is_failure fault → Rose (S.seen store.old).faults (S.seen store.new).faults) }
        ensures kept { (S.seen store.new).held ≡ (S.seen store.old).held }
        ensures later { (S.seen store.old).faults ≤ (S.seen store.new).faults }
        ensures unput { (S.seen store.new).puts ≡ (S.seen store.old).puts };

    /// Leads the state from the version that it is of to another one, by the delta to a later version or the reverse delta to an earlier one.
    fn walk_step<S: BlobStore>(
        &mut self,
        store: &mut S,
        from: u64,
        to: u64,
    ) -> Result<(), Self::Fault>
        requires loaded { is_loaded self.old }
        requires apart { from ≢ to }
        ensures steps { steps (S.seen store.old).held from to self.old self.new result }
        ensures still { is_loaded self.new }
        ensures cause { IfErr result (λ fault. is_failure fault → Rose (S.seen store.old).faults (S.seen store.new).faults) }
        ensures kept { (S.seen store.new).held ≡ (S.seen store.old).held }
        ensures later { (S.seen store.old).faults ≤ (S.seen store.new).faults }
        ensures unput { (S.seen store.new).puts ≡ (S.seen store.old).puts };

    /// The tag of its state.
    fn walk_tag(&self) -> i64
        ensures { result ≡ tag self.now };

    /// Whether all rows of a type are seen to be the same as those of another state of the same model, with none of them looked at by itself. It
    /// answers true only where they are the same, and may answer false of any type.
    fn has_same_rows(&self, other: &Self, type_index: u32) -> bool
        requires { Self.schemas self.now ≡ Self.schemas other.now }
        ensures { IsTrue result → (ordinal : ℕ) → row_at (Self.table self.now) type_index ordinal ≡ row_at (Self.table other.now) type_index ordinal };

    // Loads of a version lead to one state, where the store tells what it holds.
    ghost one_load: { (store : Store) (version : ℕ) (a b a' b' : Self) → loads (Some store) version a a' (Ok tt) → loads (Some store) version b b' (Ok tt) → a' ≡ b' };

    // Steps from one state lead to one state, where the store tells what it holds.
    ghost one_step: { (store : Store) (from to : ℕ) (a a' b' : Self) → steps (Some store) from to a a' (Ok tt) → steps (Some store) from to a b' (Ok tt) → a' ≡ b' };
}
