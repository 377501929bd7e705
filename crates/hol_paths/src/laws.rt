//! Laws of what rows reach.
ghost use Rattle.std.specs.Prelude.{◌↔◌, ℕ, List};
ghost use Rattle.schema_model.specs.declared.model.walk_path.WalkPart.{WalkPart};
ghost use Rattle.schema_model.specs.declared.schema.Schema.{Schema};
ghost use Rattle.row_model.specs.declared.row.Value.{Value};
ghost use Rattle.row_model.specs.Reach.{AreEntries, Reach};
ghost use Rattle.row_model.specs.Table.{IsClosed, IsLive, IsTableOf, Table};
ghost use Rattle.key_index.specs.Indexed.{HaveOneRow};
ghost use Rattle.hol_paths.specs.Walked.{AreAdded, Entry, FollowsWalk, IsStepOf, IsTurned};

/// A row that stays from one state to another that agrees with it reaches the same values in both: each row that it names stays too.
pub fn kept_reach()
    ensures { (schemas : List Schema) (old new : Table) (type_index ordinal : ℕ) (parts : List WalkPart) (value : Value)
        → IsTableOf schemas old → IsTableOf schemas new → IsClosed schemas old → IsClosed schemas new → HaveOneRow old new
        → IsLive old type_index ordinal → IsLive new type_index ordinal
        → Reach schemas old type_index parts ordinal value ↔ Reach schemas new type_index parts ordinal value }
{}

/// A step between two states that agree gives what an index over the first one asks to be reserved for the second.
pub fn step_followed()
    ensures { (schemas : List Schema) (old new : Table) (type_index : ℕ) (parts : List WalkPart) (entries : List Entry) (removed added : List ℕ)
        → IsTableOf schemas old → IsTableOf schemas new → IsClosed schemas old → IsClosed schemas new → HaveOneRow old new
        → IsStepOf old new type_index removed added → AreEntries schemas old type_index parts entries
        → FollowsWalk entries schemas new type_index parts removed added }
{}

/// The entries that are kept and those that come are the entries of the next state.
pub fn turned_entries()
    ensures { (schemas : List Schema) (table : Table) (type_index : ℕ) (parts : List WalkPart) (entries came turned : List Entry) (removed added : List ℕ)
        → FollowsWalk entries schemas table type_index parts removed added → AreAdded schemas table type_index parts added came
        → IsTurned entries removed came turned → AreEntries schemas table type_index parts turned }
{}
