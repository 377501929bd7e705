//! Laws of the definitions.
ghost use Rattle.std.specs.Prelude.{ℕ, List, ◌≡◌, ◌++◌, ◌∷◌, [], Some, None, length};
ghost use Rattle.std.specs.FinMap.{get};
ghost use Rattle.row_model.specs.declared.row.Row.{Row};
ghost use Rattle.schema_model.specs.declared.schema.Schema.{Schema};
ghost use Rattle.row_model.specs.PlainTree.{PlainTree};
ghost use Rattle.row_model.specs.Table.{Table};
ghost use Rattle.row_packing.specs.States.{AreWritable};
ghost use Rattle.write_engine.specs.Agreement.{HoldsOnce, TablesAgree};
ghost use Rattle.write_engine.specs.Soundness.{IsClosedTableOf};
ghost use Rattle.write_engine.specs.Cycle.{Adds, AddsRecords, Next, no_rows, rows_in};
ghost use Rattle.write_engine.specs.CycleLimit.{TellsTypes};
ghost use Rattle.write_engine.specs.Production.{AreChanged};

/// A record more is added to what the records before it have made.
pub fn one_record_more()
    ensures { (schemas : List Schema) (previous : Table) (records : List (ℕ × PlainTree)) (before middle after : Table) (type_index : ℕ) (tree : PlainTree) (ordinal : ℕ) → AddsRecords schemas previous records before middle → Adds schemas previous type_index tree middle ordinal after → AddsRecords schemas previous (records ++ (type_index, tree) ∷ []) before after }
{}

/// Each step of a cycle keeps the two tables in agreement.
pub fn added_in_agreement()
    ensures tree { (schemas : List Schema) (previous before after : Table) (type_index : ℕ) (tree : PlainTree) (ordinal : ℕ) → Adds schemas previous type_index tree before ordinal after → TablesAgree previous before → TablesAgree previous after }
    ensures start { (previous : Table) (count : ℕ) → HoldsOnce previous → TablesAgree previous (no_rows count) }
{}

/// Where the previous state holds no row twice, neither does the next one; a row that is added again keeps its ordinal; and no ordinal of the
/// previous state has another row in the next one.
pub fn next_state()
    ensures once { (schemas : List Schema) (previous next : Table) (records : List (ℕ × PlainTree)) → HoldsOnce previous → Next schemas previous records next → HoldsOnce next }
    ensures kept { (schemas : List Schema) (previous next : Table) (records : List (ℕ × PlainTree)) (type_index first second : ℕ) (row : Row) → HoldsOnce previous → Next schemas previous records next → get (rows_in previous type_index) first ≡ Some row → get (rows_in next type_index) second ≡ Some row → first ≡ second }
    ensures same { (schemas : List Schema) (previous next : Table) (records : List (ℕ × PlainTree)) (type_index ordinal : ℕ) (first second : Row) → HoldsOnce previous → Next schemas previous records next → get (rows_in previous type_index) ordinal ≡ Some first → get (rows_in next type_index) ordinal ≡ Some second → first ≡ second }
{}

/// The next state is closed, and its rows fit the types and are in range.
pub fn next_is_closed()
    ensures { (schemas : List Schema) (previous next : Table) (records : List (ℕ × PlainTree)) → Next schemas previous records next → IsClosedTableOf schemas next }
{}

/// A tree is added in one way, and records make one next state.
pub fn one_next_state()
    ensures tree { (schemas : List Schema) (previous before after other : Table) (type_index : ℕ) (tree : PlainTree) (ordinal another : ℕ) → TablesAgree previous before → Adds schemas previous type_index tree before ordinal after → Adds schemas previous type_index tree before another other → (ordinal ≡ another) × (after ≡ other) }
    ensures state { (schemas : List Schema) (previous next other : Table) (records : List (ℕ × PlainTree)) → HoldsOnce previous → Next schemas previous records next → Next schemas previous records other → next ≡ other }
{}

/// Two states that agree, and of which each type keeps its limits, can be written, in either direction.
pub fn can_be_written()
    ensures forth { (schemas : List Schema) (previous current : Table) → TablesAgree previous current → TellsTypes schemas previous current None → AreWritable schemas previous current }
    ensures back { (schemas : List Schema) (previous current : Table) → TablesAgree previous current → TellsTypes schemas previous current None → AreWritable schemas current previous }
{}

/// A cycle that changes no type makes the previous state again.
pub fn unchanged_is_the_same()
    ensures { (schemas : List Schema) (previous current : Table) → length previous ≡ length schemas → length current ≡ length schemas → AreChanged previous current [] → current ≡ previous }
{}
