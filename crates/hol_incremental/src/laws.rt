//! Laws of the definitions.
ghost use Rattle.std.specs.Prelude.{ℕ, List, ◌≡◌, ◌<◌, ◌↔◌, ◌⊎◌, All, Contains, length};
ghost use Rattle.schema_model.specs.Model.{IsModel};
ghost use Rattle.schema_model.specs.declared.schema.Schema.{Schema};
ghost use Rattle.row_model.specs.PlainTree.{PlainTree};
ghost use Rattle.row_model.specs.Table.{IsLive, Table};
ghost use Rattle.row_model.specs.Unfold.{unfold_row};
ghost use Rattle.record_trees.specs.FitsTree.{FitsTree};
ghost use Rattle.write_engine.specs.Agreement.{HoldsOnce, TablesAgree};
ghost use Rattle.write_engine.specs.Cycle.{Adds};
ghost use Rattle.write_engine.specs.RowDrops.{IsNamed};
ghost use Rattle.write_engine.specs.Soundness.{IsClosedTableOf};
ghost use Rattle.write_engine.specs.StoredRows.{AreStored};
ghost use Rattle.hol_incremental.specs.Beside.{SameBeside};
ghost use Rattle.hol_incremental.specs.Counts.{times_named};
ghost use Rattle.hol_incremental.specs.Edited.{IsEdited, IsNextEdited, Keys, Records, of_first};
ghost use Rattle.hol_incremental.specs.Left.{IsLeftOf, StaysOwn};
ghost use Rattle.hol_incremental.specs.Tops.{AddsTops};

/// Adding a tree asks for the rows of the previous state and of the cycle together: over tables that hold the same rows beside the previous state it gives the
/// same ordinal.
pub fn added_alike()
    ensures { (schemas : List Schema) (previous before after other : Table) (type_index : ℕ) (tree : PlainTree) (ordinal : ℕ) → SameBeside previous before other → Adds schemas previous type_index tree before ordinal after
        → (after' : Table) × Adds schemas previous type_index tree other ordinal after' × SameBeside previous after after' }
{}

/// The tree of a live row of the previous state is added under that row's ordinal, and beside the previous state nothing changes.
pub fn added_again()
    ensures { (schemas : List Schema) (previous before : Table) (type_index ordinal : ℕ) → IsModel schemas → IsClosedTableOf schemas previous → AreStored previous → TablesAgree previous before → length before ≡ length schemas
        → IsLive previous type_index ordinal → (after : Table) × Adds schemas previous type_index (unfold_row schemas previous type_index ordinal) before ordinal after × SameBeside previous before after }
{}

/// Each row that records bring is the row of one of them, or a row names it.
pub fn top_or_named()
    ensures { (schemas : List Schema) (previous before after : Table) (records : Records) (tops : List (ℕ × ℕ)) → length before ≡ length schemas → TablesAgree previous before
        → All (λ entry. FitsTree schemas entry.0 entry.1) records → AddsTops schemas previous records before tops after → (type_index ordinal : ℕ) → IsLive after type_index ordinal
        → IsLive before type_index ordinal ⊎ (Contains tops (type_index, ordinal) ⊎ IsNamed schemas after type_index ordinal) }
{}

/// What is left of a change is the state that the edited list makes next: the records that are put were added beside the rows of the previous state, and of those
/// rows and theirs are left the ones that stay for their own sake, and what rows that are left name.
pub fn edited_is_next()
    ensures { (schemas : List Schema) (previous whole left : Table) (puts : Records) (removes : Keys) (tops : List (ℕ × ℕ)) → IsModel schemas → IsClosedTableOf schemas previous → AreStored previous
        → HoldsOnce previous → All (λ entry. FitsTree schemas entry.0 entry.1) puts → AddsTops schemas previous (of_first (length schemas) puts) previous tops whole
        → IsLeftOf schemas (StaysOwn schemas previous puts removes tops) whole left → IsNextEdited schemas previous puts removes left }
{}

/// Where the edited list makes a next state, the records that are put can be added beside the rows of the previous one.
pub fn edited_adds_puts()
    ensures { (schemas : List Schema) (previous next : Table) (puts : Records) (removes : Keys) → IsModel schemas → IsClosedTableOf schemas previous → AreStored previous → HoldsOnce previous
        → All (λ entry. FitsTree schemas entry.0 entry.1) puts → IsNextEdited schemas previous puts removes next
        → (tops : List (ℕ × ℕ)) × (whole : Table) × AddsTops schemas previous (of_first (length schemas) puts) previous tops whole }
{}

/// A row is named exactly where it is counted.
pub fn named_where_counted()
    ensures { (schemas : List Schema) (table : Table) (type_index ordinal : ℕ) → IsNamed schemas table type_index ordinal ↔ (0 < times_named schemas table type_index ordinal) }
{}

/// A state, the records that are put and the keys of those that are removed have one edited list.
pub fn one_edited_list()
    ensures { (schemas : List Schema) (previous : Table) (puts : Records) (removes : Keys) (records others : Records) → IsEdited schemas previous puts removes records → IsEdited schemas previous puts removes others → records ≡ others }
{}

/// A state that holds no row twice, records that are put and keys of those that are removed have an edited list.
pub fn an_edited_list()
    ensures { (schemas : List Schema) (previous : Table) (puts : Records) (removes : Keys) → IsModel schemas → HoldsOnce previous → (records : Records) × IsEdited schemas previous puts removes records }
{}
