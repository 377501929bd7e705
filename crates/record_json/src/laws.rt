//! Laws of the definitions.
ghost use Rattle.std.specs.Prelude.{◌≡◌, ℕ, List, Ok};
ghost use Rattle.serde_json.specs.Data.{Data};
ghost use Rattle.schema_model.specs.Model.{IsModel};
ghost use Rattle.row_model.specs.PlainTree.{PlainTree, SameTree};
ghost use Rattle.row_model.specs.Table.{EachRow, IsClosed, IsLive, IsTableOf, Table};
ghost use Rattle.row_model.specs.Unfold.{unfold_row};
ghost use Rattle.schema_model.specs.declared.schema.Schema.{Schema};
ghost use Rattle.record_trees.specs.FitsTree.{FitsTree};
ghost use Rattle.record_json.specs.InRange.{HasValuesInRange, IsTreeInRange};
ghost use Rattle.record_json.specs.KeysApart.{HasKeysApart};
ghost use Rattle.record_json.specs.PrintTree.{PrintsTree};
ghost use Rattle.record_json.specs.ReadTree.{read_tree};

/// The tree that is read from JSON by the schemas of a model fits its type: each part is of the kind that the type asks
/// for, and no two keys of a map are the same record.
pub fn read_tree_fits()
    ensures { (schemas : List Schema) (type_index : ℕ) (value : Data) (tree : PlainTree) → IsModel schemas → read_tree schemas type_index value ≡ Ok tree → FitsTree schemas type_index tree }
{}

/// A tree that fits its type by the schemas of a model, and whose values are in range, is read back from what it prints as.
/// That it fits says too that no two keys of a map in it are the same record.
pub fn read_printed()
    ensures { (schemas : List Schema) (type_index : ℕ) (tree : PlainTree) (printed : Data) → IsModel schemas → FitsTree schemas type_index tree → IsTreeInRange tree → PrintsTree schemas type_index tree printed → read_tree schemas type_index printed ≡ Ok tree }
{}

/// A tree is the same record as itself, and so is what `read_printed` gives.
pub fn same_itself()
    ensures { (tree : PlainTree) → SameTree tree tree }
{}

/// The tree of a live row of a closed table fits its type, where no map in it has two keys that are the same record.
pub fn unfold_fits()
    ensures { (schemas : List Schema) (table : Table) (type_index ordinal : ℕ) → IsModel schemas → IsTableOf schemas table → IsClosed schemas table → IsLive table type_index ordinal → HasKeysApart (unfold_row schemas table type_index ordinal) → FitsTree schemas type_index (unfold_row schemas table type_index ordinal) }
{}

/// The tree of a row has its values in range, where those of the rows of its table are.
pub fn unfold_in_range()
    ensures { (schemas : List Schema) (table : Table) (type_index ordinal : ℕ) → EachRow schemas table (λ schema row. HasValuesInRange row) → IsTreeInRange (unfold_row schemas table type_index ordinal) }
{}
