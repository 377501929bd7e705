//! Laws of keys.
ghost use Rattle.std.specs.Prelude.{◌≡◌, ℕ, List, All};
ghost use Rattle.schema_model.specs.declared.model.path.Path.{Path};
ghost use Rattle.schema_model.specs.declared.schema.Schema.{Schema};
ghost use Rattle.row_model.specs.Key.{IsResolved, key_of};
ghost use Rattle.row_model.specs.Table.{IsClosed, IsLive, IsTableOf, Table};
ghost use Rattle.key_index.specs.Indexed.{HaveOneRow};

/// A row that stays from one state to another that agrees with it has its key in both: each row that it names stays too.
pub fn kept_key()
    ensures { (schemas : List Schema) (old new : Table) (type_index ordinal : ℕ) (paths : List Path)
        → IsTableOf schemas old → IsTableOf schemas new → IsClosed schemas old → IsClosed schemas new → HaveOneRow old new
        → All (IsResolved schemas type_index) paths → IsLive old type_index ordinal → IsLive new type_index ordinal
        → key_of schemas new type_index paths ordinal ≡ key_of schemas old type_index paths ordinal }
{}
