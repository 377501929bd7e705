//! Laws of the definitions.
ghost use Rattle.std.specs.Prelude.{◌≡◌, ℕ, List};
ghost use Rattle.schema_model.specs.Model.{IsModel};
ghost use Rattle.schema_model.specs.Path.{Resolves};
ghost use Rattle.schema_model.specs.declared.model.path.Path.{Path};
ghost use Rattle.schema_model.specs.declared.schema.Schema.{Schema};

/// In a model a text resolves to one path at most.
pub fn one_path()
    ensures { (schemas : List Schema) (type_index : ℕ) (text : List ℕ) (a b : Path) → IsModel schemas → Resolves schemas type_index text a → Resolves schemas type_index text b → a ≡ b }
{}
