//! Laws of the bytes of a schema.
ghost use Rattle.std.specs.Prelude.{◌≡◌, ◌<◌, ◌^◌, ◌++◌, ℕ, List, Some, IfSome, length, slice_get};
ghost use Rattle.std.specs.Str.{IsUtf8};
ghost use Rattle.schema_model.specs.Model.{IsModel};
ghost use Rattle.schema_model.specs.Parts.{shape_key};
ghost use Rattle.schema_model.specs.Schema.{schema_bytes, EachName, IsSpellable};
ghost use Rattle.schema_model.specs.declared.schema.Schema.{Schema};

/// A schema whose names are texts has one spelling, and a spelling one such schema; none begins another one.
pub fn one_schema()
    ensures { (a b : Schema) (x y : List ℕ) → EachName IsUtf8 a → EachName IsUtf8 b → schema_bytes a ++ x ≡ schema_bytes b ++ y → (a ≡ b) × (x ≡ y) }
{}

/// Each schema of a model can be spelled, where it has fewer than 2^32 key paths.
pub fn spellable_model()
    ensures { (schemas : List Schema) (type_index : ℕ) (schema : Schema) → IsModel schemas → slice_get schemas type_index ≡ Some schema → IfSome (shape_key schema.shape) (λ paths. length paths < 2 ^ 32) → IsSpellable schema }
{}
