//! Laws of models that grow, and of schemas that agree.
ghost use Rattle.std.specs.Prelude.{◌≡◌, ℕ, List, Some, slice_get};
ghost use Rattle.schema_model.specs.Growth.{Agree, Grows, ModelsAgree};
ghost use Rattle.schema_model.specs.Model.{IsModel};
ghost use Rattle.schema_model.specs.Parts.{AreApart, fields_of, index_of_type};
ghost use Rattle.schema_model.specs.declared.schema.Schema.{Schema};

/// No two fields of a type of a model have one name.
pub fn fields_apart()
    ensures { (schemas : List Schema) (type_index : ℕ) (schema : Schema) → IsModel schemas → slice_get schemas type_index ≡ Some schema → AreApart (fields_of schema) }
{}

/// A model grows itself, and one that grows another one grows what that one grows.
pub fn grows_on()
    ensures itself { (schemas : List Schema) → Grows schemas schemas }
    ensures further { (schemas grown later : List Schema) → Grows schemas grown → Grows grown later → Grows schemas later }
{}

/// A type of a model has its index in a model that grows it.
pub fn grown_index()
    ensures { (schemas grown : List Schema) (name : List ℕ) (type_index : ℕ) → IsModel schemas → IsModel grown → Grows schemas grown
        → index_of_type schemas name ≡ Some type_index → index_of_type grown name ≡ Some type_index }
{}

/// Where a model grows another one, their schemas of one name agree, both ways.
pub fn grown_agrees()
    ensures earlier { (schemas grown : List Schema) → IsModel grown → Grows schemas grown → ModelsAgree schemas grown }
    ensures later { (schemas grown : List Schema) → IsModel grown → Grows schemas grown → ModelsAgree grown schemas }
{}

/// Where schemas agree, they do so the other way round.
pub fn agree_both_ways()
    ensures schemas { (schema other : Schema) → Agree schema other → Agree other schema }
    ensures models { (schemas others : List Schema) → ModelsAgree schemas others → ModelsAgree others schemas }
{}
