//! Laws of the definitions.
ghost use Rattle.std.specs.Prelude.{◌≡◌, List};
ghost use Rattle.serde_json.specs.Data.{Data};
ghost use Rattle.schema_model.specs.declared.model.path.Path.{Path};
ghost use Rattle.row_model.specs.declared.row.Value.{Value};
ghost use Rattle.schema_model.specs.declared.schema.Schema.{Schema};
ghost use Rattle.json_values.specs.KeyFrom.{SpellsKey};
ghost use Rattle.json_values.specs.SchemaJson.{StandsFor};

/// A value stands for one list of schemas at most.
pub fn one_schema_list()
    ensures { (value : Data) (schemas others : List Schema) → StandsFor value schemas → StandsFor value others → schemas ≡ others }
{}

/// JSON spells one key at most.
pub fn one_key()
    ensures { (schemas : List Schema) (paths : List Path) (json : Data) (key other : List Value) → SpellsKey schemas paths json key → SpellsKey schemas paths json other → key ≡ other }
{}
