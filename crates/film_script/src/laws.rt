//! What is so of the model, and of the records of every cycle.
ghost use Rattle.std.specs.Prelude.{ℕ};
ghost use Rattle.record_trees.specs.FitsTree.{FitsTree};
ghost use Rattle.schema_model.specs.Model.{IsModel};
ghost use Rattle.film_script.specs.Films.{film, film_schemas, film_type};

/// The schemas are a model.
pub fn films_model()
    ensures { IsModel film_schemas }
{}

/// Each film is a record of its type.
pub fn films_fit()
    ensures { (seed cycle place : ℕ) → FitsTree film_schemas film_type (film seed cycle place) }
{}
