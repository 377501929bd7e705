//! Laws of rows that are seen through another model.
ghost use Rattle.std.specs.Prelude.{◌≡◌, ℕ, All, Contains, IsSome, List, Some, option_map, slice_get};
ghost use Rattle.std.specs.FinMap.{get};
ghost use Rattle.schema_model.specs.declared.schema.name.Name.{Name};
ghost use Rattle.schema_model.specs.declared.schema.Schema.{Schema};
ghost use Rattle.schema_model.specs.declared.schema.Shape.{Shape};
ghost use Rattle.schema_model.specs.Growth.{Grows, GrowsShape, ModelsAgree, ShapesAgree};
ghost use Rattle.schema_model.specs.Model.{IsModel};
ghost use Rattle.schema_model.specs.Parts.{index_of_type};
ghost use Rattle.row_model.specs.declared.row.Row.{Row};
ghost use Rattle.row_model.specs.Row.{FitsShape, IsRowInRange, references_of_row};
ghost use Rattle.row_model.specs.Table.{IsClosed, IsLiveByName, IsTableOf, RowMap, Table, row_at};
ghost use Rattle.row_model.specs.View.{seen_map, seen_row, view};

/// A row of a type that is seen through another model is the row that stands under its ordinal, seen so.
pub fn seen_rows()
    ensures { (own mine : Shape) (rows : RowMap) (ordinal : ℕ) → get (seen_map own mine rows) ordinal ≡ option_map (seen_row own mine) (get rows ordinal) }
{}

/// A table that is seen through its own model is itself.
pub fn own_table()
    ensures { (schemas : List Schema) (table : Table) → IsModel schemas → IsTableOf schemas table → view schemas schemas table ≡ table }
{}

/// A row that fits its shape fits each shape that agrees with it, seen so; its numbers stay in range, and what it names there it names here.
pub fn seen_row_fits()
    ensures fits { (own mine : Shape) (row : Row) → ShapesAgree own mine → FitsShape own row → FitsShape mine (seen_row own mine row) }
    ensures ranges { (own mine : Shape) (row : Row) → IsRowInRange row → IsRowInRange (seen_row own mine row) }
    ensures names { (own mine : Shape) (row : Row) → ShapesAgree own mine → FitsShape own row → All (λ (named : Name × ℕ). Contains (references_of_row own row) named) (references_of_row mine (seen_row own mine row)) }
{}

/// A row that is live is live where it is seen through another model, if its type is there.
pub fn seen_rows_live()
    ensures { (own mine : List Schema) (table : Table) → IsModel mine → (name : Name) (ordinal : ℕ) → IsLiveByName own table name ordinal
        → IsSome (index_of_type mine name) → IsLiveByName mine (view mine own table) name ordinal }
{}

/// A table that is seen through a model whose schemas agree with those of its own one is a table of that model, and closed where it was.
pub fn seen_table()
    ensures table { (own mine : List Schema) (table : Table) → IsModel own → IsTableOf own table → ModelsAgree own mine → IsTableOf mine (view mine own table) }
    ensures closed { (own mine : List Schema) (table : Table) → IsModel own → IsModel mine → IsTableOf own table → ModelsAgree own mine → IsClosed own table
        → IsClosed mine (view mine own table) }
{}

/// What is seen through a model that grows the own one, and then through any other one, is what is seen through that one at once.
pub fn seen_twice()
    ensures rows { (own grown mine : Shape) (row : Row) → GrowsShape own grown → seen_row grown mine (seen_row own grown row) ≡ seen_row own mine row }
    ensures tables { (own grown mine : List Schema) (table : Table) → IsModel own → IsModel grown → Grows own grown → view mine grown (view grown own table) ≡ view mine own table }
{}

/// Through a model that grows the own one a type is seen at its own index, with its rows, and no two rows of a type become one.
pub fn seen_once()
    ensures there { (own grown : List Schema) (table : Table) → IsModel own → IsModel grown → Grows own grown → (type_index ordinal : ℕ) (schema other : Schema)
        → slice_get own type_index ≡ Some schema → slice_get grown type_index ≡ Some other
        → row_at (view grown own table) type_index ordinal ≡ option_map (seen_row schema.shape other.shape) (row_at table type_index ordinal) }
    ensures once { (own grown : List Schema) (table : Table) → IsModel own → IsModel grown → Grows own grown → IsTableOf own table → (type_index ordinal another : ℕ) (row : Row)
        → row_at (view grown own table) type_index ordinal ≡ Some row → row_at (view grown own table) type_index another ≡ Some row → row_at table type_index ordinal ≡ row_at table type_index another }
{}
