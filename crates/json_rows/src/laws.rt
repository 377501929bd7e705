//! Laws of the definitions.
ghost use Rattle.std.specs.Prelude.{◌≡◌};
ghost use Rattle.serde_json.specs.Data.{Data};
ghost use Rattle.row_model.specs.declared.row.Row.{Row};
ghost use Rattle.schema_model.specs.declared.schema.Shape.{Shape};
ghost use Rattle.json_rows.specs.StoredRow.{IsRowData};

/// A row prints as one value at most.
pub fn one_row_value()
    ensures { (shape : Shape) (row : Row) (one other : Data) → IsRowData shape row one → IsRowData shape row other → one ≡ other }
{}
