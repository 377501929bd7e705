//! Laws of the definitions: a section is that of one set of rows at most, a patch moves rows to one set of rows at most, and each of their rows
//! fits the type.
ghost use Rattle.std.specs.Prelude.{◌≡◌, ℕ, Some};
ghost use Rattle.std.specs.FinMap.{get};
ghost use Rattle.schema_model.specs.declared.schema.Shape.{Shape};
ghost use Rattle.row_model.specs.declared.row.Row.{Row};
ghost use Rattle.row_model.specs.Row.{FitsShape, IsRowInRange};
ghost use Rattle.row_model.specs.Table.{RowMap};
ghost use Rattle.type_rows.specs.declared.section.Section.{Section};
ghost use Rattle.type_rows.specs.declared.patch.PatchSection.{PatchSection};
ghost use Rattle.type_rows.specs.WellFormed.{IsWellFormed};
ghost use Rattle.type_rows.specs.Patches.{IsMovedBy, IsWellFormedPatch};
ghost use Rattle.type_rows.specs.Loads.{SectionIs};

/// A section is that of one set of rows at most.
pub fn one_state()
    ensures { (shape : Shape) (section : Section) (a b : RowMap) → SectionIs shape section a → SectionIs shape section b → a ≡ b }
{}

/// Each row of a section fits the type, and those of a well-formed section are in range.
pub fn rows_fit()
    ensures fits { (shape : Shape) (section : Section) (rows : RowMap) (ordinal : ℕ) (row : Row) → SectionIs shape section rows → get rows ordinal ≡ Some row → FitsShape shape row }
    ensures ranges { (shape : Shape) (section : Section) (rows : RowMap) (ordinal : ℕ) (row : Row) → IsWellFormed shape section → SectionIs shape section rows → get rows ordinal ≡ Some row → IsRowInRange row }
{}

/// A patch moves some rows to one set of rows at most.
pub fn one_move()
    ensures { (shape : Shape) (patch : PatchSection) (old a b : RowMap) → IsMovedBy shape patch old a → IsMovedBy shape patch old b → a ≡ b }
{}

/// Each row that a patch leads to fits the type where each row before does, and where the patch is well formed it is in range where they are.
pub fn moved_rows_fit()
    ensures fits { (shape : Shape) (patch : PatchSection) (old new : RowMap) → IsMovedBy shape patch old new → ((ordinal : ℕ) (row : Row) → get old ordinal ≡ Some row → FitsShape shape row) → (ordinal : ℕ) (row : Row) → get new ordinal ≡ Some row → FitsShape shape row }
    ensures ranges { (shape : Shape) (patch : PatchSection) (old new : RowMap) → IsWellFormedPatch shape patch → IsMovedBy shape patch old new → ((ordinal : ℕ) (row : Row) → get old ordinal ≡ Some row → IsRowInRange row) → (ordinal : ℕ) (row : Row) → get new ordinal ≡ Some row → IsRowInRange row }
{}
