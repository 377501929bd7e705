//! Laws of the definitions: a section or a patch has one first fault at most, and none where it is taken.
ghost use Rattle.std.specs.Prelude.{◌≡◌, ◌≢◌};
ghost use Rattle.schema_model.specs.declared.schema.Shape.{Shape};
ghost use Rattle.row_model.specs.Table.{RowMap};
ghost use Rattle.type_rows.specs.declared.section.Section.{Section};
ghost use Rattle.type_rows.specs.declared.patch.PatchSection.{PatchSection};
ghost use Rattle.type_rows.specs.declared.fault.RowFault.{RowFault};
ghost use Rattle.type_rows.specs.declared.fault.RowFault.TheVariants.{Memory};
ghost use Rattle.type_rows.specs.Loads.{Loads};
ghost use Rattle.type_rows.specs.Patches.{IsMovedBy};
ghost use Rattle.type_rows.specs.LoadFault.{FailsLoad};
ghost use Rattle.type_rows.specs.MoveFault.{FailsMove};

/// A section has one first fault at most, out of memory aside, and none where it loads rows.
pub fn one_load_fault()
    ensures once { (shape : Shape) (section : Section) (a b : RowFault) → a ≢ Memory → b ≢ Memory → FailsLoad shape section a → FailsLoad shape section b → a ≡ b }
    ensures apart { (shape : Shape) (section : Section) (rows : RowMap) (fault : RowFault) → fault ≢ Memory → Loads shape section rows → FailsLoad shape section fault → ⊥ }
{}

/// A patch of some rows has one first fault at most, out of memory aside, and none where it moves them.
pub fn one_move_fault()
    ensures once { (shape : Shape) (patch : PatchSection) (old : RowMap) (a b : RowFault) → a ≢ Memory → b ≢ Memory → FailsMove shape patch old a → FailsMove shape patch old b → a ≡ b }
    ensures apart { (shape : Shape) (patch : PatchSection) (old new : RowMap) (fault : RowFault) → fault ≢ Memory → IsMovedBy shape patch old new → FailsMove shape patch old fault → ⊥ }
{}
