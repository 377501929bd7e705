//! Laws of the definitions: a record without variable bytes is the bits of its place alone.
ghost use Rattle.std.specs.Prelude.{◌≡◌, ◌<◌, ℕ, List, length, None};
ghost use Rattle.schema_model.specs.Parts.{shape_fields};
ghost use Rattle.schema_model.specs.declared.schema.Shape.{Shape};
ghost use Rattle.row_model.specs.declared.row.Row.{Row};
ghost use Rattle.object_codec.specs.ObjectPlace.{SpellsObjectRow};
ghost use Rattle.object_codec.specs.Packing.{PacksPlace};
ghost use Rattle.record_copies.specs.Fixed.{AreFixed, record_at, HaveSameElement};

/// Places whose records have the same bits spell the same rows, in whatever words they stand, or both have none.
pub fn same_bits_same_row()
    ensures row { (shape : Shape) (widths first first' : List ℕ) (areas areas' : List (List ℕ)) (place place' : ℕ) (row : Row) → AreFixed (shape_fields shape) → length areas ≡ length areas' → record_at widths first place ≡ record_at widths first' place' → SpellsObjectRow shape widths first areas place row → SpellsObjectRow shape widths first' areas' place' row }
    ensures gap { (shape : Shape) (widths first first' : List ℕ) (areas areas' : List (List ℕ)) (place place' : ℕ) → AreFixed (shape_fields shape) → length areas ≡ length areas' → record_at widths first place ≡ record_at widths first' place' → PacksPlace shape widths first areas place None → PacksPlace shape widths first' areas' place' None }
{}

/// Records have the same bits where each of their fields has the same element.
pub fn same_elements_same_bits()
    ensures { (widths first first' : List ℕ) (place place' : ℕ) → ((index : ℕ) → index < length widths → HaveSameElement widths first first' place place' index) → record_at widths first place ≡ record_at widths first' place' }
{}

/// A place whose record has no bits has no row.
pub fn no_bits_no_row()
    ensures { (shape : Shape) (widths first : List ℕ) (areas : List (List ℕ)) (place : ℕ) → AreFixed (shape_fields shape) → length widths ≡ length (shape_fields shape) → length areas ≡ length (shape_fields shape) → record_at widths first place ≡ 0 → PacksPlace shape widths first areas place None }
{}
