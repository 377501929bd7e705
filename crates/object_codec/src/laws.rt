//! Laws of the definitions: a place spells one row at most, and not both a row and a reason why there is none; rows are packed in one way.
ghost use Rattle.std.specs.Prelude.{◌≡◌, ℕ, List, Option};
ghost use Rattle.schema_model.specs.declared.schema.Shape.{Shape};
ghost use Rattle.row_model.specs.declared.row.Row.{Row};
ghost use Rattle.schema_model.specs.declared.reason.Reason.{Reason};
ghost use Rattle.object_codec.specs.ObjectPlace.{SpellsObjectRow, FailsObjectRow};
ghost use Rattle.bit_array.specs.Element.{AreWords};
ghost use Rattle.object_codec.specs.Packing.{CanPack, IsPacked};

use hol_varint::laws;

/// A place spells one row, or none for one reason, but not both.
pub fn one_row()
    ensures row { (shape : Shape) (widths first : List ℕ) (areas : List (List ℕ)) (place : ℕ) (a b : Row) → SpellsObjectRow shape widths first areas place a → SpellsObjectRow shape widths first areas place b → a ≡ b }
    ensures reason { (shape : Shape) (widths first : List ℕ) (areas : List (List ℕ)) (place : ℕ) (a b : Reason) → FailsObjectRow shape widths first areas place a → FailsObjectRow shape widths first areas place b → a ≡ b }
    ensures apart { (shape : Shape) (widths first : List ℕ) (areas : List (List ℕ)) (place : ℕ) (row : Row) (reason : Reason) → SpellsObjectRow shape widths first areas place row → FailsObjectRow shape widths first areas place reason → ⊥ }
{}

/// The words and the bytes of records are determined by their widths.
pub fn one_record_packing()
    ensures { (shape : Shape) (widths : List ℕ) (rows : List (Option Row)) (first first' : List ℕ) (areas areas' : List (List ℕ)) → CanPack shape widths rows → AreWords first → AreWords first' → IsPacked shape widths rows first areas → IsPacked shape widths rows first' areas' → (first ≡ first') × (areas ≡ areas') }
{
    laws::one_zigzag();
}
