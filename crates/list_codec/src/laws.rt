//! Laws of the definitions: a place spells one row at most, and not both a row and a reason why there is none; rows are packed in one way.
ghost use Rattle.std.specs.Prelude.{◌≡◌, ℕ, List, Option};
ghost use Rattle.row_model.specs.declared.row.Row.{Row};
ghost use Rattle.schema_model.specs.declared.reason.Reason.{Reason};
ghost use Rattle.list_codec.specs.ListPlace.{SpellsListRow, FailsListRow};
ghost use Rattle.bit_array.specs.Element.{AreWords};
ghost use Rattle.list_codec.specs.Packing.{IsPacked as IsPackedList};

/// A place spells one row, or none for one reason, but not both.
pub fn one_row()
    ensures row { (widths : List ℕ) (total : ℕ) (first second : List ℕ) (place : ℕ) (a b : Row) → SpellsListRow widths total first second place a → SpellsListRow widths total first second place b → a ≡ b }
    ensures reason { (widths : List ℕ) (total : ℕ) (first second : List ℕ) (place : ℕ) (a b : Reason) → FailsListRow widths total first second place a → FailsListRow widths total first second place b → a ≡ b }
    ensures apart { (widths : List ℕ) (total : ℕ) (first second : List ℕ) (place : ℕ) (row : Row) (reason : Reason) → SpellsListRow widths total first second place row → FailsListRow widths total first second place reason → ⊥ }
{}

/// The words of lists are determined by their widths.
pub fn one_list_packing()
    ensures { (widths : List ℕ) (rows : List (Option Row)) (first second first' second' : List ℕ) → AreWords first → AreWords second → AreWords first' → AreWords second' → IsPackedList widths rows first second → IsPackedList widths rows first' second' → (first ≡ first') × (second ≡ second') }
{}
