//! Laws of the definitions: a place spells one row at most, and not both a row and a reason why there is none; rows are packed in one way.
ghost use Rattle.std.specs.Prelude.{◌≡◌, ℕ, List, [], ◌∷◌, Option, Some, None};
ghost use Rattle.schema_model.specs.declared.schema.Shape.{Shape};
ghost use Rattle.row_model.specs.declared.row.Row.{Row};
ghost use Rattle.schema_model.specs.declared.reason.Reason.{Reason};
ghost use Rattle.bucket_codec.specs.Run.{Bucket, SpellsRun};
ghost use Rattle.bucket_codec.specs.BucketPlace.{SpellsBucketRow, FailsBucketRow};
ghost use Rattle.bucket_codec.specs.Inserted.{inserted};
ghost use Rattle.bucket_codec.specs.Packed.{IsPacked};
ghost use Rattle.bit_array.specs.Element.{AreWords};

/// A run spells one set or map at most.
pub fn one_set()
    ensures { (run : List Bucket) (a b : List (ℕ × ℕ)) → SpellsRun run a → SpellsRun run b → a ≡ b }
{}

/// A place spells one row, or none for one reason, but not both.
pub fn one_row()
    ensures row { (shape : Shape) (widths : List ℕ) (total : ℕ) (first second : List ℕ) (place : ℕ) (a b : Row) → SpellsBucketRow shape widths total first second place a → SpellsBucketRow shape widths total first second place b → a ≡ b }
    ensures reason { (widths : List ℕ) (total : ℕ) (first second : List ℕ) (place : ℕ) (a b : Reason) → FailsBucketRow widths total first second place a → FailsBucketRow widths total first second place b → a ≡ b }
    ensures apart { (shape : Shape) (widths : List ℕ) (total : ℕ) (first second : List ℕ) (place : ℕ) (row : Row) (reason : Reason) → SpellsBucketRow shape widths total first second place row → FailsBucketRow widths total first second place reason → ⊥ }
{}

/// The words of rows are determined by the widths, to the last bit.
pub fn one_packing()
    ensures { (shape : Shape) (widths : List ℕ) (rows : List (Option Row)) (first second first' second' : List ℕ) → AreWords first → AreWords second → AreWords first' → AreWords second' → IsPacked shape widths rows first second → IsPacked shape widths rows first' second' → (first ≡ first') × (second ≡ second') }
{}

/// Worked runs: the set of 0 and 1; the set of 3; and a map with the keys 0, 4 and 5, which have one home, the last of four buckets.
pub fn worked_runs()
    ensures two { inserted 4 ((0, 0) ∷ (1, 0) ∷ []) ≡ None ∷ None ∷ Some (1, 0) ∷ Some (0, 0) ∷ [] }
    ensures one { inserted 2 ((3, 0) ∷ []) ≡ Some (3, 0) ∷ None ∷ [] }
    ensures round { inserted 4 ((0, 7) ∷ (4, 8) ∷ (5, 9) ∷ []) ≡ Some (4, 8) ∷ Some (5, 9) ∷ None ∷ Some (0, 7) ∷ [] }
{}
