//! Laws of sections as a consumer sees them: each is seen in one way, and reading it as it is seen is reading the blob's section by the names of the fields.
ghost use Rattle.std.specs.Prelude.{◌≡◌, ◌↔◌, ◌<◌, ◌≤◌, ℕ, List, [], Option, None, Some, length, slice_get};
ghost use Rattle.schema_model.specs.declared.reason.Reason.{Reason};
ghost use Rattle.schema_model.specs.declared.schema.Field.{Field};
ghost use Rattle.schema_model.specs.declared.schema.Shape.{Shape};
ghost use Rattle.schema_model.specs.Growth.{ShapesAgree};
ghost use Rattle.schema_model.specs.Parts.{AreApart, shape_fields};
ghost use Rattle.row_model.specs.declared.row.Row.{Row};
ghost use Rattle.type_rows.specs.declared.patch.PatchSection.{PatchSection};
ghost use Rattle.type_rows.specs.Holds.{HoldsRows};
ghost use Rattle.type_rows.specs.Layout.{own_bits};
ghost use Rattle.type_rows.specs.Loads.{Spells};
ghost use Rattle.type_rows.specs.Patches.{AddsRows, IsReadablePatch, patch_layout, places_in};
ghost use Rattle.type_rows.specs.WordsHeld.{field_bytes};
ghost use Rattle.type_rows.specs.Fails.{Fails};
ghost use Rattle.seen_patches.specs.ByName.{field_in};
ghost use Rattle.seen_patches.specs.Patch.{AddsSeen, HasColumns, KeepsOrdinals, layout_for, own_for};
ghost use Rattle.seen_patches.specs.Seen.{IsSeen, seen_widths};
ghost use Rattle.seen_patches.specs.Spelling.{FailsSeen, SpellsSeen};

/// A section is seen in one way.
pub fn one_seen()
    ensures { (mine theirs : Shape) (raw a b : PatchSection) → IsSeen mine theirs raw a → IsSeen mine theirs raw b → a ≡ b }
{}

/// A section is seen in some way.
pub fn some_seen()
    ensures { (mine theirs : Shape) (raw : PatchSection) → ShapesAgree mine theirs → (seen : PatchSection) × IsSeen mine theirs raw seen }
{}

/// A place of a section as it is seen spells a row exactly where the place of the blob's section spells it by the names of the fields; and it spells none for
/// a reason exactly where that spells none for this reason.
pub fn seen_rows()
    ensures spells { (mine theirs : Shape) (raw seen : PatchSection) (place : ℕ) (row : Row) → ShapesAgree mine theirs → AreApart (shape_fields theirs) → HasColumns theirs raw
        → IsSeen mine theirs raw seen → place < length raw.added → Spells mine (places_in seen) place row ↔ SpellsSeen mine theirs (places_in raw) place row }
    ensures fails { (mine theirs : Shape) (raw seen : PatchSection) (place : ℕ) (reason : Reason) → ShapesAgree mine theirs → AreApart (shape_fields theirs) → HasColumns theirs raw
        → IsSeen mine theirs raw seen → place < length raw.added → Fails mine (places_in seen) place reason ↔ FailsSeen mine theirs (places_in raw) place reason }
{}

/// A section that can be read can be read as it is seen.
pub fn seen_readable()
    ensures { (mine theirs : Shape) (raw seen : PatchSection) → ShapesAgree mine theirs → length (shape_fields mine) ≤ 1024 → IsReadablePatch theirs raw → IsSeen mine theirs raw seen
        → IsReadablePatch mine seen }
{}

/// What a consumer takes from a section is what the section has as it is seen: the ordinals, the layout, what counts of a record, and the rows that it adds.
pub fn seen_patch()
    ensures ordinals { (mine theirs : Shape) (raw seen : PatchSection) → IsSeen mine theirs raw seen → KeepsOrdinals raw seen }
    ensures layout { (mine theirs : Shape) (raw seen : PatchSection) → ShapesAgree mine theirs → AreApart (shape_fields theirs) → HasColumns theirs raw → IsSeen mine theirs raw seen
        → patch_layout seen ≡ layout_for mine theirs raw }
    ensures own { (mine theirs : Shape) (raw seen : PatchSection) → ShapesAgree mine theirs → AreApart (shape_fields theirs) → length (shape_fields theirs) ≤ 1024 → HasColumns theirs raw
        → raw.own ≡ own_bits theirs raw.widths → IsSeen mine theirs raw seen → seen.own ≡ own_for mine theirs raw.widths }
    ensures rows { (mine theirs : Shape) (raw seen : PatchSection) (rows : List Row) → ShapesAgree mine theirs → AreApart (shape_fields theirs) → HasColumns theirs raw
        → IsSeen mine theirs raw seen → AddsRows mine seen rows ↔ AddsSeen mine theirs raw rows }
{}

/// Rows that the widths of a section hold as it is seen have no byte in a field that the blob lacks.
pub fn lacking_bytes()
    ensures { (key : Option (List (List ℕ))) (mine theirs : List Field) (widths : List ℕ) (rows : List Row) (index : ℕ) (field : Field) → slice_get mine index ≡ Some field
        → field_in theirs field.name ≡ None → HoldsRows (Shape.Object key mine) (seen_widths mine theirs widths) [] rows → field_bytes index rows ≡ 0 }
{}
