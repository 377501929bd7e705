//! Laws of the rows that are computed from words and bytes: they are those that a section spells.
ghost use Rattle.std.specs.Prelude.{◌≡◌, ◌<◌, ◌≤◌, ◌+◌, ◌∷◌, ℕ, pos, List, [], All, Contains, Option, None, Some};
ghost use Rattle.std.specs.FinMap.{get, keys};
ghost use Rattle.std.specs.List.Sorted.{IsStrictlyIncreasing};
ghost use Rattle.schema_model.specs.declared.schema.Field.{Field};
ghost use Rattle.schema_model.specs.declared.schema.Shape.{Shape};
ghost use Rattle.schema_model.specs.declared.reason.Reason.{Reason};
ghost use Rattle.row_model.specs.declared.row.Row.{Row};
ghost use Rattle.row_model.specs.declared.row.Value.{Value};
ghost use Rattle.row_model.specs.Table.{RowMap};
ghost use Rattle.object_codec.specs.ObjectPlace.{parts_of};
ghost use Rattle.type_rows.specs.Layout.{places_of};
ghost use Rattle.type_rows.specs.Loads.{SectionIs, Spells};
ghost use Rattle.type_rows.specs.WellFormed.{IsWellFormed};
ghost use Rattle.type_rows.specs.declared.section.Section.{Section};
ghost use Rattle.type_rows.specs.Fails.{Fails, SpellsOrFails};
ghost use Rattle.type_rows.specs.Rows.{pairs_in, row_in, rows_in};
ghost use Rattle.type_rows.specs.Value.{units_in};
ghost use Rattle.type_rows.specs.Worked.{number_section, number_shape, set_section, set_shape};
ghost use Rattle.type_rows.specs.SameBits.{AreSameParts, HaveNoBytes, IsSameList, IsSameRecord, IsSameRun, SameBits};

/// The row that a place spells is the one that is computed.
pub fn spelled()
    ensures { (shape : Shape) (section : Section) (place : ℕ) (row : Row) → Spells shape section place row → row_in shape section place ≡ row }
{}

/// The rows of a section are those that are computed; and it is the section of these where each live ordinal has a place that spells a row.
pub fn section_rows()
    ensures only { (shape : Shape) (section : Section) (rows : RowMap) → SectionIs shape section rows → rows_in shape section ≡ rows }
    ensures is { (shape : Shape) (section : Section) → IsStrictlyIncreasing section.live → All (λ ordinal. ordinal < places_of section.max) section.live
        → All (λ ordinal. (row : Row) × Spells shape section ordinal row) section.live → SectionIs shape section (rows_in shape section) }
{}

/// Under each live ordinal stands the row that is computed of its place, and under no other ordinal one.
pub fn live_rows()
    ensures keys { (shape : Shape) (section : Section) → IsStrictlyIncreasing section.live → keys (rows_in shape section) ≡ section.live }
    ensures live { (shape : Shape) (section : Section) (ordinal : ℕ) → Contains section.live ordinal → get (rows_in shape section) ordinal ≡ Some (row_in shape section ordinal) }
    ensures none { (shape : Shape) (section : Section) (ordinal : ℕ) → (Contains section.live ordinal → ⊥) → get (rows_in shape section) ordinal ≡ None }
{}

/// Where so many bits are the same in two arrays of words, what lies within them is the same; and two runs of the same bits behind one another are one.
pub fn same_bits()
    ensures within { (words others : List ℕ) (at there bits start width : ℕ) → start + width ≤ bits → SameBits words at others there bits
        → SameBits words (at + start) others (there + start) width }
    ensures joined { (words others : List ℕ) (at there low high : ℕ) → SameBits words at others there low → SameBits words (at + low) others (there + low) high
        → SameBits words at others there (low + high) }
{}

/// A place that has what a place of another section has spells the same row: the same record, list, set or map, from another start on.
pub fn same_rows()
    ensures fixed { (key : Option (List (List ℕ))) (fields : List Field) (section other : Section) (place there : ℕ) (row : Row) → HaveNoBytes fields
        → IsSameRecord section place other there → Spells (Shape.Object key fields) section place row → Spells (Shape.Object key fields) other there row }
    ensures parts { (key : Option (List (List ℕ))) (fields : List Field) (section other : Section) (place there : ℕ) (row : Row)
        → AreSameParts fields (parts_of section.widths section.first section.areas place) (parts_of other.widths other.first other.areas there)
        → Spells (Shape.Object key fields) section place row → Spells (Shape.Object key fields) other there row }
    ensures list { (element : List ℕ) (section other : Section) (place there : ℕ) (row : Row) → IsSameList section place other there
        → Spells (Shape.List element) section place row → Spells (Shape.List element) other there row }
    ensures set { (element : List ℕ) (section other : Section) (place there : ℕ) (row : Row) → IsSameRun section place other there
        → Spells (Shape.Set element) section place row → Spells (Shape.Set element) other there row }
    ensures map { (key value : List ℕ) (section other : Section) (place there : ℕ) (row : Row) → IsSameRun section place other there
        → Spells (Shape.Map key value) section place row → Spells (Shape.Map key value) other there row }
{}

/// A place of a well-formed section spells the row that is computed, or there is a reason why it spells none: one reason, and no row beside it.
pub fn one_or_fails()
    ensures each { (shape : Shape) (section : Section) (place : ℕ) → IsWellFormed shape section → place < places_of section.max → SpellsOrFails shape section place }
    ensures reason { (shape : Shape) (section : Section) (place : ℕ) (a b : Reason) → Fails shape section place a → Fails shape section place b → a ≡ b }
    ensures apart { (shape : Shape) (section : Section) (place : ℕ) (row : Row) (reason : Reason) → Spells shape section place row → Fails shape section place reason → ⊥ }
{
    list_codec::laws::one_row();
}

/// Worked rows: two records of one INT, the second null; a set, in whose run the greater element stands first; the pairs of a run that goes on from
/// its last bucket to its first; and the units of three bytes.
pub fn worked_rows()
    ensures number { row_in number_shape number_section 0 ≡ Row.Object (Value.Int (pos 5) ∷ []) }
    ensures null { row_in number_shape number_section 1 ≡ Row.Object (Value.Null ∷ []) }
    ensures set { row_in set_shape set_section 0 ≡ Row.Set (0 ∷ 1 ∷ []) }
    ensures round { pairs_in (Some (4, 8) ∷ Some (5, 9) ∷ None ∷ Some (0, 7) ∷ []) ≡ (0, 7) ∷ (4, 8) ∷ (5, 9) ∷ [] }
    ensures units { units_in (97 ∷ 129 ∷ 105 ∷ []) ≡ 97 ∷ 233 ∷ [] }
{}
