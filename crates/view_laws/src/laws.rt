//! Laws of deltas that are read through other models.
ghost use Rattle.std.specs.Prelude.{◌≡◌, ℕ, ℤ, List, All, length};
ghost use Rattle.schema_model.specs.declared.schema.Schema.{Schema};
ghost use Rattle.schema_model.specs.declared.schema.Shape.{Shape};
ghost use Rattle.schema_model.specs.Growth.{Grows, ModelsAgree, ShapesAgree};
ghost use Rattle.schema_model.specs.Model.{IsModel};
ghost use Rattle.row_model.specs.declared.row.Row.{Row};
ghost use Rattle.row_model.specs.Table.{IsClosed, IsTableOf, Table};
ghost use Rattle.row_model.specs.View.{seen_row, view};
ghost use Rattle.type_rows.specs.declared.section.Section.{Section};
ghost use Rattle.seen_patches.specs.Spelling.{SpellsSeen};
ghost use Rattle.delta_blob.specs.Fits.{Fits};
ghost use Rattle.delta_blob.specs.declared.part.DeltaPart.{DeltaPart};
ghost use Rattle.delta_blob.specs.Patch.{AgreesWith, DeltaIs, NamesOwn, TypePatch};
ghost use Rattle.delta_blob.specs.Within.{KeepItems, Within};
ghost use Rattle.view_laws.specs.SeenDelta.{LeadsSeen};

/// A place that spells a row for the schema of its blob spells for each schema that agrees what is seen of that row.
pub fn seen_place()
    ensures { (mine own : Shape) (section : Section) (place : ℕ) (row : Row) → ShapesAgree mine own → SpellsSeen own own section place row
        → SpellsSeen mine own section place (seen_row own mine row) }
{}

/// A model that agrees with another one agrees with each type that a delta names of that one; and what is seen through it of a closed table is closed.
pub fn seen_agrees()
    ensures parts { (own mine : List Schema) → ModelsAgree mine own → (parts : List DeltaPart) → NamesOwn own parts → All (AgreesWith mine) parts }
    ensures closed { (own mine : List Schema) → IsModel own → IsModel mine → ModelsAgree mine own → (table : Table) → IsTableOf own table → IsClosed own table → IsClosed mine (view mine own table) }
{}

/// A delta that names types of one model alone, and leads there from one table to another within the limits, leads for each model that agrees with the types
/// that it names from what is seen of the one table to what is seen of the other one, within the limits, where that is closed.
pub fn seen_delta()
    ensures { (own mine : List Schema) → IsModel own → IsModel mine → (blob : List ℕ) (origin destination : ℤ) (patch : List TypePatch)
        → (is : DeltaIs own blob origin destination patch) → NamesOwn own is.parts → (old : Table) → (fits : Fits own old patch) → IsTableOf own fits.moved → length old ≡ length own
        → All (AgreesWith mine) is.parts → IsClosed mine (view mine own fits.moved) → Within fits.moved patch → KeepItems own is.parts
        → LeadsSeen mine blob origin destination (view mine own old) (view mine own fits.moved) }
{}

/// A delta between two states, of which the later one's model grows the earlier one's, leads for each model that agrees with the types that it names from what
/// is seen of the one state to what is seen of the other one, where it names types of the later model alone and is one between its table and what is seen there
/// of the earlier table: forth and back.
pub fn seen_steps()
    ensures forth { (before after mine : List Schema) → IsModel before → IsModel after → IsModel mine → Grows before after
        → (blob : List ℕ) (origin destination : ℤ) (patch : List TypePatch) → (is : DeltaIs after blob origin destination patch) → NamesOwn after is.parts → All (AgreesWith mine) is.parts
        → (old : Table) → (fits : Fits after (view after before old) patch) → IsTableOf after fits.moved → IsClosed mine (view mine after fits.moved) → Within fits.moved patch → KeepItems after is.parts
        → LeadsSeen mine blob origin destination (view mine before old) (view mine after fits.moved) }
    ensures back { (before after mine : List Schema) → IsModel before → IsModel after → IsModel mine → Grows before after
        → (blob : List ℕ) (origin destination : ℤ) (patch : List TypePatch) → (is : DeltaIs after blob origin destination patch) → NamesOwn after is.parts → All (AgreesWith mine) is.parts
        → (new old : Table) → (fits : Fits after new patch) → fits.moved ≡ view after before old → IsTableOf after fits.moved → length new ≡ length after → IsClosed mine (view mine before old)
        → Within fits.moved patch → KeepItems after is.parts → LeadsSeen mine blob origin destination (view mine after new) (view mine before old) }
{}
