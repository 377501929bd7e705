//! Laws of what is written: a section of a snapshot, and the places of a delta.
ghost use Rattle.std.specs.Prelude.{◌≡◌, ◌≤◌, ℕ, List, Option, Some, slice_get};
ghost use Rattle.std.specs.FinMap.{values};
ghost use Rattle.schema_model.specs.declared.limit.Limit.TheVariants.{Words};
ghost use Rattle.schema_model.specs.Limit.{number_of_limit};
ghost use Rattle.row_model.specs.declared.row.Row.{Row};
ghost use Rattle.schema_model.specs.declared.schema.Shape.{Shape};
ghost use Rattle.row_model.specs.Table.{Table, row_at};
ghost use Rattle.row_model.specs.BothStates.{rows_in};
ghost use Rattle.bit_array.specs.Element.{AreWords};
ghost use Rattle.type_rows.specs.declared.section.Section.{Section};
ghost use Rattle.type_rows.specs.Holds.{Holds};
ghost use Rattle.type_rows.specs.Layout.{fixed_words};
ghost use Rattle.type_rows.specs.Loads.{SectionIs, Loads, Spells, layout_of};
ghost use Rattle.type_rows.specs.WellFormed.{IsReadable};
ghost use Rattle.row_packing.specs.declared.chosen.Chosen.{Chosen};
ghost use Rattle.row_packing.specs.Packs.{CanPackPlaces, PacksPlaces};
ghost use Rattle.row_packing.specs.Chosen.{KeepsCounts, IsChosen, Suits};
ghost use Rattle.row_packing.specs.Places.{Agree, AreAdded};
ghost use Rattle.row_packing.specs.Written.{CanBeWritten, IsWritten, ArePacked};

/// A section of a snapshot that has what was chosen and the packed rows is that of the state's rows, can be read, and its layout holds the rows
/// of both states for which it was chosen. Where its fixed words keep their limit it loads.
pub fn written_section()
    ensures is { (shape : Shape) (table : Table) (type_index : ℕ) (chosen : Chosen) (section : Section) → CanBeWritten shape table type_index chosen → IsWritten shape table type_index chosen section → SectionIs shape section (rows_in table type_index) }
    ensures readable { (shape : Shape) (table : Table) (type_index : ℕ) (chosen : Chosen) (section : Section) → CanBeWritten shape table type_index chosen → IsWritten shape table type_index chosen section → IsReadable shape section }
    ensures loads { (shape : Shape) (table : Table) (type_index : ℕ) (chosen : Chosen) (section : Section) → CanBeWritten shape table type_index chosen → IsWritten shape table type_index chosen section → fixed_words shape (layout_of section) (values (rows_in table type_index)) ≤ number_of_limit Words → Loads shape section (rows_in table type_index) }
    ensures holds { (shape : Shape) (table : Table) (type_index : ℕ) (chosen : Chosen) (section : Section) → CanBeWritten shape table type_index chosen → IsWritten shape table type_index chosen section → Holds shape (layout_of section) (rows_in table type_index) }
    ensures holds_before { (shape : Shape) (table : Table) (type_index : ℕ) (chosen : Chosen) (section : Section) (can : CanBeWritten shape table type_index chosen) → IsWritten shape table type_index chosen section → Holds shape (layout_of section) (rows_in can.suits.old type_index) }
{}

/// What is chosen for an old and a new state that agree, within the limits, is chosen for the new and the old one too, and suits each.
pub fn either_way()
    ensures chosen { (shape : Shape) (old new : Table) (type_index : ℕ) (chosen : Chosen) → Agree old new type_index → KeepsCounts shape old new type_index → IsChosen shape old new type_index chosen → IsChosen shape new old type_index chosen }
    ensures suits_new { (shape : Shape) (old new : Table) (type_index : ℕ) (chosen : Chosen) → Agree old new type_index → KeepsCounts shape old new type_index → IsChosen shape old new type_index chosen → Suits shape new type_index chosen }
    ensures suits_old { (shape : Shape) (old new : Table) (type_index : ℕ) (chosen : Chosen) → Agree old new type_index → KeepsCounts shape old new type_index → IsChosen shape old new type_index chosen → Suits shape old type_index chosen }
{}

/// Words and bytes that have the rows under added ordinals packed spell them: place k the row under the k-th ordinal.
pub fn written_places()
    ensures { (shape : Shape) (table : Table) (type_index : ℕ) (chosen : Chosen) (added : List ℕ) (section : Section) (place ordinal : ℕ) (row : Row) → CanBeWritten shape table type_index chosen → AreAdded table type_index added → ArePacked shape table type_index chosen added section → slice_get added place ≡ Some ordinal → row_at table type_index ordinal ≡ Some row → Spells shape section place row }
{}

/// The words and bytes of places are determined by the widths, to the last bit.
pub fn one_packing_of_places()
    ensures { (shape : Shape) (widths : List ℕ) (places : List (Option Row)) (first first' second second' : List ℕ) (areas areas' : List (List ℕ)) → CanPackPlaces shape widths places → AreWords first → AreWords first' → AreWords second → AreWords second' → PacksPlaces shape widths places first second areas → PacksPlaces shape widths places first' second' areas' → (first ≡ first') × (second ≡ second') × (areas ≡ areas') }
{
    object_codec::laws::one_record_packing();
    bucket_codec::laws::one_packing();
}
