//! Laws of what is written: wherever the bytes of a part stand, they are read as what was written; and a blob is written in one way.
ghost use Rattle.std.specs.Prelude.{◌≡◌, ◌+◌, ◌++◌, ◌<◌, ◌^◌, ℕ, ℤ, List, Option, All, length};
ghost use Rattle.std.specs.List.Sorted.{IsStrictlyIncreasing};
ghost use Rattle.std.specs.Str.{IsUtf8};
ghost use Rattle.ordinal_set.specs.Gaps.{Gaps, gap_bytes};
ghost use Rattle.ordinal_set.specs.Population.{IsPopulation};
ghost use Rattle.schema_model.specs.declared.schema.Schema.{Schema};
ghost use Rattle.schema_model.specs.declared.schema.Shape.{Shape};
ghost use Rattle.schema_model.specs.Model.{IsModel};
ghost use Rattle.schema_model.specs.Schema.{EachName, IsSpellable};
ghost use Rattle.row_model.specs.Table.{IsTableOf, Table};
ghost use Rattle.row_packing.specs.States.{AreWritable};
ghost use Rattle.type_rows.specs.Layout.{places_of};
ghost use Rattle.blob_frame.specs.Item.{counted_run};
ghost use Rattle.blob_sections.specs.declared.section.PackedRows.{PackedRows};
ghost use Rattle.blob_sections.specs.Head.{type_head};
ghost use Rattle.blob_sections.specs.Population.{population};
ghost use Rattle.blob_sections.specs.Section.{max_ordinal, packed_rows};
ghost use Rattle.delta_blob.specs.Parts.{delta};
ghost use Rattle.blob_writing.specs.Carried.{IsMax, AreCarried};
ghost use Rattle.blob_writing.specs.Changes.{IsDeltaBetween};
ghost use Rattle.blob_writing.specs.Delta.{TypeChange, IsWrittenDelta, header_of, parts_of};
ghost use Rattle.blob_writing.specs.Snapshot.{IsWrittenSnapshot};
ghost use Rattle.blob_writing.specs.Written.{max_bytes, packed_bytes, type_head_bytes, area_bytes};

use row_packing::laws;

/// The bytes of a max ordinal are read as it.
pub fn written_max()
    ensures { (max : Option ℕ) (before behind : List ℕ) → IsMax max
        → max_ordinal.Stands (before ++ max_bytes max ++ behind) (length before) max (length before + length (max_bytes max)) }
{}

/// The bytes of packed rows are read as them, where they have what their kind has and enough words for the places up to the
/// max ordinal.
pub fn written_packed()
    ensures { (shape : Shape) (max : Option ℕ) (rows : PackedRows) (before behind : List ℕ) → AreCarried shape max (places_of max) rows
        → (packed_rows shape max).Stands (before ++ packed_bytes shape rows ++ behind) (length before) rows (length before + length (packed_bytes shape rows)) }
{}

/// The bytes of the head of a type are read as its schema, with the offset at which they stand.
pub fn written_head()
    ensures { (schema : Schema) (before behind : List ℕ) → IsSpellable schema → EachName IsUtf8 schema
        → type_head.Stands (before ++ type_head_bytes schema ++ behind) (length before) (record { at = length before; schema = schema })
        (length before + length (type_head_bytes schema)) }
{}

/// The bytes of a population are read as its set.
pub fn written_population()
    ensures { (set : List ℕ) (max : Option ℕ) (bytes before behind : List ℕ) → IsMax max → IsPopulation set max bytes
        → population.Stands (before ++ bytes ++ behind) (length before) set (length before + length bytes) }
{}

/// The bytes of the ordinals that a delta removes or adds are read as a run of bytes, which are the gaps of the list.
pub fn written_ordinals()
    ensures run { (list before behind : List ℕ) → length (gap_bytes list) < 2 ^ 64
        → counted_run.Stands (before ++ area_bytes (gap_bytes list) ++ behind) (length before) (gap_bytes list) (length before + length (area_bytes (gap_bytes list))) }
    ensures gaps { (list : List ℕ) → IsStrictlyIncreasing list → All (λ ordinal. ordinal < 2 ^ 32) list → Gaps (gap_bytes list) list }
{}

/// The bytes that are written of a delta are read as one with its tags, the schemas of the changed types, and their changes.
pub fn written_delta()
    ensures { (blob : List ℕ) (origin destination : ℤ) (changes : List TypeChange) → IsWrittenDelta blob origin destination changes
        → delta.Stands blob 0 (header_of origin destination changes, parts_of origin destination changes) (length blob) }
{}

/// A snapshot of the same states, between the same tags, is written in one way.
pub fn one_written_snapshot()
    ensures { (schemas : List Schema) (old new : Table) (origin destination : ℤ) (one another : List ℕ) → IsModel schemas → AreWritable schemas old new
        → IsWrittenSnapshot schemas old new origin destination one → IsWrittenSnapshot schemas old new origin destination another → one ≡ another }
{
    laws::one_packing_of_places();
}

/// A delta between the same states and tags is written in one way.
pub fn one_written_delta()
    ensures { (schemas : List Schema) (old new : Table) (origin destination : ℤ) (one another : List ℕ) → IsModel schemas → AreWritable schemas old new
        → IsDeltaBetween schemas old new origin destination one → IsDeltaBetween schemas old new origin destination another → one ≡ another }
{
    laws::one_packing_of_places();
}

/// There is a snapshot of each two states that can be laid out together, between any tags.
pub fn snapshot_exists()
    ensures { (schemas : List Schema) (old new : Table) (origin destination : ℤ) → IsModel schemas → IsTableOf schemas old → IsTableOf schemas new → AreWritable schemas old new
        → (blob : List ℕ) × IsWrittenSnapshot schemas old new origin destination blob }
{}

/// There is a delta between each two states that can be laid out together, between any tags.
pub fn delta_exists()
    ensures { (schemas : List Schema) (old new : Table) (origin destination : ℤ) → IsModel schemas → IsTableOf schemas old → IsTableOf schemas new → AreWritable schemas old new
        → (blob : List ℕ) × IsDeltaBetween schemas old new origin destination blob }
{}
