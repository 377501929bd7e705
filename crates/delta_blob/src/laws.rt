//! Laws of deltas: the bytes allow one reading alone, and a blob has one fault at most.
ghost use Rattle.std.specs.Prelude.{◌≡◌, ◌↔◌, ℕ, ℤ, List, Option, length};
ghost use Rattle.row_model.specs.Table.{Table};
ghost use Rattle.schema_model.specs.declared.reason.Reason.{Reason};
ghost use Rattle.schema_model.specs.declared.schema.Schema.{Schema};
ghost use Rattle.schema_model.specs.declared.schema.Shape.{Shape};
ghost use Rattle.schema_model.specs.Model.{IsModel};
ghost use Rattle.type_rows.specs.Layout.{places_of};
ghost use Rattle.blob_grammar.specs.Decided.{EachPlace, IsDecided};
ghost use Rattle.blob_frame.specs.declared.fault.BlobFault.{BlobFault};
ghost use Rattle.blob_frame.specs.declared.header.Header.{Header};
ghost use Rattle.blob_frame.specs.Header.{HeaderIs};
ghost use Rattle.blob_sections.specs.declared.section.PackedRows.{PackedRows};
ghost use Rattle.blob_sections.specs.Section.{packed_rows};
ghost use Rattle.delta_blob.specs.Added.{added_rows};
ghost use Rattle.delta_blob.specs.declared.part.DeltaPart.{DeltaPart};
ghost use Rattle.delta_blob.specs.declared.patch.PatchPart.{PatchPart};
ghost use Rattle.delta_blob.specs.Judged.{delta_of, patch_of};
ghost use Rattle.delta_blob.specs.Parts.{body, delta};
ghost use Rattle.delta_blob.specs.Patch.{DeltaIs, TypePatch};
ghost use Rattle.delta_blob.specs.Reads.{IsPatchAt};
ghost use Rattle.delta_blob.specs.Within.{KeepItems, Within};

/// At each place a delta's types stand in one way at most, reading them is stuck at one place at most and for one reason,
/// and never both; so it is with the whole of a delta.
pub fn one_delta()
    ensures body { IsDecided body.Stands body.Stuck }
    ensures delta { IsDecided delta.Stands delta.Stuck }
{}

/// A delta stands at each place of each blob, or reading it is stuck; so it is with its types.
pub fn each_place()
    ensures body { EachPlace body.Stands body.Stuck }
    ensures delta { EachPlace delta.Stands delta.Stuck }
{}

/// A header at the start of a blob and the types behind it, up to the end of the blob, are a delta; and a delta begins with its header, behind
/// which its types stand.
pub fn header_and_body()
    ensures items { (blob : List ℕ) (head : Header) (behind : ℕ) (parts : List DeltaPart) → HeaderIs blob behind head → body.Stands blob behind parts (length blob)
        → delta.Stands blob 0 (head, parts) (length blob) }
    ensures begins { (schemas : List Schema) (blob : List ℕ) (origin destination : ℤ) (patch : List TypePatch) → (is : DeltaIs schemas blob origin destination patch)
        → (behind : ℕ) × HeaderIs blob behind is.head × body.Stands blob behind is.parts (length blob) }
{}

/// Behind the header of a blob that is a delta against a model, within the limits of a table, stand types of the model, as `read_patch` answers
/// them.
pub fn parts_of_model()
    ensures { (schemas : List Schema) (blob : List ℕ) (origin destination : ℤ) (patch : List TypePatch) (table : Table) → (is : DeltaIs schemas blob origin destination patch)
        → Within table patch → KeepItems schemas is.parts → (behind : ℕ) × HeaderIs blob behind is.head × ((named : List PatchPart) × IsPatchAt blob behind schemas named) }
{}

/// Types that stand in a blob are those of a model exactly where what is tried of them passes.
pub fn patch_passes()
    ensures { (schemas : List Schema) → IsModel schemas → (blob : List ℕ) (at : ℕ) (named : List PatchPart)
        → IsPatchAt blob at schemas named ↔ (patch_of blob at schemas).Passes named }
{}

/// What is tried of a blob against a model fails with one fault at most, and with none where it passes: so it is with the types from a place on, and
/// with the whole of a delta.
pub fn one_fault()
    ensures once { (blob : List ℕ) (schemas : List Schema) (a b : BlobFault)
        → ((at : ℕ) → (patch_of blob at schemas).Fails a → (patch_of blob at schemas).Fails b → a ≡ b)
        × ((current : ℤ) → (delta_of blob current schemas).Fails a → (delta_of blob current schemas).Fails b → a ≡ b) }
    ensures apart { (blob : List ℕ) (schemas : List Schema) (named : List PatchPart) (found : BlobFault)
        → ((at : ℕ) → (patch_of blob at schemas).Passes named → (patch_of blob at schemas).Fails found → ⊥)
        × ((current : ℤ) (head : Header) → (delta_of blob current schemas).Passes (head, named) → (delta_of blob current schemas).Fails found → ⊥) }
{}

/// With as many places as there are ordinals up to the max ordinal, the packed rows of a delta are those of a snapshot.
pub fn same_packed_rows()
    ensures stands { (shape : Shape) (max : Option ℕ) (bytes : List ℕ) (at : ℕ) (rows : PackedRows) (next : ℕ)
        → (added_rows shape max (places_of max)).Stands bytes at rows next ↔ (packed_rows shape max).Stands bytes at rows next }
    ensures stuck { (shape : Shape) (max : Option ℕ) (bytes : List ℕ) (at place : ℕ) (why : Reason)
        → (added_rows shape max (places_of max)).Stuck bytes at place why ↔ (packed_rows shape max).Stuck bytes at place why }
{}
