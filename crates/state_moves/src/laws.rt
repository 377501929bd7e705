//! Laws of moving a state: a refusal has its fault.
ghost use Rattle.std.specs.Prelude.{ℕ, List, All};
ghost use Rattle.schema_model.specs.declared.schema.Schema.{Schema};
ghost use Rattle.row_model.specs.Table.{Table};
ghost use Rattle.blob_frame.specs.declared.fault.BlobFault.{BlobFault};
ghost use Rattle.delta_blob.specs.declared.patch.PatchPart.{PatchPart};
ghost use Rattle.delta_blob.specs.Reads.{IsWholePart};
ghost use Rattle.state_moves.specs.Judged.{state_moved};

/// That the parts of a patch, which can be read, do not move a table and have no fault cannot be.
pub fn some_fault()
    ensures { (schemas : List Schema) (parts : List PatchPart) (size : ℕ) (table : Table) → All (IsWholePart schemas) parts
        → ((moved : Table) → (state_moved schemas parts size table).Passes moved → ⊥) → ((fault : BlobFault) → (state_moved schemas parts size table).Fails fault → ⊥) → ⊥ }
{}
