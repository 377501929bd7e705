//! Laws of what a consumer takes.
ghost use Rattle.std.specs.Prelude.{◌≡◌, ℕ, List};
ghost use Rattle.schema_model.specs.Model.{IsKept};
ghost use Rattle.blob_frame.specs.declared.fault.BlobFault.{BlobFault};
ghost use Rattle.snapshot_blob.specs.Judged.{snapshot_of};
ghost use Rattle.read_engine.specs.Judged.{step_of};
ghost use Rattle.read_engine.specs.Position.{IsPosition, Position};
ghost use Rattle.read_engine.specs.Taking.{LoadsFrom, StepsBy};

use schema_model::Rule;
use snapshot_blob::laws;

/// A blob is loaded to one position at most.
pub fn one_loaded_position()
    ensures { (blob : List ℕ) (a b : Position) → LoadsFrom blob a → LoadsFrom blob b → a ≡ b }
{
    laws::one_snapshot();
}

/// A blob that is loaded, or that moves a consumer, has no fault.
pub fn taken_or_fault()
    ensures load { (blob : List ℕ) (position : Position) (found : BlobFault) → LoadsFrom blob position → (snapshot_of blob).Fails found → ⊥ }
    ensures step { (blob : List ℕ) (from to : Position) (found : BlobFault) → IsKept from.schemas Rule.DuplicateName → StepsBy blob from to → (step_of blob from).Fails found → ⊥ }
{}

/// A delta leads from a position to one position at most.
pub fn one_stepped_position()
    ensures { (blob : List ℕ) (from a b : Position) → IsPosition from → StepsBy blob from a → StepsBy blob from b → a ≡ b }
{}
