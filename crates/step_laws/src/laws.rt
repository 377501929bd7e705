//! Laws of loads and steps.
ghost use Rattle.std.specs.Prelude.{◌≡◌, ◌↔◌, ℕ, ℤ, List, Option, Some, IfSome};
ghost use Rattle.hol_io.specs.declared.name.BlobName.{BlobName};
ghost use Rattle.row_model.specs.Table.{Table};
ghost use Rattle.blob_grammar.specs.Decided.{AreBytes};
ghost use Rattle.blob_frame.specs.declared.fault.BlobFault.{BlobFault};
ghost use Rattle.read_engine.specs.Judged.{RefusesLoad, RefusesStep, step_of};
ghost use Rattle.read_engine.specs.Position.{IsPosition, Position};
ghost use Rattle.read_engine.specs.Taking.{LoadsFrom, StepsBy};
ghost use Rattle.step_laws.specs.Leads.{LeadsTo};
ghost use Rattle.step_laws.specs.Typed.{HasTypes};

/// Where a consumer stands it has a model, and a half for each type, whichever blobs led there.
pub fn typed()
    ensures position { (position : Position) → IsPosition position → HasTypes position }
    ensures load { (blob : List ℕ) (position : Position) → LoadsFrom blob position → HasTypes position }
    ensures step { (blob : List ℕ) (from to : Position) → HasTypes from → StepsBy blob from to → HasTypes to }
{}

/// A blob that is loaded leads to a position, with closed tables of its model, and one that is stepped along from a position leads to one, wherever the blobs
/// came from.
pub fn positions()
    ensures load { (blob : List ℕ) (position : Position) → LoadsFrom blob position → IsPosition position }
    ensures step { (blob : List ℕ) (from to : Position) → IsPosition from → StepsBy blob from to → IsPosition to }
{}

/// What is tried of the bytes of a step passes, with a tag and rows, exactly where they lead the position to another one with this tag and these
/// rows.
pub fn step_passes()
    ensures { (blob : List ℕ) (from : Position) (tag : ℤ) (rows : Table) → HasTypes from → (step_of blob from).Passes (tag, rows) ↔ LeadsTo blob from tag rows }
{}

/// That what a name holds, which are bytes, is loaded to no position and has no fault cannot be.
pub fn some_load_fault()
    ensures { (name : BlobName) (content : Option (List ℕ)) → IfSome content AreBytes
        → ((blob : List ℕ) (position : Position) → content ≡ Some blob → LoadsFrom blob position → ⊥) → ((found : BlobFault) → RefusesLoad name content found → ⊥) → ⊥ }
{}

/// That what a name holds, which are bytes, leads a position nowhere and has no fault as a step cannot be.
pub fn some_step_fault()
    ensures { (name : BlobName) (content : Option (List ℕ)) (from : Position) → HasTypes from → IfSome content AreBytes
        → ((blob : List ℕ) (to : Position) → content ≡ Some blob → StepsBy blob from to → ⊥) → ((found : BlobFault) → RefusesStep name content from found → ⊥) → ⊥ }
{}
