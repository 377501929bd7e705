//! The model that two states share.
ghost use Rattle.std.specs.Prelude.{◌≡◌};
ghost use Rattle.schema_model.specs.Model.{IsModel};
ghost use Rattle.row_model.specs.Table.{IsTableOf};

use row_model::Rows;
use schema_model::Model;

/// The model of two states that have the same one. The rows of both are rows of its types.
pub(crate) fn shared_model<'a, A: Rows, B: Rows>(old: &A, new: &'a B) -> &'a Model
    requires { A.schemas old.now ≡ B.schemas new.now }
    ensures model { result.now ≡ B.schemas new.now }
    ensures sound { IsModel (B.schemas new.now) }
    ensures before { IsTableOf (B.schemas new.now) (A.table old.now) }
    ensures after { IsTableOf (B.schemas new.now) (B.table new.now) }
{
    old.model();
    let model = new.model();
    model.schemas();
    model
}
