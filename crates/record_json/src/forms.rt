//! What the texts of the records of a type have in common, made once for all of them.
ghost use Rattle.std.specs.Prelude.{IfOk};
ghost use Rattle.record_json.specs.Forms.{AreFormsOf};

use json_rows::record_leads;
use schema_model::Model;
use std::alloc::{AllocError, Global};

/// What the texts of the records of a type have in common.
#[derive(Drop)]
pub struct RecordForm {
    /// The fields in byte order of their names: for each the text before its value, with the place of the field. Types of other
    /// kinds than OBJECT have none.
    pub leads: Vec<(String, usize)>,
}

/// The forms of the records of each type of a model, in model order. It fails only where memory is refused.
pub fn record_forms(alloc: Global, model: &Model) -> Result<Vec<RecordForm>, AllocError>
    ensures { IfOk result (λ forms. AreFormsOf model.now forms.items) }
{
    let mut forms = Vec::with_capacity(alloc, model.len() as usize)?;
    for type_index in 0..model.len() {
        let leads = record_leads(alloc, model.schema(type_index))?;
        forms.push(RecordForm { leads })?;
    }
    Ok(forms)
}
