//! What the lines of a type's rows have in common, made once for all of them.
ghost use Rattle.std.specs.Prelude.{List, ◌≡◌, ◌++◌, ◌∷◌, [], codes, IfOk, string_bytes};
ghost use Rattle.json.specs.Print.{quoted as quoted_text};
ghost use Rattle.serde_json.specs.Written.{comma_if};
ghost use Rattle.json_rows.specs.FieldOrder.{IsByteOrder};
ghost use Rattle.json_rows.specs.LineForm.{AreLeads, AreWholeLeads, IsLineForm, places_of};
ghost use Rattle.schema_model.specs.Parts.{shape_fields};
ghost use Rattle.schema_model.specs.declared.schema.Field.{Field};

use crate::order::field_order;
use schema_model::Schema;
use serde_json::Value;
use std::alloc::{AllocError, Global};

/// What the lines of the rows of a type have in common.
#[derive(Drop)]
pub struct LineForm<'a> {
    /// The schema of the type.
    pub schema: &'a Schema,
    /// The fields in byte order of their names: for each the text before its value, which is a comma behind another field,
    /// the name in quotes, and a colon, with the place of the field. Types of other kinds than OBJECT have none.
    pub leads: Vec<(String, usize)>,
    /// The text behind the row: the name of the type, the end of the line's object, and a newline.
    pub end: String,
}

/// What the lines of the rows of a type have in common. It fails only where memory is refused.
pub(crate) fn line_form(alloc: Global, schema: &Schema) -> Result<LineForm<'_>, AllocError>
    ensures formed { IfOk result IsLineForm }
    ensures schema { IfOk result (λ form. form.schema.now ≡ schema.now) }
{
    let order = field_order(alloc, schema)?;
    let leads = leads_of(alloc, order.as_slice())?;
    let end = end_of(alloc, schema.name.text())?;
    Ok(LineForm { schema, leads, end })
}

/// The fields of a type in byte order of their names: for each the text before its value, which is a comma behind another
/// field, the name in quotes, and a colon, with the place of the field. Types of other kinds than OBJECT have none. It fails only
/// where memory is refused.
pub fn record_leads(alloc: Global, schema: &Schema) -> Result<Vec<(String, usize)>, AllocError>
    ensures { IfOk result (λ leads. AreWholeLeads (shape_fields schema.now.shape) leads.items) }
{
    let order = field_order(alloc, schema)?;
    leads_of(alloc, order.as_slice())
}

// The text before the value of each field.
fn leads_of(alloc: Global, order: &[(String, usize)]) -> Result<Vec<(String, usize)>, AllocError>
    ensures leads { IfOk result (λ leads. (fields : List Field) → IsByteOrder fields order.now → AreLeads fields leads.items) }
    ensures places { IfOk result (λ leads. places_of leads.items ≡ places_of order.now) }
{
    let mut leads = Vec::with_capacity(alloc, order.len())?;
    for (index, member) in order.iter().enumerate() {
        leads.push((lead_of(alloc, index > 0, member.0.as_str())?, member.1))?;
    }
    Ok(leads)
}

// The text before the value of a field.
fn lead_of(alloc: Global, later: bool, name: &str) -> Result<String, AllocError>
    ensures { IfOk result (λ lead. string_bytes lead ≡ comma_if later ++ (quoted_text name.now ++ 58 ∷ [])) }
{
    let mut lead = String::new(alloc);
    if later {
        lead.push(',')?;
    }
    lead.push_str(quoted(alloc, name)?.as_str())?;
    lead.push(':')?;
    Ok(lead)
}

// The text behind the row, in a type of this name.
fn end_of(alloc: Global, name: &str) -> Result<String, AllocError>
    ensures { IfOk result (λ end. string_bytes end ≡ codes ",\"type\":" ++ (quoted_text name.now ++ codes "}\n")) }
{
    let mut end = String::from_str(alloc, ",\"type\":")?;
    end.push_str(quoted(alloc, name)?.as_str())?;
    end.push_str("}\n")?;
    Ok(end)
}

// A text in quotes, escaped as JSON asks.
fn quoted(alloc: Global, text: &str) -> Result<String, AllocError>
    ensures { IfOk result (λ quoted. string_bytes quoted ≡ quoted_text text.now) }
{
    Value::String(String::from_str(alloc, text)?).to_string(alloc)
}
