//! Records of types without references, each as its row from its tokens.
ghost use Rattle.std.specs.Prelude.{◌≡◌, All, IfOk, List, Result, Some, Ok, replicate};
ghost use Rattle.json.specs.Reads.{token_of};
ghost use Rattle.serde_json.specs.Data.{Data};
ghost use Rattle.schema_model.specs.Parts.{field_names};
ghost use Rattle.schema_model.specs.declared.reason.Reason.{Reason};
ghost use Rattle.schema_model.specs.declared.schema.name.Name.{Name as SpecName};
ghost use Rattle.closed_rows.specs.Dangling.{IsPlain};
ghost use Rattle.row_model.specs.PlainTree.{PlainTree, object, trees_of_list};
ghost use Rattle.row_model.specs.Row.{IsValueInRange, stored_value};
ghost use Rattle.row_model.specs.declared.row.Value.{Value as RowValue};
ghost use Rattle.json_values.specs.ReadValue.{read_value};
ghost use Rattle.record_json.specs.NamesApart.{AreNamesApart};
ghost use Rattle.record_json.specs.ReadTree.{read_members};
ghost use Rattle.record_trees.specs.Rows.{AreStoredOf};
ghost use Rattle.record_tokens.specs.Taken.{TakesMembers, scalar};

use crate::leaf::value_of;
use crate::tree::place_of;
use crate::unread::Unread;
use hol_varint::units_of;
use json::{Reader, Token};
use json_values::{ValueFault, value_from};
use row_model::{Value, Values};
use schema_model::{Field, FieldKind};
use std::alloc::{AllocError, Global};

/// The values of a record as a blob holds them, each in its slot, whatever the order of the members. A field that is missing is null, and of a member
/// that is given twice the last one counts.
pub(crate) fn values_ahead(
    alloc: Global,
    fields: &[Field],
    reader: &mut Reader<'_>,
    nest: usize,
) -> Result<Values, Unread>
    requires names { AreNamesApart (field_names fields.now) }
    requires plain { All (λ field. IsPlain field.kind) fields.now }
    ensures { IfOk result (λ values. (trees : List PlainTree) × AreStoredOf trees values
        × ((follow : SpecName → Data → Result PlainTree Reason) → TakesMembers (read_members follow fields.now) nest reader.old (object (trees_of_list trees)) reader.new)) }
{
    let mut slots = null_values(alloc, fields.len())?;
    let mut from = 0;
    'members: while let Some(name) = reader.next_key()? {
        let Some(place) = place_of(fields, from, name) else {
            return Err(Unread::Other);
        };
        let token = reader.next().ok_or(Unread::Other)?;
        let value = stored_leaf(alloc, &fields[place].kind, token)?;
        slots[place] = value;
        from = place + 1;
    }
    Ok(Values::from_vec(slots))
}

// So many slots with nothing in them.
fn null_values(alloc: Global, count: usize) -> Result<Vec<Value>, AllocError>
    ensures { IfOk result (λ slots. slots.items ≡ replicate count RowValue.Null) }
{
    let mut slots = Vec::with_capacity(alloc, count)?;
    'filling: while slots.len() < count {
        slots.push(Value::Null)?;
    }
    Ok(slots)
}

// The value of a field of a kind without a reference, from its token, as a blob holds it.
fn stored_leaf(alloc: Global, kind: &FieldKind, token: Token<'_>) -> Result<Value, Unread>
    requires plain { IsPlain kind.now }
    ensures { IfOk result (λ value. (json : Data) × (found : RowValue) × (scalar (token_of token.entry) ≡ Some json) × (read_value kind.now json ≡ Ok found)
        × IsValueInRange found × (value ≡ stored_value found)) }
{
    Ok(leaf_value(alloc, kind, token)?.stored())
}

// The value of a field of a kind without a reference, from its token, as it is read. A text goes into it at once.
fn leaf_value(alloc: Global, kind: &FieldKind, token: Token<'_>) -> Result<Value, Unread>
    requires plain { IsPlain kind.now }
    ensures read { IfOk result (λ value. (json : Data) × (scalar (token_of token.entry) ≡ Some json) × (read_value kind.now json ≡ Ok value)) }
    ensures range { IfOk result IsValueInRange }
{
    if let (FieldKind::Text, Token::String(text)) = (kind, token) {
        return Ok(Value::Text(units_of(alloc, text)?));
    }
    match value_from(alloc, kind, &value_of(alloc, token)?) {
        Ok(value) => Ok(value),
        Err(ValueFault::Field(_)) => Err(Unread::Other),
        Err(ValueFault::Memory) => Err(Unread::Memory),
    }
}
