//! The members of a record that are values, and which members are fields.
ghost use Rattle.std.specs.Prelude.{◌≡◌, Ok};
ghost use Rattle.serde_json.specs.View.{view, members_view};
ghost use Rattle.closed_rows.specs.Dangling.{IsPlain};
ghost use Rattle.row_model.specs.PlainTree.{leaf};
ghost use Rattle.record_trees.specs.Tree.{plain};
ghost use Rattle.record_json.specs.ReadTree.{TellsAs, are_fields, is_field, made};
ghost use Rattle.json_values.specs.ReadValue.{read_value};

use json_values::{ValueFault, value_from};
use record_trees::Tree;
use row_model::Value as FieldValue;
use schema_model::{Field, FieldKind};
use serde_json::{Map, Value};
use std::alloc::Global;

/// The value of a field of a kind without a reference, as a tree.
pub fn value_tree(alloc: Global, kind: &FieldKind, value: &Value) -> Result<Tree, ValueFault>
    requires plain { IsPlain kind.now }
    ensures { TellsAs plain (made leaf (read_value kind.now (view value.now))) result }
{
    match value_from(alloc, kind, value)? {
        FieldValue::Null => Ok(Tree::Null),
        FieldValue::Int(number) => Ok(Tree::Int(number)),
        FieldValue::Long(number) => Ok(Tree::Long(number)),
        FieldValue::Bool(flag) => Ok(Tree::Bool(flag)),
        FieldValue::Text(units) => Ok(Tree::Text(units)),
        FieldValue::Bytes(bytes) => Ok(Tree::Bytes(bytes)),
        FieldValue::Ref(_) => unreachable!(),
    }
}

/// Whether each member of an object is a field.
pub(crate) fn are_all_fields(fields: &[Field], members: &Map<String, Value>) -> bool
    ensures { result ≡ are_fields fields.now (members_view members.now.entries) }
{
    members
        .keys()
        .all(|name| is_field_name(fields, name.as_str()))
}

// Whether a field has this name.
fn is_field_name(fields: &[Field], name: &str) -> bool
    ensures { result ≡ is_field fields.now name.now }
{
    fields.iter().any(|field| field.name.text() == name)
}
