//! The values of fields, each from its token.
ghost use Rattle.std.specs.Prelude.{◌≡◌, Ok, Some, IfOk};
ghost use Rattle.json.specs.Reads.{token_of};
ghost use Rattle.serde_json.specs.Data.{Data};
ghost use Rattle.serde_json.specs.View.{view};
ghost use Rattle.closed_rows.specs.Dangling.{IsPlain};
ghost use Rattle.row_model.specs.PlainTree.{leaf};
ghost use Rattle.record_trees.specs.Tree.{plain};
ghost use Rattle.json_values.specs.ReadValue.{read_value};
ghost use Rattle.record_json.specs.ReadTree.{made};
ghost use Rattle.record_tokens.specs.Taken.{scalar};

use crate::unread::Unread;
use hol_varint::units_of;
use json::Token;
use json_values::ValueFault;
use record_json::value_tree;
use record_stream::parse_number;
use record_trees::Tree;
use schema_model::FieldKind;
use serde_json::Value;
use std::alloc::Global;

/// The value of a field of a kind without a reference, as a tree. A text goes into it at once.
pub(crate) fn leaf_tree(alloc: Global, kind: &FieldKind, token: Token<'_>) -> Result<Tree, Unread>
    requires plain { IsPlain kind.now }
    ensures { IfOk result (λ tree. (json : Data) × (scalar (token_of token.entry) ≡ Some json) × (made leaf (read_value kind.now json) ≡ Ok (plain tree))) }
{
    match (kind, token) {
        (FieldKind::Text, Token::String(text)) => Ok(Tree::Text(units_of(alloc, text)?)),
        (kind, token) => value_leaf(alloc, kind, &value_of(alloc, token)?),
    }
}

// The value of a field of a kind without a reference, as a tree, from a JSON value.
fn value_leaf(alloc: Global, kind: &FieldKind, value: &Value) -> Result<Tree, Unread>
    requires plain { IsPlain kind.now }
    ensures { IfOk result (λ tree. made leaf (read_value kind.now (view value.now)) ≡ Ok (plain tree)) }
{
    match value_tree(alloc, kind, value) {
        Ok(tree) => Ok(tree),
        Err(ValueFault::Field(_)) => Err(Unread::Other),
        Err(ValueFault::Memory) => Err(Unread::Memory),
    }
}

/// The value that a token is by itself.
pub(crate) fn value_of(alloc: Global, token: Token<'_>) -> Result<Value, Unread>
    ensures { IfOk result (λ value. scalar (token_of token.entry) ≡ Some (view value)) }
{
    match token {
        Token::String(text) => Ok(Value::String(String::from_str(alloc, text)?)),
        Token::Number(text) => match parse_number(text) {
            Some(number) => Ok(Value::Number(number)),
            None => Err(Unread::Other),
        },
        Token::Bool(flag) => Ok(Value::Bool(flag)),
        Token::Null => Ok(Value::Null),
        _ => Err(Unread::Other),
    }
}
