//! The values of a record's fields.
ghost use Rattle.std.specs.Prelude.{◌≡◌, ◌<◌, ◌^◌, All, IfOk};
ghost use Rattle.record_trees.specs.Tree.{plain};
ghost use Rattle.write_engine.specs.Leaf.{TellsLeaf};

use hol_varint::{Duplicate, Units};
use record_trees::Tree;
use row_model::Value;
use std::alloc::{AllocError, Global};

/// The value that a tree is, as a blob holds it: the least INT and LONG are null. `None` where the tree is a row.
pub(crate) fn leaf_value(alloc: Global, tree: &Tree) -> Result<Option<Value>, AllocError>
    ensures { IfOk result (TellsLeaf (plain tree.now)) }
{
    match tree {
        Tree::Null => Ok(Some(Value::Null)),
        Tree::Int(number) => Ok(Some(Value::Int(*number).stored())),
        Tree::Long(number) => Ok(Some(Value::Long(*number).stored())),
        Tree::Bool(flag) => Ok(Some(Value::Bool(*flag))),
        Tree::Text(units) => Ok(Some(text_value(alloc, units.as_slice())?)),
        Tree::Bytes(bytes) => Ok(Some(Value::Bytes(bytes.copy(alloc)?))),
        _ => Ok(None),
    }
}

fn text_value(alloc: Global, units: &[u16]) -> Result<Value, AllocError>
    ensures value { IfOk result (λ value. value ≡ Value.Text units.now) }
    ensures range { All (λ unit. unit < 2 ^ 16) units.now }
{
    Ok(Value::Text(Units::from_vec(Vec::from_slice(alloc, units)?)))
}
