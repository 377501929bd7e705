//! When two trees are both values, and the same.
ghost use Rattle.std.specs.Prelude.{◌≡◌, ◌↔◌, IsTrue};
ghost use Rattle.row_model.specs.PlainTree.{IsLeafAnd};
ghost use Rattle.row_model.specs.Row.{stored_value};
ghost use Rattle.record_trees.specs.Tree.{plain};
ghost use Rattle.row_model.specs.declared.row.Value.{Value};

use crate::Tree;

/// Whether both are values, and the same once the least INT and LONG count as null.
pub(crate) fn same_value(tree: &Tree, other: &Tree) -> bool
    ensures { IsTrue result ↔ IsLeafAnd (plain tree.now) (λ value. IsLeafAnd (plain other.now) (λ value'. stored_value value ≡ stored_value value')) }
{
    match (tree, other) {
        (Tree::Int(number), Tree::Int(another)) => number == another,
        (Tree::Long(number), Tree::Long(another)) => number == another,
        (Tree::Bool(flag), Tree::Bool(another)) => flag == another,
        (Tree::Text(units), Tree::Text(others)) => units == others,
        (Tree::Bytes(bytes), Tree::Bytes(others)) => bytes == others,
        _ => is_nothing(tree) && is_nothing(other),
    }
}

// Whether the tree is null, or a number that counts as null.
fn is_nothing(tree: &Tree) -> bool
    ensures { IsTrue result ↔ IsLeafAnd (plain tree.now) (λ value. stored_value value ≡ Value.Null) }
{
    match tree {
        Tree::Null => true,
        Tree::Int(number) => *number == i32::MIN,
        Tree::Long(number) => *number == i64::MIN,
        _ => false,
    }
}
