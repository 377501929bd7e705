//! When two trees are the same record.
ghost use Rattle.std.specs.Prelude.{◌↔◌, All, IsTrue, map};
ghost use Rattle.row_model.specs.PlainTree.{SameTree, SameTrees, EachAmong, IsAmongTrees, EachPairAmong, IsAmongPairs, trees_of_list, pairs_of_list};
ghost use Rattle.record_trees.specs.Tree.{plain, plain_pair};

use crate::Tree;
use crate::values::same_value;

/// Whether two trees are the same record: the least INT and LONG count as null, sets are compared without order and
/// repeats, and maps without order. It takes no memory. Each element of a set, and each pair of a map, is compared with
/// those of the other one until one is the same.
#[cycle(same)]
pub fn same_tree(tree: &Tree, other: &Tree) -> bool
    ensures { IsTrue result ↔ SameTree (plain tree.now) (plain other.now) }
{
    match (tree, other) {
        (Tree::Object(parts), Tree::Object(others)) => same_trees(
            parts.as_slice(),
            others.as_slice(),
        ),
        (Tree::List(parts), Tree::List(others)) => same_trees(parts.as_slice(), others.as_slice()),
        (Tree::Set(parts), Tree::Set(others)) => {
            each_among(parts.as_slice(), others.as_slice())
                && all_among(parts.as_slice(), others.as_slice())
        }
        (Tree::Map(pairs), Tree::Map(others)) => {
            each_pair_among(pairs.as_slice(), others.as_slice())
                && all_pairs_among(pairs.as_slice(), others.as_slice())
        }
        _ => same_value(tree, other),
    }
}

// Whether they are as many, and the same one by one.
#[cycle(same)]
fn same_trees(parts: &[Tree], others: &[Tree]) -> bool
    ensures { IsTrue result ↔ SameTrees (trees_of_list (map plain parts.now)) (map plain others.now) }
{
    if parts.len() != others.len() {
        return false;
    }
    for (place, part) in parts.iter().enumerate() {
        if !same_tree(part, &others[place]) {
            return false;
        }
    }
    true
}

// Whether each tree is the same as one of the others.
#[cycle(same)]
fn each_among(parts: &[Tree], others: &[Tree]) -> bool
    ensures { IsTrue result ↔ EachAmong (trees_of_list (map plain parts.now)) (map plain others.now) }
{
    'parts: for part in parts {
        'others: for other in others {
            if same_tree(part, other) {
                continue 'parts;
            }
        }
        return false;
    }
    true
}

// Whether one of the trees is the same as each other one.
#[cycle(same)]
fn all_among(parts: &[Tree], others: &[Tree]) -> bool
    ensures { IsTrue result ↔ All (IsAmongTrees (trees_of_list (map plain parts.now))) (map plain others.now) }
{
    'others: for other in others {
        'parts: for part in parts {
            if same_tree(part, other) {
                continue 'others;
            }
        }
        return false;
    }
    true
}

// Whether each pair is the same as one of the others.
#[cycle(same)]
fn each_pair_among(pairs: &[(Tree, Tree)], others: &[(Tree, Tree)]) -> bool
    ensures { IsTrue result ↔ EachPairAmong (pairs_of_list (map plain_pair pairs.now)) (map plain_pair others.now) }
{
    'pairs: for pair in pairs {
        'others: for other in others {
            if same_tree(&pair.0, &other.0) && same_tree(&pair.1, &other.1) {
                continue 'pairs;
            }
        }
        return false;
    }
    true
}

// Whether one of the pairs is the same as each other one.
#[cycle(same)]
fn all_pairs_among(pairs: &[(Tree, Tree)], others: &[(Tree, Tree)]) -> bool
    ensures { IsTrue result ↔ All (IsAmongPairs (pairs_of_list (map plain_pair pairs.now))) (map plain_pair others.now) }
{
    'others: for other in others {
        'pairs: for pair in pairs {
            if same_tree(&pair.0, &other.0) && same_tree(&pair.1, &other.1) {
                continue 'others;
            }
        }
        return false;
    }
    true
}
