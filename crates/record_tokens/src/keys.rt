//! Whether the keys of a map are apart.
ghost use Rattle.std.specs.Prelude.{◌↔◌, Any, IsTrue, map};
ghost use Rattle.row_model.specs.PlainTree.{SameTree, pairs_of_list};
ghost use Rattle.record_trees.specs.Tree.{plain, plain_pair};
ghost use Rattle.record_trees.specs.FitsTree.{AreKeysApart};

use record_trees::{Tree, same_tree};

/// Whether no two keys are the same record. Each key is compared with those of the pairs behind it.
pub(crate) fn are_keys_apart(pairs: &[(Tree, Tree)]) -> bool
    ensures { IsTrue result ↔ AreKeysApart (pairs_of_list (map plain_pair pairs.now)) }
{
    for (place, pair) in pairs.iter().enumerate() {
        if is_key_among(&pair.0, &pairs[place + 1..]) {
            return false;
        }
    }
    true
}

// Whether the key is the same record as that of some pair.
fn is_key_among(key: &Tree, pairs: &[(Tree, Tree)]) -> bool
    ensures { IsTrue result ↔ Any (λ pair. SameTree (plain key.now) pair.0) (map plain_pair pairs.now) }
{
    for pair in pairs {
        if same_tree(key, &pair.0) {
            return true;
        }
    }
    false
}
