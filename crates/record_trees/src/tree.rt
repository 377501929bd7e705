//! Records with all that they refer to, as orders give them.
ghost use Rattle.std.specs.Prelude.{◌≡◌, ◌<◌, ◌++◌, ◌∷◌, [], length, slice_get, Some, IsTrue, ◌↔◌, OnOk, OnErr};
ghost use Rattle.record_trees.specs.Tree.{trees, tree_pairs};

use hol_varint::{Octets, Units};
use std::alloc::{AllocError, Global};

/// A record with all that it refers to, as an order gives it: no ordinals.
#[cycle(trees)]
#[derive(Drop)]
pub enum Tree {
    /// Nothing, in a field of any kind.
    Null,
    /// The value of an INT.
    Int(i32),
    /// The value of a LONG.
    Long(i64),
    /// The value of a BOOLEAN.
    Bool(bool),
    /// The UTF-16 units of a STRING.
    Text(Units),
    /// The bytes of a BYTES.
    Bytes(Octets),
    /// A record: one tree for each field of the type.
    Object(Trees),
    /// The elements of a list, in their order.
    List(Trees),
    /// The elements of a set, in any order; equal ones count once.
    Set(Trees),
    /// The keys and values of a map, in any order.
    Map(TreePairs),
}

/// Trees, in their order.
#[cycle(trees)]
#[derive(Drop)]
pub struct Trees {
    items: Vec<Tree>,
}

/// Pairs of trees: a key of a map and its value.
#[cycle(trees)]
#[derive(Drop)]
pub struct TreePairs {
    items: Vec<(Tree, Tree)>,
}

impl Trees {
    /// The empty list. It takes no memory.
    pub fn new(alloc: Global) -> Self
        ensures { trees result ≡ [] }
    {
        Trees {
            items: Vec::new(alloc),
        }
    }

    /// Adds one at the end. Where memory is refused the list stays as it was.
    pub fn push(&mut self, item: Tree) -> Result<(), AllocError>
        ensures ok { OnOk result (trees self.new ≡ trees self.old ++ item ∷ []) }
        ensures err { OnErr result (trees self.new ≡ trees self.old) }
    {
        self.items.push(item)?;
        Ok(())
    }

    /// How many there are.
    pub fn len(&self) -> usize
        ensures { result ≡ length (trees self.now) }
    {
        self.items.len()
    }

    /// Whether there is none.
    pub fn is_empty(&self) -> bool
        ensures { IsTrue result ↔ (trees self.now ≡ []) }
    {
        self.items.is_empty()
    }

    /// The one at a place.
    pub fn get(&self, place: usize) -> &Tree
        requires { place < length (trees self.now) }
        ensures { slice_get (trees self.now) place ≡ Some result.now }
    {
        &self.items[place]
    }

    /// All of them, as a slice.
    pub fn as_slice(&self) -> &[Tree]
        ensures { result.now ≡ trees self.now }
    {
        self.items.as_slice()
    }
}

impl TreePairs {
    /// The empty list. It takes no memory.
    pub fn new(alloc: Global) -> Self
        ensures { tree_pairs result ≡ [] }
    {
        TreePairs {
            items: Vec::new(alloc),
        }
    }

    /// Adds one at the end. Where memory is refused the list stays as it was.
    pub fn push(&mut self, item: (Tree, Tree)) -> Result<(), AllocError>
        ensures ok { OnOk result (tree_pairs self.new ≡ tree_pairs self.old ++ item ∷ []) }
        ensures err { OnErr result (tree_pairs self.new ≡ tree_pairs self.old) }
    {
        self.items.push(item)?;
        Ok(())
    }

    /// How many there are.
    pub fn len(&self) -> usize
        ensures { result ≡ length (tree_pairs self.now) }
    {
        self.items.len()
    }

    /// Whether there is none.
    pub fn is_empty(&self) -> bool
        ensures { IsTrue result ↔ (tree_pairs self.now ≡ []) }
    {
        self.items.is_empty()
    }

    /// The one at a place.
    pub fn get(&self, place: usize) -> &(Tree, Tree)
        requires { place < length (tree_pairs self.now) }
        ensures { slice_get (tree_pairs self.now) place ≡ Some result.now }
    {
        &self.items[place]
    }

    /// All of them, as a slice.
    pub fn as_slice(&self) -> &[(Tree, Tree)]
        ensures { result.now ≡ tree_pairs self.now }
    {
        self.items.as_slice()
    }
}
