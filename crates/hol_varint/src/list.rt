//! The list type of all layers: items in their order, which contracts see as the list of them, and copies of these.
ghost use Rattle.std.specs.Prelude.{◌≡◌, ◌<◌, ◌++◌, ◌∷◌, [], length, slice_get, Some, IfOk, IsTrue, ◌↔◌, OnOk, OnErr};

use std::alloc::{AllocError, Global};
use std::marker::Model;

/// What an equal value of its own can be made of.
pub trait Duplicate: Drop + Sized {
    ghost use Rattle.std.specs.Prelude.{◌≡◌, IfOk};

    /// An equal value of its own.
    fn copy(&self, alloc: Global) -> Result<Self, AllocError>
        ensures { IfOk result (λ copy. copy ≡ self.now) };

    /// A copy of each of these, in their order.
    fn copy_all(alloc: Global, items: &[Self]) -> Result<Vec<Self>, AllocError>
        ensures { IfOk result (λ copies. copies.items ≡ items.now) }
    {
        let mut copies = Vec::with_capacity(alloc, items.len())?;
        for item in items {
            copies.push(item.copy(alloc)?)?;
        }
        Ok(copies)
    }
}

/// Items in their order. Contracts see the list of them.
#[derive(Debug, Drop)]
pub struct List<T> {
    items: Vec<T>,
}

impl<T> Model for List<T> {
    ghost use Rattle.std.specs.Prelude.{List as Items};

    ghost Value = { Items T };

    ghost view = { λ a. a.items.items };
}

impl<T: Drop> List<T> {
    /// The empty list. It takes no memory.
    pub fn new(alloc: Global) -> Self
        ensures { result ≡ [] }
    {
        List {
            items: Vec::new(alloc),
        }
    }

    /// The empty list, with room for so many items.
    pub fn with_capacity(alloc: Global, capacity: usize) -> Result<Self, AllocError>
        ensures { IfOk result (λ list. list ≡ []) }
    {
        Ok(List {
            items: Vec::with_capacity(alloc, capacity)?,
        })
    }

    /// Adds one at the end. Where memory is refused the list stays as it was.
    pub fn push(&mut self, item: T) -> Result<(), AllocError>
        ensures ok { OnOk result (self.new ≡ self.old ++ item ∷ []) }
        ensures err { OnErr result (self.new ≡ self.old) }
    {
        self.items.push(item)?;
        Ok(())
    }

    /// How many there are.
    pub fn len(&self) -> usize
        ensures { result ≡ length self.now }
    {
        self.items.len()
    }

    /// Whether there is none.
    pub fn is_empty(&self) -> bool
        ensures { IsTrue result ↔ (self.now ≡ []) }
    {
        self.items.is_empty()
    }

    /// The one at a place, lent.
    pub fn get(&self, place: usize) -> &T
        requires { place < length self.now }
        ensures { slice_get self.now place ≡ Some result.now }
    {
        &self.items[place]
    }

    /// All of them, as a slice.
    pub fn as_slice(&self) -> &[T]
        ensures { result.now ≡ self.now }
    {
        self.items.as_slice()
    }

    /// The list of a vector's items. It takes no memory.
    pub fn from_vec(items: Vec<T>) -> Self
        ensures { result ≡ items.items }
    {
        List { items }
    }

    /// The vector of the items. It takes no memory.
    pub fn into_vec(self) -> Vec<T>
        ensures { result.items ≡ self }
    {
        self.items
    }
}

impl<T: PartialEq> PartialEq for List<T> {
    ghost use Rattle.std.specs.Cmp.Lexicographic.{pointwise};
    ghost use Rattle.std.proofs.Common.{rules};
    ghost use Rattle.std.specs.Cmp.Rules.{comparing};

    ghost eq = { pointwise T.eq };

    ghost laws = { Prim.search (comparing, rules) };

    fn eq(&self, other: &Self) -> bool {
        self.items == other.items
    }
}

impl<T: Duplicate> Duplicate for List<T> {
    fn copy(&self, alloc: Global) -> Result<Self, AllocError> {
        Ok(List::from_vec(T::copy_all(alloc, self.as_slice())?))
    }
}

impl<A: Duplicate, B: Duplicate> Duplicate for (A, B) {
    fn copy(&self, alloc: Global) -> Result<(A, B), AllocError> {
        Ok((self.0.copy(alloc)?, self.1.copy(alloc)?))
    }
}

impl<T: Duplicate> Duplicate for Option<T> {
    fn copy(&self, alloc: Global) -> Result<Option<T>, AllocError> {
        match self {
            None => Ok(None),
            Some(value) => Ok(Some(value.copy(alloc)?)),
        }
    }
}

impl Duplicate for u8 {
    fn copy(&self, _alloc: Global) -> Result<u8, AllocError> {
        Ok(*self)
    }

    fn copy_all(alloc: Global, items: &[u8]) -> Result<Vec<u8>, AllocError> {
        Vec::from_slice(alloc, items)
    }
}

impl Duplicate for u16 {
    fn copy(&self, _alloc: Global) -> Result<u16, AllocError> {
        Ok(*self)
    }

    fn copy_all(alloc: Global, items: &[u16]) -> Result<Vec<u16>, AllocError> {
        Vec::from_slice(alloc, items)
    }
}

impl Duplicate for u32 {
    fn copy(&self, _alloc: Global) -> Result<u32, AllocError> {
        Ok(*self)
    }

    fn copy_all(alloc: Global, items: &[u32]) -> Result<Vec<u32>, AllocError> {
        Vec::from_slice(alloc, items)
    }
}

impl Duplicate for u64 {
    fn copy(&self, _alloc: Global) -> Result<u64, AllocError> {
        Ok(*self)
    }

    fn copy_all(alloc: Global, items: &[u64]) -> Result<Vec<u64>, AllocError> {
        Vec::from_slice(alloc, items)
    }
}
