//! Blocks of words: the one place with raw pointers. Each function here is proved by hand over its compiled form.
ghost use Rattle.std.specs.Prelude.{◌≡◌, ℕ, ◌+◌, ◌*◌, ◌^◌, ◌<◌, ◌≤◌, [], ◌∷◌, ◌++◌, List, length, take, IfOk};
ghost use Rattle.std.specs.Borrow.{sem};
ghost use Rattle.std.specs.Ptr.{Ptr};

use std::alloc::{AllocError, Allocator};
use std::marker::{Model, PhantomData};

/// The places of a block: words in the first ones, and nothing yet in the others. To let it go frees nothing.
#[derive(Drop)]
pub(crate) struct Block {
    first: *mut u64,
    pub(crate) ghost words: { List ℕ },
    pub(crate) ghost room: { ℕ },
}

impl Model for Block {
    ghost use Rattle.raw_words.specs.Ownership.{owns_words, shares_words};

    ghost also_owns = { λ c. owns_words c.first c.words c.room };

    ghost also_shares = { λ c _ κ. shares_words c.first c.words κ };
}

/// The right to give a block back. `deallocate` uses it up, and it cannot be let go otherwise.
pub(crate) struct Deed<A: Allocator> {
    mark: PhantomData<A>,
    pub(crate) ghost at: { Ptr },
    pub(crate) ghost places: { ℕ },
    pub(crate) ghost alloc: { A },
}

impl<A: Allocator> Model for Deed<A> {
    ghost use Rattle.raw_words.specs.Ownership.{word_block};

    ghost also_owns = { λ d. A.dealloc_token d.alloc (word_block d.places) d.at };
}

impl Block {
    ghost use Rattle.raw_words.specs.BlockLends.{LendsFront};
    ghost use Rattle.raw_words.specs.Deeds.{IsDeedTo};

    /// No places, and no memory.
    pub(crate) fn none() -> Block
        ensures words { result.words ≡ [] }
        ensures room { result.room ≡ 0 }
    {
        let none: [u64; 0] = [];
        Block {
            first: (&raw const none as *const u64).cast_mut(),
        }
    }

    /// So many places that hold nothing yet, and the right to give them back.
    pub(crate) fn allocate<A: Allocator>(
        alloc: &A,
        places: usize,
    ) -> Result<(Block, Deed<A>), AllocError>
        requires { places * 8 < 2 ^ 63 }
        ensures block { IfOk result (λ made. (made.0.words ≡ []) × (made.0.room ≡ places)) }
        ensures deed { IfOk result (λ made. IsDeedTo made.1 made.0.first places alloc.now) }
    {
        match alloc.allocate(places * 8, 8) {
            Ok(first) => Ok((
                Block {
                    first: first as *mut u64,
                },
                Deed { mark: PhantomData },
            )),
            Err(error) => Err(error),
        }
    }

    /// Gives the block back.
    pub(crate) fn deallocate<A: Allocator>(self, alloc: &A, places: usize, deed: Deed<A>)
        requires deed { IsDeedTo deed self.first places alloc.now }
        requires whole { length self.words + self.room ≡ places }
        requires size { places * 8 < 2 ^ 63 }
    {
        let Deed { mark: _ } = deed;
        unsafe {
            alloc.deallocate(self.first as *mut u8, places * 8, 8);
        }
    }

    /// Writes a word to the first place that holds none.
    pub(crate) fn write(&mut self, place: usize, word: u64)
        requires next { place ≡ length self.old.words }
        requires room { 0 < self.old.room }
        requires size { (length self.old.words + self.old.room) * 8 < 2 ^ 63 }
        ensures words { self.new.words ≡ self.old.words ++ word ∷ [] }
        ensures room { self.new.room + 1 ≡ self.old.room }
        ensures first { self.new.first ≡ self.old.first }
    {
        unsafe {
            *self.first.add(place) = word;
        }
    }

    /// The words, to be read. `count` is how many they are.
    pub(crate) fn words(&self, count: usize) -> &[u64]
        requires all { count ≡ length self.now.words }
        requires size { count * 8 < 2 ^ 63 }
        ensures { result.now ≡ self.now.words }
    {
        unsafe { std::slice::from_raw_parts(self.first.cast_const(), count) }
    }

    /// The first `count` words, to be written.
    pub(crate) fn front_mut(&mut self, count: usize) -> &mut [u64]
        requires within { count ≤ length self.old.words }
        requires size { count * 8 < 2 ^ 63 }
        ensures* writes_back { sem 𝓛 (LendsFront self.entry count result) }
        ensures value { result.now ≡ take count self.old.words }
    {
        unsafe { std::slice::from_raw_parts_mut(self.first, count) }
    }
}
