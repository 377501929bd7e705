//! One half: the words at the front of a block of its own.
ghost use Rattle.std.specs.Prelude.{◌≡◌, ◌-◌, ◌≤◌, ◌++◌, [], length, replicate, IfOk, IsTrue, false};
ghost use Rattle.std.specs.Borrow.{sem};
ghost use Rattle.raw_words.specs.HalfLends.{LendsWords};

use crate::block::{Block, Deed};
use std::alloc::{AllocError, Global};
use std::fmt;
use std::marker::Model;

/// The most words that a block can have.
const MOST: usize = 0x0fff_ffff_ffff_ffff;

/// A block, all of whose places hold words, and how many of these are the half's: those past its length wait until it is
/// made longer.
pub(crate) struct Half {
    len: usize,
    capacity: usize,
    block: Block,
    deed: Option<Deed<Global>>,
    alloc: Global,
}

impl Model for Half {
    ghost use Rattle.std.specs.Prelude.{List, ℕ};

    ghost Value = { List ℕ };

    ghost use Rattle.raw_words.specs.Halves.{half_words, IsHalf};

    ghost view = { half_words };

    ghost invariant = { IsHalf };
}

impl Half {
    /// No words, and no memory.
    pub(crate) fn new(alloc: Global) -> Half
        ensures { result ≡ [] }
    {
        Half {
            len: 0,
            capacity: 0,
            block: Block::none(),
            deed: None,
            alloc,
        }
    }

    /// So many zeros, in a new block of `capacity` words.
    pub(crate) fn zeros(alloc: Global, words: usize, capacity: usize) -> Result<Half, AllocError>
        requires { words ≤ capacity }
        ensures { IfOk result (λ half. half ≡ replicate words 0) }
    {
        if capacity > MOST {
            return Err(AllocError);
        }
        let (mut block, deed) = Block::allocate(&alloc, capacity)?;
        for place in 0..capacity {
            block.write(place, 0);
        }
        Ok(Half {
            len: words,
            capacity,
            block,
            deed: Some(deed),
            alloc,
        })
    }

    /// How many words to ask for where so many are wanted: at least an eighth more than its block has.
    pub(crate) fn grown(&self, words: usize) -> usize
        ensures { words ≤ result }
    {
        let more = self.capacity + self.capacity / 8 + 1;
        words.max(more.min(MOST))
    }

    /// Makes it so many zeros, if its memory holds them.
    pub(crate) fn clear_within(&mut self, words: usize) -> bool
        ensures cleared { IsTrue result → self.new ≡ replicate words 0 }
        ensures kept { result ≡ false → self.new ≡ self.old }
        ensures fits { words ≤ length self.old → IsTrue result }
    {
        if words > self.capacity {
            return false;
        }
        self.len = words;
        self.block.front_mut(words).fill(0);
        true
    }

    /// Makes it these words and zeros behind them, so many words in all, if its memory holds them.
    pub(crate) fn copy_within(&mut self, front: &[u64], words: usize) -> bool
        requires { length front.now ≤ words }
        ensures copied { IsTrue result → self.new ≡ front.now ++ replicate (words - length front.now) 0 }
        ensures kept { result ≡ false → self.new ≡ self.old }
        ensures fits { words ≤ length self.old → IsTrue result }
    {
        if words > self.capacity {
            return false;
        }
        self.len = words;
        copy_front(front, self.block.front_mut(words));
        true
    }

    /// The words, to be read.
    pub(crate) fn words(&self) -> &[u64]
        ensures { result.now ≡ self.now }
    {
        &self.block.words(self.capacity)[..self.len]
    }

    /// The words, to be written.
    pub(crate) fn words_mut(&mut self) -> &mut [u64]
        ensures* writes_back { sem 𝓛 (LendsWords self.entry result) }
        ensures value { result.now ≡ self.old }
    {
        self.block.front_mut(self.len)
    }
}

/// Makes words of memory these words, and zeros behind them.
fn copy_front(front: &[u64], words: &mut [u64])
    requires { length front.now ≤ length words.old }
    ensures { words.new ≡ front.now ++ replicate (length words.old - length front.now) 0 }
{
    let (copied, rest) = words.split_at_mut(front.len());
    copied.copy_from_slice(front);
    rest.fill(0);
}

impl fmt::Debug for Half {
    fn fmt<W: fmt::Write>(&self, f: &mut fmt::Formatter<W>) -> fmt::Result {
        self.words().fmt(f)
    }
}

/// Gives the block back, where there is one.
impl Drop for Half {
    fn drop(self) {
        let Half {
            len: _,
            capacity,
            block,
            deed,
            alloc,
        } = self;
        if let Some(deed) = deed {
            block.deallocate(&alloc, capacity, deed);
        }
    }
}
