//! Two generations of 64-bit words: one is read while the other is written.
#![tactic(auto)]

ghost use Rattle.std.specs.Prelude.{◌≡◌, ◌-◌, ◌≤◌, ◌++◌, [], length, replicate, take, OnOk, OnErr, IsOk};
ghost use Rattle.std.specs.Borrow.{sem};
ghost use Rattle.raw_words.specs.Lending.{LendsOther};

use std::alloc::{AllocError, Global};
use std::marker::Model;
use std::mem;

mod block;
mod half;

use half::Half;

/// Two generations of words: the current half, and the other one, which is the next half or was current before.
/// Contracts see two lists. The memory of both is freed when the value is dropped.
#[derive(Debug, Drop)]
pub struct TwinWords {
    alloc: Global,
    current: Half,
    other: Half,
}

impl Model for TwinWords {
    ghost use Rattle.raw_words.specs.Twin.{Twin, twin_code};

    ghost Value = { Twin };

    ghost coded = { twin_code };

    ghost view = { λ a. record { current = a.current; other = a.other } };
}

/// The two halves at once.
#[derive(Debug, Drop)]
pub struct Halves<'a> {
    /// The current half, to be read.
    pub from: &'a [u64],
    /// The next half, to be written.
    pub to: &'a mut [u64],
}

impl TwinWords {
    /// Both halves empty. It takes no memory.
    pub fn new(alloc: Global) -> TwinWords
        ensures { result ≡ record { current = []; other = [] } }
    {
        TwinWords {
            alloc,
            current: Half::new(alloc),
            other: Half::new(alloc),
        }
    }

    /// Makes the next half so many zeros; the current half stays. A half that is asked for more words than its block has
    /// asks for a block of at least an eighth more than it had, so that a half which grows by a word in each step does not
    /// ask in each step.
    ///
    /// Errors: where memory is refused, and both halves stay as they were. It is not refused for at most as many words as
    /// the other half has.
    pub fn reserve_next(&mut self, words: usize) -> Result<(), AllocError>
        ensures ok { OnOk result (self.new ≡ record { current = self.old.current; other = replicate words 0 }) }
        ensures err { OnErr result (self.new ≡ self.old) }
        ensures fits { words ≤ length self.old.other → IsOk result }
    {
        if !self.other.clear_within(words) {
            self.other = Half::zeros(self.alloc, words, self.other.grown(words))?;
        }
        Ok(())
    }

    /// Makes the next half so many words: the first ones are the first `kept` of the current half, which stays, and zeros stand behind them. What
    /// stood in the next half is not cleared before it is copied over. Memory is asked for as by `reserve_next`.
    ///
    /// Errors: where memory is refused, and both halves stay as they were. It is not refused for at most as many words as
    /// the other half has.
    pub fn copy_next(&mut self, kept: usize, words: usize) -> Result<(), AllocError>
        requires within { kept ≤ words }
        requires standing { kept ≤ length self.old.current }
        ensures ok { OnOk result (self.new ≡ record { current = self.old.current; other = take kept self.old.current ++ replicate (words - kept) 0 }) }
        ensures err { OnErr result (self.new ≡ self.old) }
        ensures fits { words ≤ length self.old.other → IsOk result }
    {
        let front = &self.current.words()[..kept];
        if !self.other.copy_within(front, words) {
            let mut longer = Half::zeros(self.alloc, words, self.other.grown(words))?;
            longer.copy_within(front, words);
            self.other = longer;
        }
        Ok(())
    }

    /// The current half and the next half, to be used together. What is written to the next half stands there once the
    /// halves are let go.
    pub fn split(&mut self) -> Halves<'_>
        ensures* writes_back { sem 𝓛 (LendsOther self.entry result.to) }
        ensures from { result.from.now ≡ self.old.current }
        ensures to { result.to.now ≡ self.old.other }
    {
        Halves {
            from: self.current.words(),
            to: self.other.words_mut(),
        }
    }

    /// The current half.
    pub fn current(&self) -> &[u64]
        ensures { result.now ≡ self.now.current }
    {
        self.current.words()
    }

    /// The other half: the one before, or the next.
    pub fn other(&self) -> &[u64]
        ensures { result.now ≡ self.now.other }
    {
        self.other.words()
    }

    /// Exchanges the halves: the next half is current, and the current one is the other.
    pub fn flip(&mut self)
        ensures { self.new ≡ record { current = self.old.other; other = self.old.current } }
    {
        mem::swap(&mut self.current, &mut self.other);
    }
}
