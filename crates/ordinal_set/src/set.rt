//! Sets of ordinals.
ghost use Rattle.std.specs.Prelude.{ℕ, List, ◌≡◌, ◌-◌, ◌^◌, ◌<◌, ◌↔◌, [], ◌++◌, length, vec_len, Contains, IfOk, IsTrue, OnOk, OnErr};
ghost use Rattle.ordinal_set.specs.Ordinals.{AreOrdinals, with_ordinal, without_ordinal, lacking, bound_of, least_from, TellsNext, IsLeastFree};
ghost use Rattle.ordinal_set.specs.Population.{population_of, AreUpTo, IsPopulation};

use crate::population::{population_words, push_words};
use crate::scan::{clear_bit, count_set, has_set, last_set, lengthen, next_set};
use crate::two_sets::{next_beside, next_clear};
use hol_varint::{Duplicate, Ordinals};
use std::alloc::{AllocError, Global};
use std::marker::Model;

/// A set of ordinals of rows, numbers below 2^32 - 1, seen as the rising list of its members.
///
/// It keeps one bit for each number, as a blob's population does: bit o mod 64 of word o div 64.
#[derive(Debug, Drop)]
pub struct OrdinalSet {
    words: Vec<u64>,
}

impl Model for OrdinalSet {
    ghost use Rattle.std.specs.Prelude.{List, ℕ};
    ghost use Rattle.ordinal_set.specs.Population.{population_of, FitOrdinals};

    ghost Value = { List ℕ };

    ghost view = { λ a. population_of a.words.items };

    ghost invariant = { λ a. FitOrdinals a.words.items };
}

impl OrdinalSet {
    /// The empty set. It takes no memory.
    pub fn new(alloc: Global) -> Self
        ensures { result ≡ [] }
    {
        OrdinalSet {
            words: Vec::new(alloc),
        }
    }

    /// The set whose bits are those of the words of a population. It takes no memory.
    pub fn from_words(words: Vec<u64>) -> Self
        requires { vec_len words < 2 ^ 26 }
        ensures members { result ≡ population_of words.items }
        ensures ordinals { AreOrdinals result }
    {
        OrdinalSet { words }
    }

    /// Puts an ordinal in. Where memory is refused the set stays as it was.
    pub fn insert(&mut self, ordinal: u32) -> Result<(), AllocError>
        requires { ordinal < 2 ^ 32 - 1 }
        ensures ok { OnOk result (self.new ≡ with_ordinal ordinal self.old) }
        ensures err { OnErr result (self.new ≡ self.old) }
        ensures ordinals { AreOrdinals self.new }
    {
        let place = (ordinal / 64) as usize;
        lengthen(&mut self.words, place + 1)?;
        self.words[place] |= 1 << (ordinal % 64);
        Ok(())
    }

    /// Takes a number out.
    pub fn remove(&mut self, ordinal: u32)
        ensures removed { self.new ≡ without_ordinal ordinal self.old }
        ensures ordinals { AreOrdinals self.new }
    {
        clear_bit(&mut self.words, ordinal);
    }

    /// Takes all numbers out.
    pub fn clear(&mut self)
        ensures { self.new ≡ [] }
    {
        self.words.clear();
    }

    /// Whether a number is in the set.
    pub fn contains(&self, ordinal: u32) -> bool
        ensures member { IsTrue result ↔ Contains self.now ordinal }
        ensures ordinals { AreOrdinals self.now }
    {
        has_set(&self.words, ordinal)
    }

    /// How many numbers there are in the set.
    pub fn len(&self) -> u64
        ensures { result ≡ length self.now }
    {
        count_set(&self.words)
    }

    /// One past the greatest number of the set, 0 for none.
    pub fn bound(&self) -> u32
        ensures bound { result ≡ bound_of self.now }
        ensures ordinals { AreOrdinals self.now }
    {
        last_set(&self.words)
    }

    /// The least number of the set that is not below `ordinal`; `None` where there is none.
    pub fn next_from(&self, ordinal: u32) -> Option<u32>
        ensures next { result ≡ least_from ordinal self.now }
        ensures tells { TellsNext ordinal self.now result }
        ensures ordinals { AreOrdinals self.now }
    {
        next_set(&self.words, ordinal)
    }

    /// The numbers of the set, rising.
    pub fn ordinals(&self, alloc: Global) -> Result<Ordinals, AllocError>
        ensures members { IfOk result (λ list. list ≡ self.now) }
        ensures ordinals { AreOrdinals self.now }
    {
        let mut list = Ordinals::new(alloc);
        let mut from = 0;
        while let Some(ordinal) = self.next_from(from) {
            list.push(ordinal)?;
            from = ordinal + 1;
        }
        Ok(list)
    }

    /// The least number that is in neither set.
    pub fn least_free(&self, other: &OrdinalSet) -> u32
        ensures { IsLeastFree 0 self.now other.now result }
    {
        self.least_free_from(other, 0)
    }

    /// The least number that is not below `ordinal` and in neither set.
    pub fn least_free_from(&self, other: &OrdinalSet, ordinal: u32) -> u32
        ensures { IsLeastFree ordinal self.now other.now result }
    {
        next_clear(&self.words, &other.words, ordinal)
    }

    /// The least number of the set that is not below `ordinal` and that the other one lacks; `None` where there is none. Where the two agree,
    /// 64 numbers are passed at a time.
    pub fn first_beside(&self, other: &OrdinalSet, ordinal: u32) -> Option<u32>
        ensures first { result ≡ least_from ordinal (lacking self.now other.now) }
        ensures tells { TellsNext ordinal (lacking self.now other.now) result }
        ensures ordinals { AreOrdinals self.now }
        ensures others { AreOrdinals other.now }
    {
        next_beside(&self.words, &other.words, ordinal)
    }

    /// The numbers of the set that the other one lacks, rising. Where the two agree, 64 numbers are passed at a time.
    pub fn without(&self, alloc: Global, other: &OrdinalSet) -> Result<Ordinals, AllocError>
        ensures members { IfOk result (λ list. list ≡ lacking self.now other.now) }
        ensures ordinals { AreOrdinals (lacking self.now other.now) }
    {
        let mut list = Ordinals::new(alloc);
        let mut from = 0;
        while let Some(ordinal) = self.first_beside(other, from) {
            list.push(ordinal)?;
            from = ordinal + 1;
        }
        Ok(list)
    }

    /// Writes a population at the end: 4 bytes with the number of its words, and the words, 8 bytes each, the highest byte first; bit o
    /// mod 64 of word o div 64, counted from the least, is set where o is in the set.
    ///
    /// There are as many times 256 words as the ordinals up to `greatest` need, and 256 at least. No number of the set is above `greatest`,
    /// and where that is None the set is empty. Where memory is refused nothing is written.
    pub fn put_population(&self, out: &mut Vec<u8>, greatest: Option<u32>) -> Result<(), AllocError>
        requires { AreUpTo greatest self.now }
        ensures ok { OnOk result ((bytes : List ℕ) × (out.new.items ≡ out.old.items ++ bytes) × IsPopulation self.now greatest bytes) }
        ensures err { OnErr result (out.new.items ≡ out.old.items) }
    {
        let start = out.len();
        let written = push_words(out, &self.words, population_words(greatest));
        if written.is_err() {
            out.truncate(start);
        }
        written
    }
}

impl Duplicate for OrdinalSet {
    fn copy(&self, alloc: Global) -> Result<OrdinalSet, AllocError> {
        Ok(OrdinalSet {
            words: Vec::from_slice(alloc, self.words.as_slice())?,
        })
    }
}
