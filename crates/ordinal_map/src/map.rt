//! The rows of a type in the previous and the current state, and the ordinals that they get.
ghost use Rattle.std.specs.Prelude.{◌≡◌, ◌≢◌, ◌↔◌, ℕ, ◌<◌, ◌^◌, Some, None, Ok, Err, OnErr, OnOk, IsSome, IsTrue, MatchBool, Contains};
ghost use Rattle.std.specs.FinMap.{get, empty, remove};
ghost use Rattle.hol_varint.specs.Yields.{Yields};
ghost use Rattle.row_hash.specs.Hash.{row_hash as hash_of_row};
ghost use Rattle.ordinal_map.specs.Assign.{Agree, Holds, IsFreePut, IsPast, IsPut, IsTaken, TellsPut};
ghost use Rattle.row_model.specs.declared.row.Row.{Row as StoredRow};
ghost use Rattle.ordinal_map.specs.Restored.{IsFreeRestore, IsUnknown, TellsRestore};

use crate::changes::{free_beside, free_row, place_row};
use crate::fault::{PutRowFault, RestoreRowFault};
use crate::kept_rows::row_at;
use crate::row_chains::{NOWHERE, find, find_expected, make_links, next_beside};
use hol_varint::Duplicate;
use linked_slots::Chains;
use ordinal_set::OrdinalSet;
use row_hash::row_hash;
use row_model::Row;
use schema_model::MAX_ORDINALS;
use std::alloc::{AllocError, Global};
use std::marker::Model;
use std::mem;

/// The rows of a type in the previous state and in the current one, each under its ordinal.
///
/// No row stands under two ordinals, and no ordinal has two rows, whichever of the two states they are in.
#[derive(Drop)]
pub struct OrdinalMap {
    alloc: Global,
    /// The row under each ordinal, that of either state.
    rows: Vec<Option<Row>>,
    /// The ordinals of the previous state.
    previous: OrdinalSet,
    /// The ordinals of the current state.
    current: OrdinalSet,
    /// The ordinals of the rows by the rows' hashes.
    chains: Chains,
    /// Where the next row is looked for first: one further with each row that is put, for rows that come in the order of the cycle before.
    expected: u32,
    /// Where it is looked for next: behind the last one that was found elsewhere. `NOWHERE` where none was.
    beside: u32,
    /// The ordinals below it are taken.
    filled: u32,
}

impl Model for OrdinalMap {
    ghost use Rattle.ordinal_map.specs.States.{States, states_code};
    ghost use Rattle.ordinal_map.specs.KeptRows.{rows_of, AreKept};

    ghost Value = { States };

    ghost coded = { states_code };

    ghost view = { λ m. record { previous = rows_of m.rows.items m.previous; current = rows_of m.rows.items m.current } };

    ghost invariant = { λ m. AreKept m.rows.items m.chains m.previous m.current m.filled };
}

impl OrdinalMap {
    /// No rows in either state. It takes no memory.
    pub fn new(alloc: Global) -> OrdinalMap
        ensures { result ≡ record { previous = empty; current = empty } }
    {
        OrdinalMap {
            alloc,
            rows: Vec::new(alloc),
            previous: OrdinalSet::new(alloc),
            current: OrdinalSet::new(alloc),
            chains: Chains::new(alloc),
            expected: 0,
            beside: NOWHERE,
            filled: 0,
        }
    }

    /// Whether the previous state has a row under the ordinal.
    pub fn previous_has(&self, ordinal: u32) -> bool
        ensures has { IsTrue result ↔ IsSome (get self.now.previous ordinal) }
        ensures agree { Agree self.now.previous self.now.current }
    {
        self.previous.contains(ordinal)
    }

    /// Whether the current state has a row under the ordinal.
    pub fn current_has(&self, ordinal: u32) -> bool
        ensures has { IsTrue result ↔ IsSome (get self.now.current ordinal) }
        ensures agree { Agree self.now.previous self.now.current }
    {
        self.current.contains(ordinal)
    }

    /// The ordinals of the previous state, to look at two states a word at a time.
    pub fn previous_ordinals(&self) -> &OrdinalSet
        ensures { (ordinal : ℕ) → Contains result.now ordinal ↔ IsSome (get self.now.previous ordinal) }
    {
        &self.previous
    }

    /// The ordinals of the current state.
    pub fn current_ordinals(&self) -> &OrdinalSet
        ensures { (ordinal : ℕ) → Contains result.now ordinal ↔ IsSome (get self.now.current ordinal) }
    {
        &self.current
    }

    /// One past the greatest ordinal of the previous state, 0 for none.
    pub fn previous_bound(&self) -> u32
        ensures { IsPast self.now.previous result }
    {
        self.previous.bound()
    }

    /// One past the greatest ordinal of the current state, 0 for none.
    pub fn current_bound(&self) -> u32
        ensures { IsPast self.now.current result }
    {
        self.current.bound()
    }

    /// The row that one of the two states has under the ordinal.
    pub fn row(&self, ordinal: u32) -> &Row
        requires { IsTaken self.now.previous self.now.current ordinal }
        ensures row { Holds self.now.previous self.now.current result.now ordinal }
        ensures agree { Agree self.now.previous self.now.current }
    {
        match row_at(self.rows.as_slice(), ordinal) {
            Some(row) => row,
            None => unreachable!(),
        }
    }

    /// Whether the rows of the current state differ from those of the previous one.
    pub fn is_changed(&self) -> bool
        ensures { MatchBool result (self.now.current ≢ self.now.previous) (self.now.current ≡ self.now.previous) }
    {
        self.current.first_beside(&self.previous, 0).is_some()
            || self.previous.first_beside(&self.current, 0).is_some()
    }

    /// Makes room for the links of rows up to an ordinal, so that they are not made anew while these rows are put: 12 bytes an ordinal, and 8 for
    /// the heads of the chains, of as many as the next power of two. Both states stay as they are, also where memory is refused.
    pub fn reserve(&mut self, ordinal: u32) -> Result<(), AllocError>
        requires { ordinal < 2 ^ 22 }
        ensures { self.new ≡ self.old }
    {
        make_links(&mut self.chains, ordinal)
    }

    /// Puts a row into the current state, and gives its ordinal: the one under which one of the two states has it, else the least number
    /// that is in neither.
    ///
    /// `TooMany` comes where that ordinal would be 2^22. After a refusal both states stay as they were.
    pub fn put(&mut self, row: Row) -> Result<u32, PutRowFault>
        ensures tells { TellsPut self.old row self.new result }
        ensures found { (ordinal : ℕ) → Yields IsFreePut result (Ok ordinal) (IsPut self.old.previous self.old.current row ordinal × (ordinal < 2 ^ 22)) }
        ensures too_many { Yields IsFreePut result (Err PutRowFault.TooMany) (IsPut self.old.previous self.old.current row (2 ^ 22)) }
        ensures agree { Agree self.new.previous self.new.current }
    {
        if let Some(ordinal) = find_expected(
            self.rows.as_slice(),
            self.expected,
            self.beside,
            &row,
        ) {
            return self.enter(ordinal);
        }
        let hash = row_hash(&row);
        self.put_hashed(hash, row)
    }

    // Puts the row that one of the two states has under an ordinal into the current one; the states agree before it.
    fn enter(&mut self, ordinal: u32) -> Result<u32, PutRowFault>
        requires { IsTaken self.old.previous self.old.current ordinal }
        ensures tells { (row : StoredRow) → Holds self.old.previous self.old.current row ordinal → TellsPut self.old row self.new result }
        ensures agree { Agree self.old.previous self.old.current }
    {
        self.current.insert(ordinal)?;
        self.beside = next_beside(self.expected, self.beside, ordinal);
        self.expected = self.expected.saturating_add(1);
        Ok(ordinal)
    }

    // Puts a row whose hash is known, wherever it stands, by what each answer tells; the states agree before it.
    fn put_hashed(&mut self, hash: u32, row: Row) -> Result<u32, PutRowFault>
        requires { hash ≡ hash_of_row row }
        ensures tells { TellsPut self.old row self.new result }
        ensures agree { Agree self.old.previous self.old.current }
    {
        if let Some(ordinal) = find(self.rows.as_slice(), &self.chains, hash, &row) {
            return self.enter(ordinal);
        }
        let ordinal = self.previous.least_free_from(&self.current, self.filled);
        if ordinal >= MAX_ORDINALS {
            return Err(PutRowFault::TooMany);
        }
        place_row(
            &mut self.rows,
            &mut self.chains,
            &mut self.current,
            ordinal,
            hash,
            row,
        )?;
        self.expected = self.expected.saturating_add(1);
        self.filled = ordinal + 1;
        Ok(ordinal)
    }

    /// Puts a row into the previous state, under an ordinal that is free; the current state has no rows.
    ///
    /// `Equal` comes exactly where another ordinal has the row, and names it. After a refusal both states stay as they were.
    pub fn restore_row(&mut self, ordinal: u32, row: Row) -> Result<(), RestoreRowFault>
        requires free { get self.old.previous ordinal ≡ None }
        requires low { ordinal < 2 ^ 22 }
        requires current { self.old.current ≡ empty }
        ensures tells { TellsRestore self.old ordinal row self.new result }
        ensures restored { Yields IsFreeRestore result (Ok tt) (IsUnknown self.old row) }
        ensures equal { (other : ℕ) → Yields IsFreeRestore result (Err (RestoreRowFault.Equal other)) (get self.old.previous other ≡ Some row) }
        ensures refused { OnErr result (self.new ≡ self.old) }
        ensures agree { Agree self.new.previous self.new.current }
    {
        let hash = row_hash(&row);
        self.restore_hashed(hash, ordinal, row)
    }

    // Puts a row whose hash is known into the previous state, under an ordinal that is free, or names another ordinal that has the row; the current state has
    // no rows.
    fn restore_hashed(&mut self, hash: u32, ordinal: u32, row: Row) -> Result<(), RestoreRowFault>
        requires free { get self.old.previous ordinal ≡ None }
        requires low { ordinal < 2 ^ 22 }
        requires current { self.old.current ≡ empty }
        requires hashed { hash ≡ hash_of_row row }
        ensures tells { TellsRestore self.old ordinal row self.new result }
        ensures agree { Agree self.new.previous self.new.current }
    {
        if let Some(other) = find(self.rows.as_slice(), &self.chains, hash, &row) {
            return Err(RestoreRowFault::Equal(other));
        }
        place_row(
            &mut self.rows,
            &mut self.chains,
            &mut self.previous,
            ordinal,
            hash,
            row,
        )?;
        Ok(())
    }

    /// Puts each row of the previous state into the current one, which has none. Its only memory is a set of as many bits as there are ordinals.
    ///
    /// Where memory is refused both states stay as they were.
    pub fn keep_all(&mut self) -> Result<(), AllocError>
        requires { self.old.current ≡ empty }
        ensures kept { OnOk result (self.new ≡ record self.old { current = self.old.previous }) }
        ensures refused { OnErr result (self.new ≡ self.old) }
        ensures agree { Agree self.new.previous self.new.current }
    {
        self.current = self.previous.copy(self.alloc)?;
        Ok(())
    }

    /// Takes a row out of the current state, which has it under this ordinal. The ordinal is free then where the previous state lacks it. It
    /// takes no memory.
    pub fn drop_row(&mut self, ordinal: u32)
        requires { IsSome (get self.old.current ordinal) }
        ensures dropped { self.new ≡ record self.old { current = remove self.old.current ordinal } }
        ensures agree { Agree self.new.previous self.new.current }
    {
        self.current.remove(ordinal);
        if !self.previous.contains(ordinal) {
            free_row(&mut self.rows, &mut self.chains, ordinal);
            self.filled = self.filled.min(ordinal);
        }
    }

    /// Makes the current state the previous one. The new current one has no rows. It takes no memory, and looks at no row that stays.
    pub fn advance(&mut self)
        ensures { self.new ≡ record { previous = self.old.current; current = empty } }
    {
        free_beside(
            &mut self.rows,
            &mut self.chains,
            &self.previous,
            &self.current,
        );
        mem::swap(&mut self.previous, &mut self.current);
        self.current.clear();
        self.expected = 0;
        self.beside = NOWHERE;
        self.filled = 0;
    }

    /// Takes all rows out of the current state. It takes no memory, and next to no time where there is none.
    pub fn undo(&mut self)
        ensures { self.new ≡ record self.old { current = empty } }
    {
        free_beside(
            &mut self.rows,
            &mut self.chains,
            &self.current,
            &self.previous,
        );
        self.current.clear();
        self.expected = 0;
        self.beside = NOWHERE;
        self.filled = 0;
    }
}
