//! The state of one type: its current rows, and those of the state before or of the next one.
ghost use Rattle.std.specs.Prelude.{◌≡◌, ◌↔◌, All, Some, IsSome, IfErr, IfOk, IsTrue, MatchResult, OnOk, length};
ghost use Rattle.std.specs.FinMap.{get, keys, values};
ghost use Rattle.ordinal_set.specs.Ordinals.{bound_of};
ghost use Rattle.hol_varint.specs.Yields.{Yields};
ghost use Rattle.row_model.specs.Table.{RowMap};
ghost use Rattle.std.specs.List.{AllZip, Contains};
ghost use Rattle.bucket_codec.specs.Run.{FindsIn};
ghost use Rattle.type_state.specs.Lookup.{elements_of, pairs_of};
ghost use Rattle.type_rows.specs.WellFormed.{IsReadable};
ghost use Rattle.type_rows.specs.Loads.{IsLoadFault, IsFreeRow, Loads, TellsLoad, layout_of};
ghost use Rattle.type_rows.specs.Patches.{IsMovedBy, IsReadablePatch, RefusesMove, TellsMove, patch_layout};
ghost use Rattle.type_rows.specs.LoadFault.{FailsLoad};
ghost use Rattle.type_rows.specs.MoveFault.{FailsMove};
ghost use Rattle.packed_half.specs.Half.{layout_in};
ghost use Rattle.type_state.specs.Moved.{IsMoveOf};
ghost use Rattle.type_state.specs.Kept.{IsBare};
ghost use Rattle.type_rows.specs.WordsHeld.{bytes_held};
ghost use Rattle.type_state.specs.State.{IsLaidOut, empty_half};
ghost use Rattle.type_state.specs.WordsHeld.{words_held};

use crate::loading::{half_of_section, lay_section_next};
use crate::moving::{Move, moved};
use crate::old_rows::OldRows;
use crate::packed_rows::PackedRows;
use crate::turning::{clear_next, lay_moved_next};
use column_rows::TypeRows;
use ordinal_set::OrdinalSet;
use packed_half::{HalfRows, HalfShape, bytes_of_half};
use raw_words::TwinWords;
use row_model::{Row, Widths, Words};
use schema_model::Schema;
use std::alloc::{AllocError, Global};
use std::marker::Model;
use std::mem;
use type_rows::{PatchSection, RowFault, Section};

/// The rows of one type: those of its current state, and beside them those of the state before or of the next one, each in words of its own.
///
/// The state before is there from a `flip` until the next half is loaded or discarded.
#[derive(Debug, Drop)]
pub struct TypeState {
    alloc: Global,
    schema: Schema,
    twin: TwinWords,
    now: HalfShape,
    other: HalfShape,
}

impl Model for TypeState {
    ghost use Rattle.type_state.specs.State.{State, state_code};
    ghost use Rattle.type_state.specs.Kept.{AreHalves, half_in};

    ghost Value = { State };

    ghost coded = { state_code };

    ghost view = { λ s. record { schema = s.schema; current = half_in s.schema.shape s.now s.twin.current; other = half_in s.schema.shape s.other s.twin.other } };

    ghost invariant = { λ s. AreHalves s.schema.shape s.now s.other s.twin.current s.twin.other };
}

/// Of a half nothing is laid out. It takes no memory.
fn bare_half(alloc: Global) -> HalfShape
    ensures { IsBare result }
{
    HalfShape {
        max: None,
        widths: Widths::new(alloc),
        total: 0,
        lengths: Words::new(alloc),
        live: OrdinalSet::new(alloc),
    }
}

impl TypeState {
    /// A type without rows. It takes no memory.
    pub fn new(alloc: Global, schema: Schema) -> TypeState
        ensures { result ≡ record { schema = schema; current = empty_half; other = empty_half } }
    {
        TypeState {
            alloc,
            schema,
            twin: TwinWords::new(alloc),
            now: bare_half(alloc),
            other: bare_half(alloc),
        }
    }

    /// The type's schema.
    pub fn schema(&self) -> &Schema
        ensures { result.now ≡ self.entry.now.schema }
    {
        &self.schema
    }

    /// Reads the live rows of a section of a snapshot into the next half, at the section's layout. The current half stays as it is. What the
    /// other one holds where the section is refused is not said.
    ///
    /// The fault is the first one of the section, and each comes exactly where it is that, or out of memory comes in its place (`type_rows` has the law
    /// that there is one at most). The ordinals are tried first, then the places, the widths, the limit on words and that on bytes. `At` names an
    /// ordinal: `BadOrdinals` the least live one above the max ordinal, `BadPointers`, `BadText`, `BadValue` and `BadBuckets` the first whose place
    /// spells no row, `BadWidth` the first whose row the widths cannot hold when the live rows are laid out with no place between them. `Limit`
    /// names the limit that the rows pass. `Memory` comes also where the lists have more than 2^28 elements together, which within the limit on
    /// words only elements of no bits can, and where the runs of the sets or maps have more than 2^28 buckets, which only runs that stand at many
    /// places can.
    pub fn load_next(&mut self, section: &Section) -> Result<(), RowFault>
        requires { IsReadable self.old.schema.shape section.now }
        ensures exact { Yields IsFreeRow result (Ok tt) ((rows : RowMap) × Loads self.old.schema.shape section.now rows) }
        ensures tells { TellsLoad self.old.schema.shape section.now self.new.other.rows result }
        ensures fault { IfErr result (FailsLoad self.old.schema.shape section.now) }
        ensures kind { IfErr result IsLoadFault }
        ensures layout { OnOk result (self.new.other.layout ≡ layout_of section.now) }
        ensures laid { OnOk result (IsLaidOut self.new.schema self.new.other) }
        ensures schema { self.new.schema ≡ self.old.schema }
        ensures current { self.new.current ≡ self.old.current }
    {
        let half = half_of_section(self.alloc, &self.schema, section)?;
        self.other = bare_half(self.alloc);
        lay_section_next(self.alloc, &self.schema, section, &half, &mut self.twin)?;
        self.other = half;
        Ok(())
    }

    /// Lays out in the next half the current rows without those that a patch removes and with those that it adds, at the patch's layout. The
    /// current half stays as it is. What the other one holds where the patch is refused is not said.
    ///
    /// The fault is the first one of the patch, and each comes exactly where it is that, or out of memory comes in its place (`type_rows` has the law
    /// that there is one at most). The ordinals are tried first, then the places of the added ones, the widths, the limit on words and that on
    /// bytes. `At` names an ordinal: `BadOrdinals` the first removed one that does not rise or is not live, else the first added one that does not
    /// rise, has no place or is live, else the least that stays and has no place; `BadPointers`, `BadText`, `BadValue` and `BadBuckets` the first
    /// added one whose place spells no row; `BadWidth` the first of the new rows that the widths cannot hold when they are laid out with no place
    /// between them. `Limit` names the limit that the new rows pass. `Memory` comes also where these have more than 2^28 elements or buckets
    /// together, which within the limit on words only those of no bits can.
    pub fn move_next(&mut self, patch: &PatchSection) -> Result<(), RowFault>
        requires { IsReadablePatch self.old.schema.shape patch.now }
        ensures exact { Yields IsFreeRow result (Ok tt) ((rows : RowMap) × IsMovedBy self.old.schema.shape patch.now self.old.current.rows rows) }
        ensures tells { TellsMove self.old.schema.shape patch.now self.old.current.rows self.new.other.rows result }
        ensures fault { IfErr result (FailsMove self.old.schema.shape patch.now self.old.current.rows) }
        ensures kind { IfErr result IsLoadFault }
        ensures layout { OnOk result (self.new.other.layout ≡ patch_layout patch.now) }
        ensures laid { OnOk result (IsLaidOut self.new.schema self.new.other) }
        ensures schema { self.new.schema ≡ self.old.schema }
        ensures current { self.new.current ≡ self.old.current }
    {
        let schema = &self.schema;
        let current = HalfRows {
            shape: &schema.shape,
            half: &self.now,
            words: self.twin.current(),
        };
        let next = moved(self.alloc, schema, current, patch)?;
        self.other = bare_half(self.alloc);
        lay_moved_next(self.alloc, schema, &self.now, &next, &mut self.twin)?;
        let Move {
            half,
            differences: _,
        } = next;
        self.other = half;
        Ok(())
    }

    /// Leaves no rows in the next half. It takes no memory.
    pub fn discard_next(&mut self)
        ensures { self.new ≡ record self.old { other = empty_half } }
    {
        self.other = bare_half(self.alloc);
        clear_next(&mut self.twin);
    }

    /// Makes the next half the current one, and the current one that of the state before. It takes no memory.
    pub fn flip(&mut self)
        requires { IsLaidOut self.old.schema self.old.other }
        ensures { self.new ≡ record { schema = self.old.schema; current = self.old.other; other = self.old.current } }
    {
        self.twin.flip();
        mem::swap(&mut self.now, &mut self.other);
    }

    /// The greatest ordinal that has a place in the layout of the current state, none where there is no place.
    pub fn max(&self) -> Option<u32>
        ensures { result ≡ self.entry.now.current.layout.max }
    {
        self.now.max
    }

    /// How many rows the current state has.
    pub fn live_count(&self) -> u64
        ensures { result ≡ length (keys self.entry.now.current.rows) }
    {
        self.current().live().len()
    }

    /// How many words the current rows take where they stand: at the layout of the blob that last named the type, with nothing between them.
    ///
    /// The pattern names each field: nothing else is kept of a type.
    pub fn words_held(&self) -> u64
        ensures { result ≡ words_held self.entry.now.schema.shape self.entry.now.current }
    {
        let TypeState {
            alloc: _,
            schema: _,
            twin,
            now: _,
            other: _,
        } = self;
        twin.current().len() as u64
    }

    /// How many bytes of STRING and BYTES fields the current rows have.
    pub fn bytes_held(&self) -> u64
        ensures { result ≡ bytes_held (values self.entry.now.current.rows) }
    {
        bytes_of_half(&self.now)
    }

    /// The rows of the current state.
    pub fn current(&self) -> PackedRows<'_>
        ensures { result.rows ≡ self.entry.now.current.rows }
    {
        PackedRows::new(&self.schema, &self.now, self.twin.current())
    }

    /// The rows of the other half: those of the state before, or those that come next.
    pub fn other(&self) -> PackedRows<'_>
        ensures { result.rows ≡ self.entry.now.other.rows }
    {
        PackedRows::new(&self.schema, &self.other, self.twin.other())
    }

    /// One past the greatest live ordinal of the current state, 0 for none.
    pub fn bound(&self) -> u32
        ensures { result ≡ bound_of (keys self.entry.now.current.rows) }
    {
        self.current().bound()
    }

    /// Whether the current state has a row under the ordinal.
    pub fn is_live(&self, ordinal: u32) -> bool
        ensures { IsTrue result ↔ IsSome (get self.entry.now.current.rows ordinal) }
    {
        self.current().is_live(ordinal)
    }

    /// A copy of the row of the current state under a live ordinal.
    pub fn row(&self, alloc: Global, ordinal: u32) -> Result<Row, AllocError>
        requires { IsSome (get self.now.current.rows ordinal) }
        ensures { IfOk result (λ row. get self.entry.now.current.rows ordinal ≡ Some row) }
    {
        self.current().row(alloc, ordinal)
    }

    /// The rows of the current state under live ordinals, to be kept beside these when they leave.
    pub fn old_rows(&self, alloc: Global, ordinals: &[u32]) -> Result<OldRows, AllocError>
        requires { All (λ ordinal. IsSome (get self.now.current.rows ordinal)) ordinals.now }
        ensures { IfOk result (AllZip (λ ordinal row. get self.entry.now.current.rows ordinal ≡ Some row) ordinals.now) }
    {
        let current = HalfRows {
            shape: &self.schema.shape,
            half: &self.now,
            words: self.twin.current(),
        };
        OldRows::of(alloc, &self.schema, current, ordinals)
    }

    /// Whether the current rows are seen to be those of another type of the same shape, with none of them looked at: both halves are described in
    /// the same way, and have the same words. It answers true only where the rows are the same; the same rows may stand in other words too, at
    /// another layout. It takes no memory.
    pub fn has_same_rows(&self, other: &TypeState) -> bool
        requires { self.now.schema.shape ≡ other.now.schema.shape }
        ensures { IsTrue result → self.entry.now.current.rows ≡ other.entry.now.current.rows }
    {
        self.now.is_same(&other.now) && self.twin.current() == other.twin.current()
    }

    /// Whether the current state has a set with the element under the ordinal. It takes no memory.
    pub fn has(&self, ordinal: u32, element: u32) -> bool
        ensures { IsTrue result ↔ Contains (elements_of (get self.entry.now.current.rows ordinal)) element }
    {
        if !self.now.live.contains(ordinal) {
            return false;
        }
        let half = HalfRows {
            shape: &self.schema.shape,
            half: &self.now,
            words: self.twin.current(),
        };
        half.has(ordinal, element)
    }

    /// The value beside the key in the map that the current state has under the ordinal; none where it has no map there, or one without the
    /// key. It takes no memory.
    pub fn at(&self, ordinal: u32, key: u32) -> Option<u32>
        ensures { FindsIn (pairs_of (get self.entry.now.current.rows ordinal)) key result }
    {
        if !self.now.live.contains(ordinal) {
            return None;
        }
        let half = HalfRows {
            shape: &self.schema.shape,
            half: &self.now,
            words: self.twin.current(),
        };
        half.at(ordinal, key)
    }

    /// One past the greatest ordinal that was live in the state before, 0 for none.
    pub fn bound_before(&self) -> u32
        ensures { result ≡ bound_of (keys self.entry.now.other.rows) }
    {
        self.other().bound()
    }

    /// Whether the state before had a row under the ordinal.
    pub fn was_live(&self, ordinal: u32) -> bool
        ensures { IsTrue result ↔ IsSome (get self.entry.now.other.rows ordinal) }
    {
        self.other().is_live(ordinal)
    }

    /// A copy of the row of the state before under an ordinal that was live.
    pub fn row_before(&self, alloc: Global, ordinal: u32) -> Result<Row, AllocError>
        requires { IsSome (get self.now.other.rows ordinal) }
        ensures { IfOk result (λ row. get self.entry.now.other.rows ordinal ≡ Some row) }
    {
        self.other().row(alloc, ordinal)
    }

    /// One past the greatest ordinal that is live in the next half, 0 for none.
    pub fn next_bound(&self) -> u32
        requires { IsLaidOut self.now.schema self.now.other }
        ensures { result ≡ bound_of (keys self.entry.now.other.rows) }
    {
        self.other().bound()
    }

    /// Whether the next half has a row under the ordinal.
    pub fn next_is_live(&self, ordinal: u32) -> bool
        requires { IsLaidOut self.now.schema self.now.other }
        ensures { IsTrue result ↔ IsSome (get self.entry.now.other.rows ordinal) }
    {
        self.other().is_live(ordinal)
    }

    /// A copy of the row of the next half under an ordinal that is live there.
    pub fn next_row(&self, alloc: Global, ordinal: u32) -> Result<Row, AllocError>
        requires laid { IsLaidOut self.now.schema self.now.other }
        requires live { IsSome (get self.now.other.rows ordinal) }
        ensures { IfOk result (λ row. get self.entry.now.other.rows ordinal ≡ Some row) }
    {
        self.other().row(alloc, ordinal)
    }
}
