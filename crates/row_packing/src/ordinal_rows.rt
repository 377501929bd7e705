//! Rows whose ordinals stand as sets.
ghost use Rattle.std.specs.Prelude.{ℕ, ◌↔◌, ◌<◌, Contains, length};
ghost use Rattle.row_model.specs.Table.{IsLive};

use ordinal_set::OrdinalSet;
use row_model::Rows;

/// Rows of which the ordinals of each type stand as a set, so that two states are compared a word at a time.
pub trait OrdinalRows: Rows {
    /// The ordinals under which a type has rows.
    fn ordinals(&self, type_index: u32) -> &OrdinalSet
        requires { type_index < length (Self.schemas self.now) }
        ensures { (ordinal : ℕ) → Contains result.now ordinal ↔ IsLive (Self.table self.now) type_index ordinal };
}
