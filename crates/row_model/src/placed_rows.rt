//! Rows at places, wherever they stand.
ghost use Rattle.std.specs.Prelude.{List, ◌≡◌, ◌<◌, length, slice_get, Option, Some, IfOk};
ghost use Rattle.std.specs.Option.{option_map};
ghost use Rattle.row_model.specs.declared.row.Row.{Row};
ghost use Rattle.row_model.specs.Lent.{lent_row};

use crate::LentRow;
use std::alloc::{AllocError, Global};

/// The rows at the places 0, 1 and so on, of which some may hold none, wherever they stand.
pub trait PlacedRows {
    /// What stands at each place: a row or none.
    ghost places: { Self → List (Option Row) };

    /// How many places there are.
    fn count(&self) -> usize
        ensures { result ≡ length (places self.now) };

    /// The row at a place, to look at, none where it holds none: lent where it stands as a row, and else made, for which memory is taken.
    fn place(&self, alloc: Global, place: usize) -> Result<Option<LentRow<'_>>, AllocError>
        requires { place < length (places self.now) }
        ensures { IfOk result (λ row. slice_get (places self.now) place ≡ Some (option_map lent_row row)) };
}
