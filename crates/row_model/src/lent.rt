//! Rows to look at.
ghost use Rattle.std.specs.Prelude.{◌≡◌, option_copied};
ghost use Rattle.std.specs.Option.{option_map};
ghost use Rattle.row_model.specs.Lent.{lent_row};

use crate::Row;

/// A row to look at: one that stands somewhere, or one that was made of what stands there.
#[derive(Debug, Drop)]
pub enum LentRow<'a> {
    /// The row where it stands.
    Kept(&'a Row),
    /// A row that was made.
    Made(Row),
}

impl LentRow<'_> {
    /// The row, whether it stands somewhere or was made.
    pub fn row(&self) -> &Row
        ensures { result.now ≡ lent_row self.now }
    {
        match self {
            LentRow::Kept(row) => row,
            LentRow::Made(row) => row,
        }
    }
}

/// The row of a place, none where it holds none.
#[inline(always)]
pub fn row_of_place<'a>(place: &'a Option<LentRow<'_>>) -> Option<&'a Row>
    ensures { option_copied result ≡ option_map lent_row place.now }
{
    match place {
        Some(lent) => Some(lent.row()),
        None => None,
    }
}
