//! What is known of some rows beside themselves.
ghost use Rattle.std.specs.Prelude.{◌≡◌};

use row_model::Widths;

/// The layout of the rows of a type in one state, and the bound of their ordinals.
#[derive(Debug, Drop)]
pub struct Outline {
    /// The greatest ordinal that has a place; none where there is no place.
    pub max: Option<u32>,
    /// The widths of the parts of a row, in bits, in the blob's order.
    pub widths: Widths,
    /// One past the greatest live ordinal, 0 for none.
    pub bound: u32,
}

impl Outline {
    /// That of no rows at a layout.
    pub fn new(max: Option<u32>, widths: Widths) -> Outline
        ensures { result ≡ record { max = max; widths = widths; bound = 0 } }
    {
        Outline {
            max,
            widths,
            bound: 0,
        }
    }
}
