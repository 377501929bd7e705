//! Laws of the definitions: words are those of one set of rows at most, a half is a well-formed section, and how many words and bytes it has.
ghost use Rattle.std.specs.Prelude.{◌≡◌, ◌+◌, ℕ, List, length, sum};
ghost use Rattle.std.specs.FinMap.{values};
ghost use Rattle.schema_model.specs.declared.schema.Shape.{Shape};
ghost use Rattle.row_model.specs.Table.{RowMap};
ghost use Rattle.type_rows.specs.Ends.{AreOfKind};
ghost use Rattle.type_rows.specs.Layout.{fixed_words};
ghost use Rattle.type_rows.specs.WellFormed.{IsWellFormed};
ghost use Rattle.type_rows.specs.WordsHeld.{bytes_held};
ghost use Rattle.packed_half.specs.declared.half.HalfShape.{HalfShape};
ghost use Rattle.packed_half.specs.Half.{byte_words, layout_in, section_in};
ghost use Rattle.packed_half.specs.LaidOut.{IsLaidOut, lengths_of};

/// The words of a half are those of one set of rows at most.
pub fn one_set_of_rows()
    ensures { (shape : Shape) (half : HalfShape) (words : List ℕ) (a b : RowMap) → IsLaidOut shape half words a → IsLaidOut shape half words b → a ≡ b }
{}

/// A half that is laid out is a well-formed section, so its rows fit the type and are in range.
pub fn half_is_well_formed()
    ensures { (shape : Shape) (half : HalfShape) (words : List ℕ) (rows : RowMap) → IsLaidOut shape half words rows → IsWellFormed shape (section_in shape half words) }
{}

/// A half has as many words as the fixed words of its rows and the words of the bytes of each field together, and as many bytes as its rows.
pub fn counts_of_half()
    ensures words { (shape : Shape) (half : HalfShape) (words : List ℕ) (rows : RowMap) → IsLaidOut shape half words rows → length words ≡ fixed_words shape (layout_in half) (values rows) + byte_words (lengths_of shape (values rows)) }
    ensures bytes { (shape : Shape) (half : HalfShape) (words : List ℕ) (rows : RowMap) → AreOfKind shape rows → IsLaidOut shape half words rows → sum half.lengths ≡ bytes_held (values rows) }
{}
