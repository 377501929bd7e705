//! The lists of a type where they stand packed, place by place.
use crate::elements::Elements;
use bit_array::element_at;

/// The lists of a type where they stand packed: a pointer for each place, and the elements that the pointers bound.
///
/// The pointer at a place is the end of its list in elements, and the start is the pointer of the place before, or 0.
#[derive(Clone, Copy)]
pub struct ListRows<'a> {
    /// The widths of the type in bits: of a pointer and of an element.
    pub widths: &'a [u32],
    /// The number of elements.
    pub total: u64,
    /// The words of the pointers.
    pub first: &'a [u64],
    /// The words of the elements.
    pub second: &'a [u64],
}

impl<'a> ListRows<'a> {
    ghost use Rattle.std.specs.Prelude.{◌≡◌, ◌-◌, ◌↔◌, IsTrue, MatchOption};
    ghost use Rattle.list_codec.specs.ListPlace.{start_at, end_at, elements_at};
    ghost use Rattle.list_codec.specs.Elements.{elements_of};
    ghost use Rattle.list_codec.specs.ListRows.{HoldsAt, HasElementsAt};

    /// The end of the list at a place, in elements: its pointer.
    #[inline(always)]
    fn end(&self, place: u64) -> u64
        requires { HoldsAt self.now place }
        ensures { result ≡ end_at self.now.widths.now self.now.first.now place }
    {
        element_at(self.first, place, self.widths[0])
    }

    /// The start of the list at a place: the end of the one before it, and 0 for place 0.
    #[inline(always)]
    fn start(&self, place: u64) -> u64
        requires { HoldsAt self.now place }
        ensures { result ≡ start_at self.now.widths.now self.now.first.now place }
    {
        if place == 0 {
            return 0;
        }
        element_at(self.first, place - 1, self.widths[0])
    }

    /// How many elements stand at a place by its pointers; 0 where they fall.
    pub fn length(&self, place: u64) -> u64
        requires { HoldsAt self.now place }
        ensures { result ≡ end_at self.now.widths.now self.now.first.now place - start_at self.now.widths.now self.now.first.now place }
    {
        self.end(place).saturating_sub(self.start(place))
    }

    /// Whether the list at a place ends where it starts.
    pub fn is_empty(&self, place: u64) -> bool
        requires { HoldsAt self.now place }
        ensures { IsTrue result ↔ (end_at self.now.widths.now self.now.first.now place ≡ start_at self.now.widths.now self.now.first.now place) }
    {
        self.end(place) == self.start(place)
    }

    /// Where the list at a place starts and ends, counted in elements; none where the pointers bound none that there are.
    pub(crate) fn bounds(&self, place: u64) -> Option<(u64, u64)>
        requires { HoldsAt self.now place }
        ensures { MatchOption result (HasElementsAt self.now place → ⊥) (λ bounds. HasElementsAt self.now place × (bounds.0 ≡ start_at self.now.widths.now self.now.first.now place) × (bounds.1 ≡ end_at self.now.widths.now self.now.first.now place)) }
    {
        let start = self.start(place);
        let end = self.end(place);
        if start > end {
            return None;
        }
        if end > self.total {
            return None;
        }
        if u128::from(end) * u128::from(self.widths[1]) > 64 * self.second.len() as u128 {
            return None;
        }
        Some((start, end))
    }

    /// The elements of the list at a place; none where the pointers bound none that there are.
    pub fn elements(&self, place: u64) -> Option<Elements<'a>>
        requires { HoldsAt self.now place }
        ensures { MatchOption result (HasElementsAt self.now place → ⊥) (λ elements. HasElementsAt self.now place × (elements_of elements ≡ elements_at self.now.widths.now self.now.first.now self.now.second.now place)) }
    {
        let Some((start, end)) = self.bounds(place) else {
            return None;
        };
        Some(Elements {
            words: self.second,
            start,
            len: end - start,
            width: self.widths[1],
        })
    }
}
