//! The lists, sets or maps of a type where they stand packed.
use bucket_codec::{BucketRows, Buckets};
use list_codec::{Elements, ListRows};

/// The lists, sets or maps of a type where they stand packed: the pointers of each place, and the elements or buckets that they bound.
#[derive(Clone, Copy)]
pub struct PackedItems<'a> {
    /// The widths of the type in bits, in a blob's order.
    pub widths: &'a [u32],
    /// The number of elements or buckets.
    pub total: u64,
    /// The words of the places: pointers, and the sizes of sets and maps.
    pub first: &'a [u64],
    /// The words of the elements or buckets.
    pub second: &'a [u64],
}

impl<'a> PackedItems<'a> {
    ghost use Rattle.std.specs.Prelude.{◌≡◌, ℕ, List, IfSome, All};
    ghost use Rattle.bucket_codec.specs.Run.{SpellsRun, taken_of, IsPairInRange};
    ghost use Rattle.bucket_codec.specs.Buckets.{run_of};
    ghost use Rattle.list_codec.specs.Elements.{elements_of};
    ghost use Rattle.column_rows.specs.Items.{HoldsListAt, HoldsRunAt, SpellsListAt, SpellsPairsAt};

    /// The elements of the list at a place; none where its pointers bound none that there are.
    #[inline(always)]
    pub fn elements(&self, place: u32) -> Option<Elements<'a>>
        requires { HoldsListAt self.now place }
        ensures { IfSome result (λ elements. (ordinals : List ℕ) → SpellsListAt self.now place ordinals → ordinals ≡ elements_of elements) }
    {
        let rows = ListRows {
            widths: self.widths,
            total: self.total,
            first: self.first,
            second: self.second,
        };
        rows.elements(u64::from(place))
    }

    /// The buckets of the set or map at a place; none where its pointers bound none that there are.
    #[inline(always)]
    pub fn buckets(&self, place: u32) -> Option<Buckets<'a>>
        requires { HoldsRunAt self.now place }
        ensures { IfSome result (λ buckets. (pairs : List (ℕ × ℕ)) → SpellsPairsAt self.now place pairs → SpellsRun (run_of buckets) pairs) }
    {
        let rows = BucketRows {
            widths: self.widths,
            total: self.total,
            first: self.first,
            second: self.second,
        };
        rows.buckets(u64::from(place))
    }
}
