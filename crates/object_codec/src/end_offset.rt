//! What the element of a STRING or BYTES holds.
ghost use Rattle.std.specs.Prelude.{◌≡◌, ◌↔◌, ◌+◌, ◌-◌, ◌^◌, ◌<◌, ◌≤◌, IsFalse, IsTrue};
ghost use Rattle.object_codec.specs.Part.{offset_in};

use bit_array::all_ones;

/// What the element of a STRING or BYTES holds: where its bytes end, and the null bit above that offset.
#[derive(Clone, Copy)]
pub struct EndOffset {
    /// Where the bytes end, in those of the field.
    pub end: u64,
    /// Whether the null bit is set.
    pub is_null: bool,
}

impl EndOffset {
    /// What an element of this width holds.
    #[inline(always)]
    pub fn of(element: u64, width: u32) -> EndOffset
        requires some { 1 ≤ width }
        requires narrow { width ≤ 64 }
        ensures end { result.end ≡ offset_in width element }
        ensures null { IsTrue result.is_null ↔ (2 ^ (width - 1) ≤ element) }
    {
        let null_bit = 1 << (width - 1);
        EndOffset {
            end: element % null_bit,
            is_null: element >= null_bit,
        }
    }

    /// Whether an end offset lies below the null bit of an element of this width.
    #[inline(always)]
    pub fn fits(end: u64, width: u32) -> bool
        requires { width ≤ 64 }
        ensures { IsTrue result ↔ (end < 2 ^ (width - 1)) }
    {
        end <= all_ones(width.saturating_sub(1))
    }

    /// The element of this width that holds the offset.
    #[inline(always)]
    pub fn element(self, width: u32) -> u64
        requires some { 1 ≤ width }
        requires narrow { width ≤ 64 }
        requires fits { self.end < 2 ^ (width - 1) }
        ensures null { IsTrue self.is_null → result ≡ self.end + 2 ^ (width - 1) }
        ensures some { IsFalse self.is_null → result ≡ self.end }
    {
        if self.is_null {
            return self.end + (1 << (width - 1));
        }
        self.end
    }
}
