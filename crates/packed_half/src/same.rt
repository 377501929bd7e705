//! Whether two halves are described in the same way.
ghost use Rattle.std.specs.Prelude.{◌≡◌, ◌↔◌, IsTrue};

use crate::HalfShape;
use ordinal_set::OrdinalSet;

impl HalfShape {
    /// Whether this is what describes another half too: the greatest place, the widths, the counts and the live ordinals. It takes no memory.
    pub fn is_same(&self, other: &HalfShape) -> bool
        ensures { IsTrue result ↔ (self.now ≡ other.now) }
    {
        self.max == other.max
            && self.total == other.total
            && self.widths == other.widths
            && self.lengths == other.lengths
            && have_same_members(&self.live, &other.live)
    }
}

/// Whether two sets have the same members, each looked for from the one before it on.
fn have_same_members(set: &OrdinalSet, other: &OrdinalSet) -> bool
    ensures { IsTrue result ↔ (set.now ≡ other.now) }
{
    let mut from = 0;
    while let Some(ordinal) = set.next_from(from) {
        if other.next_from(from) != Some(ordinal) {
            return false;
        }
        from = ordinal + 1;
    }
    other.next_from(from).is_none()
}
