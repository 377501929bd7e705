//! Look-ups in the sets and maps of a half, with nothing unpacked.
ghost use Rattle.std.specs.Prelude.{◌↔◌, IsTrue};
ghost use Rattle.std.specs.FinMap.{get};
ghost use Rattle.std.specs.List.{Contains};
ghost use Rattle.row_model.specs.Table.{RowMap};
ghost use Rattle.bucket_codec.specs.Run.{FindsIn};
ghost use Rattle.packed_half.specs.LaidOut.{HasRows, IsLaidOut};
ghost use Rattle.packed_half.specs.Lookup.{elements_of, pairs_of, AreRunsOf};

use crate::HalfRows;
use bucket_codec::BucketRows;
use schema_model::Shape;

impl HalfRows<'_> {
    /// Whether the set under an ordinal has an element; false where there is no set. It takes no memory.
    pub fn has(&self, ordinal: u32, element: u32) -> bool
        requires { HasRows self.now.shape.now self.now.half.now self.now.words.now }
        ensures { (rows : RowMap) → IsLaidOut self.now.shape.now self.now.half.now self.now.words.now rows → IsTrue result ↔ Contains (elements_of (get rows ordinal)) element }
    {
        let Shape::Set(_) = self.shape else {
            return false;
        };
        if !self.half.live.contains(ordinal) {
            return false;
        }
        self.runs().has(u64::from(ordinal), element)
    }

    /// The value beside a key of the map under an ordinal; none where there is no map, or one without the key. It takes no memory.
    pub fn at(&self, ordinal: u32, key: u32) -> Option<u32>
        requires { HasRows self.now.shape.now self.now.half.now self.now.words.now }
        ensures { (rows : RowMap) → IsLaidOut self.now.shape.now self.now.half.now self.now.words.now rows → FindsIn (pairs_of (get rows ordinal)) key result }
    {
        let Shape::Map(_, _) = self.shape else {
            return None;
        };
        if !self.half.live.contains(ordinal) {
            return None;
        }
        self.runs().at(u64::from(ordinal), key)
    }

    /// The sets or maps of the half.
    fn runs(&self) -> BucketRows<'_>
        ensures { AreRunsOf self.now.shape.now self.now.half.now self.now.words.now result }
    {
        let parts = self.cut();
        BucketRows {
            widths: self.half.widths.as_slice(),
            total: self.half.total,
            first: parts.first,
            second: parts.second,
        }
    }
}
