//! The elements of a list where they stand packed.
ghost use Rattle.std.specs.Prelude.{◌*◌, ◌+◌, ◌^◌, ◌<◌, ◌≤◌, length};

use bit_array::element_at;
use hol_varint::Ordinals;
use row_model::PlaceFault;
use schema_model::Reason;
use std::alloc::Global;

/// Elements of one width that stand in words behind one another.
#[derive(Clone, Copy)]
pub struct Elements<'a> {
    /// The words in which they stand, maybe beside others.
    pub words: &'a [u64],
    /// How many elements of the words stand before these.
    pub start: u64,
    /// How many elements these are.
    pub len: u64,
    /// The width of each, in bits.
    pub width: u32,
    ghost narrow: { width ≤ 64 },
    ghost inside: { (start + len) * width ≤ 64 * length words.now },
    ghost counted: { start + len < 2 ^ 64 },
}

impl<'a> Elements<'a> {
    ghost use Rattle.std.specs.Prelude.{◌≡◌, slice_index};
    ghost use Rattle.list_codec.specs.Elements.{elements_of, TellsOrdinals};

    /// The element at an index.
    #[inline(always)]
    pub fn element(self, index: u64) -> u64
        requires { index < self.len }
        ensures { result ≡ slice_index (elements_of self.entry) index }
    {
        element_at(self.words, self.start + index, self.width)
    }

    /// The elements as ordinals; `BadValue` where one is over 2^32 - 1.
    ///
    /// Room for all of them is asked for at once only where each takes bits.
    pub(crate) fn ordinals(self, alloc: Global) -> Result<Ordinals, PlaceFault>
        ensures { TellsOrdinals (elements_of self.entry) result }
    {
        let room = if self.width == 0 { 0 } else { self.len };
        let mut ordinals = Ordinals::with_capacity(alloc, room as usize)?;
        for index in 0..self.len {
            let element = self.element(index);
            if element > u64::from(u32::MAX) {
                return Err(PlaceFault::Bad(Reason::BadValue));
            }
            ordinals.push(element as u32)?;
        }
        Ok(ordinals)
    }
}
