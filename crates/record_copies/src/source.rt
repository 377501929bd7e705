//! Where records are copied from.
ghost use Rattle.std.specs.Prelude.{ℕ, List, ◌≡◌, ◌-◌, ◌≤◌, ◌++◌, OnOk, length, take, drop, map};
ghost use Rattle.row_model.specs.Areas.{area_of};
ghost use Rattle.object_codec.specs.Bytes.{bytes_of};

use crate::bytes::add_bytes;
use hol_varint::Octets;
use object_codec::PackedBytes;
use std::alloc::{AllocError, Global};
use std::mem;

/// Records that are copied from: their words, and the bytes of each field, wherever these stand.
pub trait RecordSource: Drop {
    /// The words of the records.
    ghost record_words: { Self → List ℕ };

    /// The bytes of each field.
    ghost field_bytes: { Self → List (List ℕ) };

    /// The words of the records.
    fn words(&self) -> &[u64]
        ensures { result.now ≡ record_words self.now };

    /// Adds the bytes of a field from one offset up to another to others, which stay where they are if there are none. Where memory is refused, the
    /// others may be gone.
    fn push_run(
        &self,
        alloc: Global,
        field: u32,
        start: u64,
        end: u64,
        area: &mut Octets,
    ) -> Result<(), AllocError>
        requires rises { start ≤ end }
        requires inside { end ≤ length (area_of (field_bytes self.now) field) }
        ensures { OnOk result (area.new ≡ area.old ++ take (end - start) (drop start (area_of (field_bytes self.now) field))) };
}

/// Records all of whose parts stand in words: the bytes of each field eight in a word.
#[derive(Clone, Copy)]
pub struct WordRecords<'a> {
    /// The words of the records.
    pub first: &'a [u64],
    /// The bytes of each field.
    pub areas: &'a [PackedBytes<'a>],
}

impl RecordSource for WordRecords<'_> {
    ghost record_words = { λ from. from.first.now };

    ghost field_bytes = { λ from. map bytes_of from.areas.now };

    #[inline(always)]
    fn words(&self) -> &[u64] {
        self.first
    }

    #[inline(always)]
    fn push_run(
        &self,
        alloc: Global,
        field: u32,
        start: u64,
        end: u64,
        area: &mut Octets,
    ) -> Result<(), AllocError> {
        if start == end {
            return Ok(());
        }
        add_bytes(alloc, self.areas[field as usize].between(start, end), area)
    }
}

/// Records as they stand in a section of a blob: the bytes of each field by themselves.
#[derive(Clone, Copy)]
pub struct SectionRecords<'a> {
    /// The words of the records.
    pub first: &'a [u64],
    /// The bytes of each field.
    pub areas: &'a [Octets],
}

impl RecordSource for SectionRecords<'_> {
    ghost record_words = { λ from. from.first.now };

    ghost field_bytes = { λ from. from.areas.now };

    #[inline(always)]
    fn words(&self) -> &[u64] {
        self.first
    }

    #[inline(always)]
    fn push_run(
        &self,
        alloc: Global,
        field: u32,
        start: u64,
        end: u64,
        area: &mut Octets,
    ) -> Result<(), AllocError> {
        if start == end {
            return Ok(());
        }
        let bytes = self.areas[field as usize].as_slice();
        add_slice(alloc, &bytes[start as usize..end as usize], area)
    }
}

/// Adds bytes to others. Where memory is refused, the others may be gone.
fn add_slice(alloc: Global, bytes: &[u8], area: &mut Octets) -> Result<(), AllocError>
    ensures { OnOk result (area.new ≡ area.old ++ bytes.now) }
{
    let mut all = mem::replace(area, Octets::new(alloc)).into_vec();
    let added = all.extend_from_slice(bytes);
    *area = Octets::from_vec(all);
    Ok(added?)
}
