//! Reading numbers of a fixed size, runs of bytes, and the end.
ghost use Rattle.std.specs.Prelude.{◌≡◌, ◌≤◌, ◌+◌, ◌*◌, ◌^◌, ◌++◌, ℕ, IfErr, IfOk, OnOk, Option, length, take};
ghost use Rattle.std.specs.Int.{w8, w16, w32, w64, from_be_bytes};
ghost use Rattle.hol_io.specs.Store.{Seen};
ghost use Rattle.blob_grammar.specs.Form.{repeated};
ghost use Rattle.blob_frame.specs.Item.{counted_run, fixed, signed, run, skipped, end};
ghost use Rattle.blob_cursor.specs.Filling.{words_in};
ghost use Rattle.blob_cursor.specs.Scene.{IsAbove, Leads, IsOver, IsReadFault, Reads, scene};

use crate::cursor::Cursor;
use blob_frame::BlobFault;
use hol_io::BlobStore;
use hol_varint::Octets;
use row_model::Words;
use schema_model::Reason;
use std::alloc::AllocError;

impl Cursor {
    /// The next byte. `Truncated` where the blob has none.
    pub fn byte<S: BlobStore>(&mut self, store: &mut S) -> Result<u8, BlobFault>
        requires over { IsAbove S.seen store.old self.old }
        ensures reads { Leads S.seen (fixed w8) store.old self.old store.new self.new result }
        ensures kind { IfErr result IsReadFault }
    {
        self.need(store, 1)?;
        let byte = self.ahead()[0];
        self.pass(1);
        Ok(byte)
    }

    /// The next 2 bytes as a number, the high byte first. `Truncated` where the blob has fewer.
    pub fn be16<S: BlobStore>(&mut self, store: &mut S) -> Result<u16, BlobFault>
        requires over { IsAbove S.seen store.old self.old }
        ensures reads { Leads S.seen (fixed w16) store.old self.old store.new self.new result }
        ensures kind { IfErr result IsReadFault }
    {
        self.need(store, 2)?;
        let bytes = self.ahead();
        let number = u16::from_be_bytes([bytes[0], bytes[1]]);
        self.pass(2);
        Ok(number)
    }

    /// The next 4 bytes as a number, the highest byte first. `Truncated` where the blob has fewer.
    pub fn be32<S: BlobStore>(&mut self, store: &mut S) -> Result<u32, BlobFault>
        requires over { IsAbove S.seen store.old self.old }
        ensures reads { Leads S.seen (fixed w32) store.old self.old store.new self.new result }
        ensures kind { IfErr result IsReadFault }
    {
        self.need(store, 4)?;
        let bytes = self.ahead();
        let number = u32::from_be_bytes([bytes[0], bytes[1], bytes[2], bytes[3]]);
        self.pass(4);
        Ok(number)
    }

    /// The next 8 bytes as a number, the highest byte first. `Truncated` where the blob has fewer.
    pub fn be64<S: BlobStore>(&mut self, store: &mut S) -> Result<u64, BlobFault>
        requires over { IsAbove S.seen store.old self.old }
        ensures reads { Leads S.seen (fixed w64) store.old self.old store.new self.new result }
        ensures kind { IfErr result IsReadFault }
        ensures moved { OnOk result ((self.new.at ≡ self.old.at + 8) × (self.new.at ≤ 2 ^ 28)) }
    {
        self.need(store, 8)?;
        let number = word_of(self.ahead());
        self.pass(8);
        Ok(number)
    }

    /// The next words, so many of them, each an item of its own. `Truncated`, at the offset of the first one that is
    /// not whole, where the blob has fewer. They are taken from what was read ahead, piece by piece; the memory that they take
    /// grows with the bytes that are there.
    pub fn words<S: BlobStore>(&mut self, store: &mut S, count: u64) -> Result<Words, BlobFault>
        requires over { IsAbove S.seen store.old self.old }
        ensures reads { Leads S.seen (repeated count (fixed w64)) store.old self.old store.new self.new result }
        ensures few { IfOk result (λ words. 8 * length words ≤ 2 ^ 28) }
        ensures long { IfOk result (λ words. length words ≡ count) }
    {
        let mut list = Words::new(self.allocator());
        while (list.len() as u64) < count {
            self.need(store, 8)?;
            let there = self.ahead().len() as u64 / 8;
            let more = there.min(count - list.len() as u64) as usize;
            push_words(&mut list, self.ahead(), more)?;
            self.pass(8 * more);
        }
        Ok(list)
    }

    /// The next signed number of 8 bytes.
    pub(crate) fn signed<S: BlobStore>(&mut self, store: &mut S) -> Result<i64, BlobFault>
        requires over { IsAbove S.seen store.old self.old }
        ensures reads { Leads S.seen signed store.old self.old store.new self.new result }
    {
        Ok(self.be64(store)?.cast_signed())
    }

    /// The next run of so many bytes. `Truncated`, at the run's offset, where the blob has fewer. The
    /// memory that it takes grows with the bytes that are there.
    pub fn run<S: BlobStore>(&mut self, store: &mut S, count: u64) -> Result<Octets, BlobFault>
        requires over { IsAbove S.seen store.old self.old }
        ensures reads { Leads S.seen (run count) store.old self.old store.new self.new result }
        ensures few { IfOk result (λ bytes. length bytes ≤ 2 ^ 28) }
    {
        let start = self.at();
        if self.left() < count {
            return Err(self.bad(Reason::Truncated));
        }
        let mut bytes = Vec::new(self.allocator());
        while (bytes.len() as u64) < count {
            self.want(store, 1)?;
            let piece = self.ahead().len().min(count as usize - bytes.len());
            if piece == 0 {
                return Err(BlobFault::Bad(start, Reason::Truncated));
            }
            bytes.extend_from_slice(&self.ahead()[..piece])?;
            self.pass(piece);
        }
        Ok(Octets::from_vec(bytes))
    }

    /// The next run of bytes, whose number stands in front of it as a VLong. The faults are those of its items.
    pub fn counted_run<S: BlobStore>(&mut self, store: &mut S) -> Result<Octets, BlobFault>
        requires over { IsAbove S.seen store.old self.old }
        ensures reads { Leads S.seen counted_run store.old self.old store.new self.new result }
    {
        let count = self.vlong(store)?;
        self.run(store, count)
    }

    /// Moves past so many bytes and reads none of them. `Truncated`, at their offset, where the blob has fewer.
    pub fn skip(&mut self, count: u64) -> Result<(), BlobFault>
        ensures reads { (seen : Seen) → IsOver (scene seen self.old)
            → Reads (skipped count) (scene seen self.old) (scene seen self.new) result }
        ensures kind { IfErr result IsReadFault }
    {
        if self.left() < count {
            return Err(self.bad(Reason::Truncated));
        }
        self.jump(count);
        Ok(())
    }

    /// Moves past so many bytes, whose number was a VInt. `Truncated`, at their offset, where the blob has fewer.
    pub fn skip_counted(&mut self, count: u32) -> Result<(), BlobFault>
        ensures reads { (seen : Seen) → IsOver (scene seen self.old)
            → Reads (skipped count) (scene seen self.old) (scene seen self.new) result }
        ensures kind { IfErr result IsReadFault }
    {
        self.skip(u64::from(count))
    }

    /// The end of the blob. `TrailingBytes` where a byte stands there.
    pub fn end<S: BlobStore>(&mut self, store: &mut S) -> Result<(), BlobFault>
        requires over { IsAbove S.seen store.old self.old }
        ensures reads { Leads S.seen end store.old self.old store.new self.new result }
        ensures kind { IfErr result IsReadFault }
        ensures untouched { store.new ≡ store.old }
    {
        let _ = store;
        if self.left() > 0 {
            return Err(self.bad(Reason::TrailingBytes));
        }
        Ok(())
    }
}

/// The number that the first 8 bytes spell, the highest byte first.
#[tactic(auto, using(crate::proofs::Fixed::value_eight))]
#[inline(always)]
fn word_of(bytes: &[u8]) -> u64
    requires { 8 ≤ length bytes.now }
    ensures { result ≡ from_be_bytes w64 (take 8 bytes.now) }
{
    u64::from_be_bytes([
        bytes[0], bytes[1], bytes[2], bytes[3], bytes[4], bytes[5], bytes[6], bytes[7],
    ])
}

/// Adds the first words that bytes spell to others.
#[tactic(auto, using(crate::proofs::Words::one_more_put, crate::proofs::Words::none_put))]
fn push_words(list: &mut Words, bytes: &[u8], count: usize) -> Result<(), AllocError>
    requires { 8 * count ≤ length bytes.now }
    ensures { OnOk result (list.new ≡ list.old ++ words_in count bytes.now) }
{
    for index in 0..count {
        let at = 8 * index;
        list.push(word_of(&bytes[at..at + 8]))?;
    }
    Ok(())
}
