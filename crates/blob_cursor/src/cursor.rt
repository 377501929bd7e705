//! A place in a blob of a store, and the bytes that were read ahead.
ghost use Rattle.std.specs.Prelude.{◌≡◌, ◌≤◌, ◌+◌, ◌^◌, ℕ, List, Option, length, drop, min, IsTrue, IfErr, IfOk, OnOk, OnSome, Result, Ok, Err};
ghost use Rattle.hol_io.specs.Causes.{Rose};
ghost use Rattle.hol_io.specs.Store.{Store, told};
ghost use Rattle.blob_cursor.specs.Scene.{IsAbove, Leads, Place, IsOver, IsPlaceIn, scene, moved};
ghost use Rattle.blob_cursor.specs.Filling.{Fills, Needs};
ghost use Rattle.blob_cursor.specs.Starting.{Starts, IsStart, IsStartFault};

use blob_frame::BlobFault;
use hol_io::{BlobName, BlobStore};
use schema_model::{Limit, MAX_BLOB_BYTES, Reason};
use std::alloc::Global;
use std::marker::Model;

/// How many bytes a cursor reads ahead.
const WINDOW: usize = 4096;

/// A place in a blob of a store, from which its items are read in byte order.
#[derive(Drop)]
pub struct Cursor {
    alloc: Global,
    name: BlobName,
    /// The blob's length in bytes.
    size: u64,
    /// The offset of the next item.
    at: u64,
    /// The bytes that were read ahead stand in here, from `begin` up to `end`.
    buffer: Vec<u8>,
    begin: usize,
    end: usize,
}

impl Model for Cursor {
    ghost use Rattle.std.specs.Prelude.{◌≡◌, ◌≤◌, ◌+◌, ◌-◌, ◌^◌, ℕ, take, drop, vec_len, length};
    ghost use Rattle.blob_cursor.specs.Scene.{Place};

    ghost Value = { Place };

    ghost view = { λ cursor. record {
      name = cursor.name;
      size = cursor.size;
      at = cursor.at;
      ahead = take (cursor.end - cursor.begin) (drop cursor.begin cursor.buffer.items);
    } };

    ghost invariant = { λ cursor. (vec_len cursor.buffer ≡ 4096) × (cursor.begin ≤ cursor.end) × (cursor.end ≤ 4096)
        × (cursor.at + (cursor.end - cursor.begin) ≤ cursor.size) × (cursor.size ≤ 2 ^ 28) };
}

impl Cursor {
    /// A cursor at the start of a blob, with an empty buffer of 4,096 bytes. `NoBlob` comes exactly
    /// where the name is not there, `Large` exactly where the blob has more than 2^28 bytes, each but
    /// for `Store`, which comes only where the store's count of faults rose, and `Memory`.
    pub fn start<S: BlobStore>(
        alloc: Global,
        store: &mut S,
        name: &BlobName,
    ) -> Result<Cursor, BlobFault>
        ensures kept { (S.seen store.new).held ≡ (S.seen store.old).held }
        ensures puts { (S.seen store.new).puts ≡ (S.seen store.old).puts }
        ensures later { (S.seen store.old).faults ≤ (S.seen store.new).faults }
        ensures cause { result ≡ Err BlobFault.Store → Rose (S.seen store.old).faults (S.seen store.new).faults }
        ensures kind { IfErr result (IsStartFault name.now) }
        ensures start { IfOk result (IsStart name.now) }
        ensures over { IfOk result (λ place. IsOver (scene (S.seen store.new) place)) }
        ensures starts { OnSome (S.seen store.old).held (Starts name.now (told (S.seen store.old).held name.now) result) }
    {
        let size = store.size(name)?;
        let Some(size) = size else {
            return Err(BlobFault::NoBlob(*name));
        };
        if size > MAX_BLOB_BYTES {
            return Err(BlobFault::Large(Limit::Blob));
        }
        Ok(Cursor {
            alloc,
            name: *name,
            size,
            at: 0,
            buffer: vec![in alloc; 0; WINDOW]?,
            begin: 0,
            end: 0,
        })
    }

    /// The offset of the next item.
    pub fn at(&self) -> u64
        ensures { result ≡ self.now.at }
    {
        self.at
    }

    /// How many bytes of the blob are left.
    pub(crate) fn left(&self) -> u64
        ensures value { result + self.now.at ≡ self.now.size }
        ensures few { result ≤ 2 ^ 28 }
    {
        self.size - self.at
    }

    /// The bytes that were read ahead.
    pub(crate) fn ahead(&self) -> &[u8]
        ensures value { result.now ≡ self.now.ahead }
    {
        &self.buffer[self.begin..self.end]
    }

    /// Moves past bytes that were read ahead.
    pub(crate) fn pass(&mut self, count: usize)
        requires { count ≤ length self.old.ahead }
        ensures moved { self.new ≡ moved self.old count }
        ensures within { self.new.at ≤ self.new.size }
        ensures few { self.new.at ≤ 2 ^ 28 }
    {
        self.begin += count;
        self.at += count as u64;
    }

    /// Moves past so many bytes, which are there, and reads none of them.
    pub(crate) fn jump(&mut self, count: u64)
        requires { self.old.at + count ≤ self.old.size }
        ensures same { (self.new.name ≡ self.old.name) × (self.new.size ≡ self.old.size) }
        ensures at { self.new.at ≡ self.old.at + count }
        ensures over { (content : Option (List ℕ)) → IsPlaceIn self.old content → IsPlaceIn self.new content }
    {
        match usize::try_from(count) {
            Ok(ahead) if ahead <= self.ahead().len() => self.pass(ahead),
            _ => {
                self.at += count;
                self.begin = 0;
                self.end = 0;
            }
        }
    }

    /// What the cursor takes memory from.
    pub fn allocator(&self) -> Global {
        self.alloc
    }

    /// The fault of an item at the cursor's place.
    pub(crate) fn bad(&self, reason: Reason) -> BlobFault
        ensures { result ≡ BlobFault.Bad self.now.at reason }
    {
        BlobFault::Bad(self.at, reason)
    }

    /// Reads ahead as many bytes as the buffer holds.
    fn fill<S: BlobStore>(&mut self, store: &mut S) -> Result<(), BlobFault>
        requires { IsAbove S.seen store.old self.old }
        ensures fills { Fills 4096 (scene (S.seen store.old) self.old)
            (scene (S.seen store.new) self.new) result }
    {
        self.begin = 0;
        self.end = 0;
        let count = store.read_at(&self.name, self.at, self.buffer.as_mut_slice())?;
        self.end = usize::try_from(self.left()).map_or(count, |left| count.min(left));
        Ok(())
    }

    /// Reads ahead until this many bytes stand there, or the blob ends.
    pub(crate) fn want<S: BlobStore>(
        &mut self,
        store: &mut S,
        count: usize,
    ) -> Result<(), BlobFault>
        requires few { count ≤ 4096 }
        requires over { IsAbove S.seen store.old self.old }
        ensures fills { Fills count (scene (S.seen store.old) self.old)
            (scene (S.seen store.new) self.new) result }
    {
        if self.ahead().len() < count {
            self.fill(store)?;
        }
        Ok(())
    }

    /// Reads ahead until this many bytes stand there; `Truncated` where the blob ends before.
    pub(crate) fn need<S: BlobStore>(
        &mut self,
        store: &mut S,
        count: usize,
    ) -> Result<(), BlobFault>
        requires few { count ≤ 4096 }
        requires over { IsAbove S.seen store.old self.old }
        ensures needs { Needs count (scene (S.seen store.old) self.old)
            (scene (S.seen store.new) self.new) result }
    {
        self.want(store, count)?;
        if self.ahead().len() < count {
            return Err(self.bad(Reason::Truncated));
        }
        Ok(())
    }
}
