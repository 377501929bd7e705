//! A store in memory that never fails.
ghost use Rattle.std.specs.Prelude.{◌≡◌};
ghost use Rattle.std.specs.Option.{option_copied};
ghost use Rattle.std.specs.FinMap as map;

use crate::buffer::{are_bytes, place_from};
use hol_io::{BlobName, BlobStore, PutFault, StoreFailed};
use std::alloc::Global;
use std::collections::BTreeMap;
use std::marker::Model;

/// A store of blobs in memory, which never fails.
#[derive(Debug, Drop)]
pub struct SureStore {
    alloc: Global,
    entries: BTreeMap<BlobName, Vec<u8>>,
    puts: u64,
}

impl Model for SureStore {
    ghost use Rattle.hol_io.specs.Store.{HoldsBytes};
    ghost use Rattle.hol_memory.specs.Memory.{SureContent, sure_content_code};
    ghost use Rattle.hol_memory.specs.Entries.{store_of};

    ghost Value = { SureContent };

    ghost coded = { sure_content_code };

    ghost view = { λ s. record { held = store_of s.entries.entries; puts = s.puts } };

    ghost invariant = { λ s. HoldsBytes (store_of s.entries.entries) };
}

impl SureStore {
    /// A store without names. It takes no memory.
    #[tactic(auto, using(crate::proofs::EntryLemmas::holds_none))]
    pub fn new(alloc: Global) -> SureStore
        ensures held { result.held ≡ map.empty }
        ensures puts { result.puts ≡ 0 }
    {
        SureStore {
            alloc,
            entries: BTreeMap::new(alloc),
            puts: 0,
        }
    }

    // What a name holds.
    #[tactic(auto, using(crate::proofs::EntryLemmas::get_same))]
    fn content(&self, name: &BlobName) -> Option<&[u8]>
        ensures { option_copied result ≡ map.get self.now.held name.now }
    {
        self.entries.get(name).map(|bytes| bytes.as_slice())
    }
}

impl BlobStore for SureStore {
    ghost use Rattle.std.specs.Prelude.{◌≡◌, ◌-◌, [], Some, Ok, length, take, drop, min, IfOk, OnOk, OnErr, IsOkUnless};
    ghost use Rattle.std.specs.Option.{option_map};
    ghost use Rattle.std.specs.FinMap as map;
    ghost use Rattle.hol_io.specs.Buffer.{KeepsRest};
    ghost use Rattle.hol_memory.specs.Calls.{one_more};
    ghost use Rattle.hol_io.specs.Store.{HoldsBytes, content, names, IsFront};

    ghost seen = { λ s. record { held = Some s.held; faults = 0; puts = s.puts } };

    fn told_bytes(&self)
        ensures { HoldsBytes self.now.held }
    {
        let _entries = &self.entries;
    }

    fn size(&mut self, name: &BlobName) -> Result<Option<u64>, StoreFailed>
        ensures size { result ≡ Ok (option_map length (map.get self.old.held name.now)) }
        ensures kept { self.new ≡ self.old }
    {
        Ok(self.content(name).map(|bytes| bytes.len() as u64))
    }

    fn read_at(&mut self, name: &BlobName, at: u64, buf: &mut [u8]) -> Result<usize, StoreFailed>
        ensures count { result ≡ Ok (min (length buf.old) (length (content self.old.held name.now) - at)) }
        ensures placed { IfOk result
            (λ count. take count buf.new ≡ take count (drop at (content self.old.held name.now))) }
        ensures rest { KeepsRest buf.old buf.new result }
        ensures kept { self.new ≡ self.old }
    {
        match self.content(name) {
            Some(bytes) => Ok(place_from(buf, bytes, at)),
            None => Ok(0),
        }
    }

    #[tactic(auto, using(crate::proofs::EntryLemmas::insert_same, crate::proofs::EntryLemmas::holds_inserted))]
    fn put(&mut self, name: &BlobName, bytes: &[u8]) -> Result<(), PutFault>
        ensures sure { IsOkUnless result PutFault.Memory }
        ensures put { OnOk result (self.new.held ≡ map.insert self.old.held name.now bytes.now) }
        ensures kept { OnErr result (self.new.held ≡ self.old.held) }
        ensures counted { self.new.puts ≡ one_more self.old.puts }
    {
        are_bytes(bytes);
        self.puts = self.puts.saturating_add(1);
        let content = Vec::from_slice(self.alloc, bytes)?;
        self.entries.insert(*name, content)?;
        Ok(())
    }

    #[tactic(auto, using(crate::proofs::EntryLemmas::names_same))]
    fn list(&mut self, out: &mut Vec<BlobName>) -> Result<(), PutFault>
        requires { out.old.items ≡ [] }
        ensures sure { IsOkUnless result PutFault.Memory }
        ensures listed { OnOk result (out.new.items ≡ names self.old.held) }
        ensures part { OnErr result (IsFront out.new.items (names self.old.held)) }
        ensures kept { self.new ≡ self.old }
    {
        for name in self.entries.keys() {
            out.push(*name)?;
        }
        Ok(())
    }
}
