//! A store in memory whose calls may fail.
ghost use Rattle.std.specs.Prelude.{◌≡◌};
ghost use Rattle.std.specs.FinMap as map;
ghost use Rattle.hol_memory.specs.Calls.{first_calls};

use crate::calls::Counter;
use crate::sure_store::SureStore;
use hol_io::{BlobName, BlobStore, PutFault, StoreFailed};
use std::alloc::Global;
use std::marker::Model;

/// A store of blobs in memory. The calls of given numbers fail: puts are counted by themselves, and
/// `size`, `read_at` and `list` together.
#[derive(Debug, Drop)]
pub struct MemStore {
    store: SureStore,
    reads: Counter,
    puts: Counter,
}

impl Model for MemStore {
    ghost use Rattle.hol_memory.specs.Memory.{MemoryStore, memory_store_code};

    ghost Value = { MemoryStore };

    ghost coded = { memory_store_code };

    ghost view = { λ s. record { held = s.store.held; reads = s.reads; puts = s.puts } };
}

impl MemStore {
    /// A store without names. It takes no memory. The calls of `size`, `read_at` and `list` whose
    /// number among them, from 1, is in `fail_reads` fail, and so do the puts whose number is in
    /// `fail_puts`.
    pub fn new(alloc: Global, fail_reads: Vec<u64>, fail_puts: Vec<u64>) -> MemStore
        ensures held { result.held ≡ map.empty }
        ensures reads { result.reads ≡ first_calls fail_reads.items }
        ensures puts { result.puts ≡ first_calls fail_puts.items }
    {
        MemStore {
            store: SureStore::new(alloc),
            reads: Counter::new(fail_reads),
            puts: Counter::new(fail_puts),
        }
    }
}

impl BlobStore for MemStore {
    ghost use Rattle.std.specs.Prelude.{◌≡◌, ◌-◌, ◌↔◌, [], Some, length, take, drop, min, IfOk, OnOk, OnErr, IsErr, is_err};
    ghost use Rattle.std.specs.Option.{option_map};
    ghost use Rattle.std.specs.Result.{IsErrOf};
    ghost use Rattle.std.specs.FinMap as map;
    ghost use Rattle.hol_memory.specs.Calls.{FailsNext, after_call, is_failed};
    ghost use Rattle.hol_io.specs.Causes.{HasCause, HasPutCause};
    ghost use Rattle.hol_memory.specs.Memory.{store_faults};
    ghost use Rattle.hol_io.specs.Buffer.{KeepsRest};
    ghost use Rattle.hol_io.specs.Store.{HoldsBytes, content, names, IsFront};

    ghost seen = { λ s. record { held = Some s.held; faults = store_faults s; puts = s.puts.made } };

    fn told_bytes(&self)
        ensures { HoldsBytes self.now.held }
    {
        self.store.told_bytes();
    }

    fn size(&mut self, name: &BlobName) -> Result<Option<u64>, StoreFailed>
        ensures cause { HasCause (store_faults self.old) (store_faults self.new) result }
        ensures size { IfOk result (λ size. size ≡ option_map length (map.get self.old.held name.now)) }
        ensures fails { IsErr result ↔ FailsNext self.old.reads }
        ensures counted { self.new ≡ record self.old { reads = after_call self.old.reads (is_err result) } }
    {
        if self.reads.fails_now() {
            return Err(StoreFailed);
        }
        self.store.size(name)
    }

    fn read_at(&mut self, name: &BlobName, at: u64, buf: &mut [u8]) -> Result<usize, StoreFailed>
        ensures cause { HasCause (store_faults self.old) (store_faults self.new) result }
        ensures count { IfOk result
            (λ count. count ≡ min (length buf.old) (length (content self.old.held name.now) - at)) }
        ensures placed { IfOk result
            (λ count. take count buf.new ≡ take count (drop at (content self.old.held name.now))) }
        ensures rest { KeepsRest buf.old buf.new result }
        ensures fails { IsErr result ↔ FailsNext self.old.reads }
        ensures counted { self.new ≡ record self.old { reads = after_call self.old.reads (is_err result) } }
    {
        if self.reads.fails_now() {
            return Err(StoreFailed);
        }
        self.store.read_at(name, at, buf)
    }

    fn put(&mut self, name: &BlobName, bytes: &[u8]) -> Result<(), PutFault>
        ensures cause { HasPutCause (store_faults self.old) (store_faults self.new) result }
        ensures put { OnOk result (self.new.held ≡ map.insert self.old.held name.now bytes.now) }
        ensures kept { OnErr result (self.new.held ≡ self.old.held) }
        ensures fails { IsErrOf result PutFault.Failed ↔ FailsNext self.old.puts }
        ensures counted { self.new.puts ≡ after_call self.old.puts (is_failed result) }
        ensures reads { self.new.reads ≡ self.old.reads }
    {
        if self.puts.fails_now() {
            return Err(PutFault::Failed);
        }
        self.store.put(name, bytes)
    }

    fn list(&mut self, out: &mut Vec<BlobName>) -> Result<(), PutFault>
        requires { out.old.items ≡ [] }
        ensures cause { HasPutCause (store_faults self.old) (store_faults self.new) result }
        ensures listed { OnOk result (out.new.items ≡ names self.old.held) }
        ensures part { OnErr result (IsFront out.new.items (names self.old.held)) }
        ensures fails { IsErrOf result PutFault.Failed ↔ FailsNext self.old.reads }
        ensures counted { self.new ≡ record self.old { reads = after_call self.old.reads (is_failed result) } }
    {
        if self.reads.fails_now() {
            return Err(PutFault::Failed);
        }
        self.store.list(out)
    }
}
