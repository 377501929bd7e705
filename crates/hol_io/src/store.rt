//! Where blobs are kept.
use crate::name::BlobName;
use std::alloc::{AllocError, AllocFailed};

/// A size, a reading or so failed. It comes only where the store's count of faults rose.
#[derive(Debug, Clone, Copy, PartialEq, Eq)]
pub struct StoreFailed;

/// Why a put or a list was refused.
#[derive(Debug, Clone, Copy, PartialEq, Eq)]
pub enum PutFault {
    /// The store failed. It comes only where the store's count of faults rose.
    Failed,
    /// Memory was refused.
    Memory,
}

impl From<AllocError> for PutFault {
    ghost use Rattle.std.specs.Prelude.{◌≡◌};
    ghost use Rattle.hol_io.specs.declared.store.PutFault.TheVariants.{Memory};

    ghost from_gives = { λ _ fault. fault ≡ Memory };

    fn from(_error: AllocError) -> PutFault {
        PutFault::Memory
    }
}

impl<T: Drop> From<AllocFailed<T>> for PutFault {
    ghost use Rattle.std.specs.Prelude.{◌≡◌};
    ghost use Rattle.hol_io.specs.declared.store.PutFault.TheVariants.{Memory};

    ghost from_gives = { λ _ fault. fault ≡ Memory };

    fn from(_error: AllocFailed<T>) -> PutFault {
        PutFault::Memory
    }
}

/// A store of blobs under names.
pub trait BlobStore {
    ghost use Rattle.std.specs.Prelude.{◌≡◌, ℕ, ◌-◌, List, [], Option, None, length, take, drop, min, IfOk, OnOk, OnErr, OnSome, IfSome};
    ghost use Rattle.std.specs.Option.{option_map};
    ghost use Rattle.std.specs.Io.{ReadsAtMost};
    ghost use Rattle.hol_io.specs.Causes.{HasCause, HasPutCause, Rose};
    ghost use Rattle.hol_io.specs.Buffer.{KeepsRest};
    ghost use Rattle.hol_io.specs.Store.{HoldsBytes, Seen, told, with_content, names, IsFront};

    // The names and their contents, where the store tells them, how many faults came so far, and how often something was
    // put. Only a put raises that count.
    ghost seen: { Self → Seen };

    /// What the store tells that a name holds are bytes. The call does nothing.
    fn told_bytes(&self)
        ensures { IfSome (seen self.now).held HoldsBytes };

    /// The number of bytes that a name holds, or `None` exactly where the name is not there.
    /// `StoreFailed` comes only where the count of faults rose. The content stays as it was.
    fn size(&mut self, name: &BlobName) -> Result<Option<u64>, StoreFailed>
        ensures cause { HasCause ((seen self.old).faults) ((seen self.new).faults) result }
        ensures size { OnSome (seen self.old).held
            (IfOk result (λ size. size ≡ option_map length (told (seen self.old).held name.now))) }
        ensures kept { (seen self.new).held ≡ (seen self.old).held }
        ensures unput { (seen self.new).puts ≡ (seen self.old).puts };

    /// Places what a name holds from byte `at` on at the front of `buf`, as many bytes as there are
    /// and as fit, and gives their number: 0 past the end, and for a name that is not there.
    /// `StoreFailed` comes only where the count of faults rose. The content stays as it was.
    fn read_at(&mut self, name: &BlobName, at: u64, buf: &mut [u8]) -> Result<usize, StoreFailed>
        ensures cause { HasCause ((seen self.old).faults) ((seen self.new).faults) result }
        ensures bound { ReadsAtMost result buf.new }
        ensures count { IfSome (told (seen self.old).held name.now)
            (λ bytes. IfOk result (λ count. count ≡ min (length buf.old) (length bytes - at))) }
        ensures placed { IfSome (told (seen self.old).held name.now)
            (λ bytes. IfOk result (λ count. take count buf.new ≡ take count (drop at bytes))) }
        ensures absent { OnSome (seen self.old).held
            (told (seen self.old).held name.now ≡ None → IfOk result (λ count. count ≡ 0)) }
        ensures rest { OnSome (seen self.old).held (KeepsRest buf.old buf.new result) }
        ensures kept { (seen self.new).held ≡ (seen self.old).held }
        ensures unput { (seen self.new).puts ≡ (seen self.old).puts };

    /// Makes a name hold the bytes. After a refusal the store holds what it held. `Failed` comes only
    /// where the count of faults rose.
    fn put(&mut self, name: &BlobName, bytes: &[u8]) -> Result<(), PutFault>
        ensures cause { HasPutCause ((seen self.old).faults) ((seen self.new).faults) result }
        ensures put { OnOk result ((seen self.new).held ≡ with_content (seen self.old).held name.now bytes.now) }
        ensures kept { OnErr result ((seen self.new).held ≡ (seen self.old).held) }
        ensures raised { Rose ((seen self.old).puts) ((seen self.new).puts) };

    /// Adds every name once to `out`, which is empty before: the snapshots, the deltas, the reverse
    /// deltas and the announced version, each kind by its numbers rising. After a refusal `out` holds
    /// the first of that list. `Failed` comes only where the count of faults rose. The content stays
    /// as it was.
    fn list(&mut self, out: &mut Vec<BlobName>) -> Result<(), PutFault>
        requires { out.old.items ≡ [] }
        ensures cause { HasPutCause ((seen self.old).faults) ((seen self.new).faults) result }
        ensures listed { OnOk result (IfSome (seen self.old).held (λ store. out.new.items ≡ names store)) }
        ensures part { OnErr result
            (IfSome (seen self.old).held (λ store. IsFront out.new.items (names store))) }
        ensures kept { (seen self.new).held ≡ (seen self.old).held }
        ensures unput { (seen self.new).puts ≡ (seen self.old).puts };
}
