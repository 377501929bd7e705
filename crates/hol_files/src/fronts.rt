//! The first bytes of blobs, remembered: a cycle asks for those of each blob of a folder.
ghost use Rattle.std.specs.Prelude.{◌≤◌, length, IfSome};

use hol_io::BlobName;
use std::alloc::Global;
use std::collections::BTreeMap;

/// So many bytes of a blob are remembered: its format and its two tags.
const FRONT: usize = 20;

/// The first bytes of blobs that were put or read, by their names.
#[derive(Drop)]
pub(crate) struct Fronts {
    by_name: BTreeMap<BlobName, [u8; FRONT]>,
}

impl Fronts {
    /// Nothing is remembered. It takes no memory.
    pub(crate) fn new(alloc: Global) -> Fronts {
        Fronts {
            by_name: BTreeMap::new(alloc),
        }
    }

    /// Fills `buf` with the first bytes of a name's blob, and gives their number; none where they are not remembered, or fewer than fit.
    pub(crate) fn read(&self, name: &BlobName, buf: &mut [u8]) -> Option<usize>
        ensures { IfSome result (λ count. count ≤ length buf.new) }
    {
        let front = self.by_name.get(name)?;
        let count = buf.len();
        if count > FRONT {
            return None;
        }
        buf.copy_from_slice(&front[..count]);
        Some(count)
    }

    /// Remembers the first of these bytes of a name's blob, if they are enough. The announced version changes, and is never remembered. Where
    /// memory is refused nothing is.
    pub(crate) fn remember(&mut self, name: &BlobName, bytes: &[u8]) {
        if *name == BlobName::Announced || bytes.len() < FRONT {
            return;
        }
        let mut front = [0; FRONT];
        front.copy_from_slice(&bytes[..FRONT]);
        let _before = self.by_name.insert(*name, front);
    }

    /// Forgets the first bytes of a name's blob.
    pub(crate) fn forget(&mut self, name: &BlobName) {
        let _before = self.by_name.remove(name);
    }
}
