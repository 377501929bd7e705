//! A store of zeros.
use hol_io::{BlobName, BlobStore, PutFault, StoreFailed};

/// A store whose every name has so many bytes, all 0. It does not tell them to contracts.
#[derive(Drop)]
pub struct ZeroStore {
    size: u64,
    puts: u64,
}

impl BlobStore for ZeroStore {
    ghost use Rattle.std.specs.Prelude.{None};

    ghost seen = { λ store. record { held = None; faults = 0; puts = store.puts } };

    fn told_bytes(&self) {}

    fn size(&mut self, _name: &BlobName) -> Result<Option<u64>, StoreFailed> {
        Ok(Some(self.size))
    }

    fn read_at(
        &mut self,
        _name: &BlobName,
        _at: u64,
        buf: &mut [u8],
    ) -> Result<usize, StoreFailed> {
        buf.fill(0);
        Ok(buf.len())
    }

    fn put(&mut self, _name: &BlobName, _bytes: &[u8]) -> Result<(), PutFault> {
        self.puts = self.puts.saturating_add(1);
        Ok(())
    }

    fn list(&mut self, _out: &mut Vec<BlobName>) -> Result<(), PutFault> {
        Ok(())
    }
}

impl ZeroStore {
    /// A store whose every name has so many bytes.
    pub fn new(size: u64) -> ZeroStore {
        ZeroStore { size, puts: 0 }
    }
}
